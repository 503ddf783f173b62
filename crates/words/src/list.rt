// A line's numbers.
ghost use Rattle.std.specs.Prelude.{◌≡◌, [], is_ok};
ghost use Rattle.words.specs.Held.{has_room, pushed};

use std::marker::Model;

// No room is left.
#[derive(Clone, Copy, PartialEq, Eq, Debug)]
pub struct Full;

// At most 26 numbers, as many as the longest line has. They stand in an array, since reading a line takes no memory that could be missing.
#[derive(Clone, Copy)]
pub struct Numbers {
    values: [u64; 26],
    count: usize,
}

// The list of the numbers that it has. The places behind them are 0, so that the list gives the fields back.
impl Model for Numbers {
    ghost use Rattle.std.specs.Prelude.{◌≡◌, ℕ, ◌-◌, ◌≤◌, List, ◌++◌, length, take, drop, replicate};
    ghost use Rattle.std.proofs.Common.{sym, ap, ◌∙◌, arith, length-take-le, take-append-drop};

    ghost Value = { List ℕ };

    ghost view = { λ n. take n.count n.values };

    ghost invariant = { λ n. (n.count ≤ 26) × (length n.values ≡ 26) × (drop n.count n.values ≡ replicate (26 - n.count) 0) };

    ghost inverse = { λ ns. record { values = ns ++ replicate (26 - length ns) 0; count = length ns } };

    ghost inverse_ok = { λ n h.
        let long : length (take n.count n.values) ≡ n.count = length-take-le n.count n.values (omega (arith, h.0, h.1)) in
        let zeros = ap (λ k. take n.count n.values ++ replicate (26 - k) 0) long ∙ ap (λ (behind : List ℕ). take n.count n.values ++ behind) (sym h.2) in
        let all = zeros ∙ take-append-drop n.count n.values in
        λ i. record { values = all i; count = long i } };
}

impl Numbers {
    // No number yet.
    pub fn new() -> Numbers
        ensures { result ≡ [] }
    {
        Numbers {
            values: [0; 26],
            count: 0,
        }
    }

    // One number more, where there is room for it.
    pub fn push(&mut self, value: u64) -> Result<(), Full>
        ensures answer { is_ok result ≡ has_room self.old }
        ensures after { self.new ≡ pushed self.old value }
    {
        if self.count >= 26 {
            return Err(Full);
        }
        self.values[self.count] = value;
        self.count += 1;
        Ok(())
    }

    pub fn as_slice(&self) -> &[u64]
        ensures { result.now ≡ self.now }
    {
        &self.values[..self.count]
    }
}

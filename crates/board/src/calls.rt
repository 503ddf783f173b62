// What the calls of every board share.
ghost use Rattle.std.specs.Prelude.{◌≡◌, ◌<◌, ◌≤◌, IfSome, MatchResult, is_some, length};
ghost use Rattle.std.specs.Option.{option_map, unwrap_or};
ghost use Rattle.board.specs.declared.fault.BoardFault.TheVariants.{Outside as IsOutside};

use crate::fault::BoardFault;

// The most numbers that any board has.
pub const MOST_NUMBERS: usize = 4_096;

// The number, if it is one of a board of this capacity.
pub fn inside(number: u64, capacity: u64) -> Result<usize, BoardFault>
    ensures { MatchResult result (λ n. (n ≡ number) × (n < capacity)) (λ fault. (fault ≡ IsOutside number) × (capacity ≤ number)) }
{
    if number >= capacity {
        return Err(BoardFault::Outside(number));
    }
    Ok(number as usize)
}

// Copies a row into the place and says yes, or says no and leaves the place.
pub fn copy_row(row: Option<&[u8]>, place: &mut [u8; 128]) -> bool
    requires { IfSome row (λ r. length r.now ≡ 128) }
    ensures answer { result ≡ is_some row.entry }
    ensures place { place.new ≡ unwrap_or (option_map (λ r. r.now) row.entry) place.old }
{
    match row {
        Some(row) => {
            place.copy_from_slice(row);
            true
        }
        None => false,
    }
}

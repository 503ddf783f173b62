// The layer over a sheet.
ghost use Rattle.std.specs.Prelude.{◌≡◌};
ghost use Rattle.protected.specs.Layer.{protected_over, adds, Layered};
ghost use Rattle.protected.specs.Layers.{layer-lawful};

use crate::social::{is_entitled, social_parts};
use facts::Facts;
use sheet::Sheet;

// The most codes that a sheet can have.
const MOST_CODES: u64 = 65_000;

// A sheet with the social plan on top: the sheet's own codes answer as before, and the code behind them is the social plan. A sheet that has 65,000 codes has no room for it and stays as it is.
#[derive(Drop)]
pub struct Protected<S> {
    below: S,
}

impl<S: Sheet> Protected<S> {
    // The layer over this sheet.
    pub fn new(below: S) -> Protected<S>
        ensures value { result.below ≡ below }
        ensures layered { Layered (S.Sheet.tariff below) (protected_over (S.Sheet.tariff result.below)) }
    {
        Protected { below }
    }

    // The sheet below.
    pub fn below(&self) -> &S
        ensures { result.now ≡ self.now.below }
    {
        &self.below
    }

    // Whether this code is the one that the layer adds.
    fn adds(&self, code: u64) -> bool
        ensures { result ≡ adds (S.Sheet.tariff self.now.below) code }
    {
        let count = self.below.count();
        code == count && count < MOST_CODES
    }
}

impl<S: Sheet> Sheet for Protected<S> {
    ghost tariff = { λ s. protected_over (S.Sheet.tariff s.below) };

    ghost lawful = { λ s. layer-lawful (S.Sheet.tariff s.below) (S.Sheet.lawful s.below) };

    fn count(&self) -> u64 {
        let below = self.below.count();
        if below < MOST_CODES { below + 1 } else { below }
    }

    fn permits(&self, code: u64, facts: &Facts) -> bool {
        if self.adds(code) {
            is_entitled(facts)
        } else {
            self.below.permits(code, facts)
        }
    }

    fn parts(&self, code: u64, facts: &Facts) -> (u64, u64) {
        if !self.adds(code) {
            return self.below.parts(code, facts);
        }
        if is_entitled(facts) {
            social_parts(facts)
        } else {
            (0, 0)
        }
    }
}

// A call on a cabinet.
ghost use Rattle.std.specs.Prelude.{◌≡◌};
ghost use Rattle.std.specs.Fn.{FnOnceReturnsAt};
ghost use Rattle.run.specs.Asked.{number_of, Mapped};

use account::OpeningForm;

// A call with what it hands in, any numbers. A settlement holds its price sheet.
#[derive(Drop)]
pub enum Call<S> {
    Post { s: u64, mx: u64, nc: u64 },
    Open { number: u64, form: OpeningForm },
    Read { number: u64, indices: [u64; 12] },
    Settle { number: u64, end: u64, sheet: S },
    Pay { number: u64, cents: u64 },
    Close { number: u64 },
    Show { number: u64 },
}

impl<S> Call<S> {
    // The number that a call is on; a posting is on none.
    pub fn number(&self) -> Option<u64>
        ensures { result ≡ number_of self.now }
    {
        match self {
            Call::Post { .. } => None,
            Call::Open { number, .. }
            | Call::Read { number, .. }
            | Call::Settle { number, .. }
            | Call::Pay { number, .. }
            | Call::Close { number }
            | Call::Show { number } => Some(*number),
        }
    }

    // The same call, with the sheet of a settlement made another by the closure.
    pub fn map_sheet<T, F: FnOnce(&S) -> T>(&self, make: F) -> Call<T>
        requires { F.IsAlwaysCallable make }
        ensures { Mapped (FnOnceReturnsAt F.FnOnce make) self.now result }
    {
        match *self {
            Call::Post { s, mx, nc } => Call::Post { s, mx, nc },
            Call::Open { number, form } => Call::Open { number, form },
            Call::Read { number, indices } => Call::Read { number, indices },
            Call::Settle {
                number,
                end,
                ref sheet,
            } => Call::Settle {
                number,
                end,
                sheet: make(sheet),
            },
            Call::Pay { number, cents } => Call::Pay { number, cents },
            Call::Close { number } => Call::Close { number },
            Call::Show { number } => Call::Show { number },
        }
    }
}

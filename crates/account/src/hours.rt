// The two tariff hours that each circuit is metered by.
ghost use Rattle.std.specs.Prelude.{◌≡◌, ◌<◌};
ghost use Rattle.account.specs.Registers.{register_of};

#[derive(Clone, Copy, PartialEq, Eq, Debug)]
pub enum Hours {
    Day,
    Night,
}

impl Hours {
    // The register that counts a circuit's kWh in these hours.
    pub(crate) fn register(self, circuit: usize) -> usize
        requires { circuit < 6 }
        ensures value { result ≡ register_of self circuit }
        ensures bound { result < 12 }
    {
        match self {
            Hours::Day => 2 * circuit,
            Hours::Night => 2 * circuit + 1,
        }
    }
}

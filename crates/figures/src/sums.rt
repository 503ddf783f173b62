// Sums of price-revision figures over the months of a period. The two sums are types of their own, so that neither is taken for the other.
ghost use Rattle.std.specs.Prelude.{◌≡◌};

// The sum of N_E over the months of a period.
#[derive(Clone, Copy)]
pub struct NeSum(u64);

// The sum of N_C over the months of a period.
#[derive(Clone, Copy)]
pub struct NcSum(u64);

impl NeSum {
    pub fn new(sum: u64) -> NeSum
        ensures { result.0 ≡ sum }
    {
        NeSum(sum)
    }

    pub fn get(self) -> u64
        ensures { result ≡ self.0 }
    {
        self.0
    }
}

impl NcSum {
    pub fn new(sum: u64) -> NcSum
        ensures { result.0 ≡ sum }
    {
        NcSum(sum)
    }

    pub fn get(self) -> u64
        ensures { result ≡ self.0 }
    {
        self.0
    }
}

// The price-revision figures of one month.
ghost use Rattle.std.specs.Prelude.{◌≡◌, ◌≤◌};

// A month's two price-revision figures in ten-thousandths: N_E for everything but fuel, N_C for fuel.
#[derive(Clone, Copy)]
pub struct Month {
    ne: u32,
    nc: u32,
    ghost ne_limit: { ne ≤ 99999 },
    ghost nc_limit: { nc ≤ 99999 },
}

impl Month {
    // N_E, in ten-thousandths.
    pub fn ne(self) -> u32
        ensures { result ≡ self.ne }
    {
        self.ne
    }

    // N_C, in ten-thousandths.
    pub fn nc(self) -> u32
        ensures { result ≡ self.nc }
    {
        self.nc
    }
}

mod made;

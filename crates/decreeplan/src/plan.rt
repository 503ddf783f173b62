// What a plan of the decree sheet is: a base, and for each circuit the meter that counts it.

// The tariff of the main meter.
#[derive(Clone, Copy, PartialEq, Eq, Debug)]
pub enum Base {
    Normal,
    TwoRate,
    // for a connection of 30 kVA or more
    Normal30,
    TwoRate30,
    // two-rate, with a lower price for the night kWh beyond a block
    Extended,
    Extended30,
}

// The meter that a circuit is on.
#[derive(Clone, Copy, PartialEq, Eq, Debug)]
pub enum Place {
    Main,
    // for appliances that run by night alone
    ExclusiveNight,
    // for appliances that are cut off at peak hours
    PeakShed,
}

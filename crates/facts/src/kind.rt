// What a customer, a contract and a circuit can be.

// Whether a dwelling is lived in or worked in.
#[derive(Clone, Copy, PartialEq, Eq, Debug)]
pub enum Class {
    Residential,
    Professional,
}

// What has been asked for or agreed: the two-rate tariff, its extension to a block of night kWh, the social tariff of a protected customer.
#[derive(Clone, Copy, PartialEq, Eq, Debug)]
pub struct Marks {
    pub two_rate: bool,
    pub extension: bool,
    pub protected: bool,
}

// What a circuit is used for.
#[derive(Clone, Copy, PartialEq, Eq, Debug)]
pub enum Kind {
    Unused,
    General,
    // for appliances that run by night alone
    NightReserved,
    // may be cut off at peak hours
    Interruptible,
}

// A dwelling's profile.
ghost use Rattle.std.specs.Prelude.{◌≡◌, true};
ghost use Rattle.facts.specs.Limits.{Powers, may_have};

use crate::kind::{Class, Kind, Marks};

// What is agreed with a dwelling for the whole of a tenancy. Power is what the connection makes available and exempt the part of it that is free of kVA charges, both in tenths of a kVA.
#[derive(Clone, Copy, PartialEq, Eq, Debug)]
pub struct Profile {
    pub class: Class,
    pub marks: Marks,
    pub power: u16,
    pub exempt: u16,
    pub kinds: [Kind; 6],
    ghost powers: { Powers power exempt },
    ghost social: { may_have class marks ≡ true },
}

// The table of the cases.
ghost use Rattle.std.specs.Prelude.{◌≡◌};
ghost use Rattle.cases.specs.Years.{dwelling_with, year_of, one_circuit, two_circuits};
ghost use Rattle.cases.specs.Known.{twelve_cases};

use crate::case::Case;
use crate::case::Question::{Month, OnDecree, OnProtected, Register};
use facts::{FactsForm, ProfileForm};
use figures::{NcSum, NeSum};

// A residential dwelling without exempt power. Circuit 0 is general, circuit 1 of this kind, the others are unused.
pub fn dwelling(power: u64, marks: u64, kind: u64) -> ProfileForm
    ensures { result ≡ dwelling_with power marks kind }
{
    ProfileForm {
        class: 0,
        marks,
        power,
        exempt: 0,
        kinds: [1, kind, 0, 0, 0, 0],
    }
}

// Twelve months of a dwelling with all price figures 10,000: the kWh of circuit 0 by day and by night, and those of circuit 1 by night.
fn year(profile: ProfileForm, day: u64, night: u64, reserved: u64) -> FactsForm
    ensures { result ≡ year_of profile day night reserved }
{
    FactsForm {
        profile,
        day: [day, 0, 0, 0, 0, 0],
        night: [night, reserved, 0, 0, 0, 0],
        months: 12,
        ne: NeSum::new(120_000),
        nc: NcSum::new(120_000),
    }
}

// The year of a dwelling with one circuit.
fn one_circuit(power: u64, marks: u64, day: u64, night: u64) -> FactsForm
    ensures { result ≡ one_circuit power marks day night }
{
    year(dwelling(power, marks, 0), day, night, 0)
}

// The year of a dwelling with a night-reserved circuit beside the general one.
fn two_circuits(power: u64, marks: u64, day: u64, night: u64, reserved: u64) -> FactsForm
    ensures { result ≡ two_circuits power marks day night reserved }
{
    year(dwelling(power, marks, 2), day, night, reserved)
}

// The twelve cases.
pub fn twelve_cases() -> [Case; 12]
    ensures { result ≡ twelve_cases }
{
    [
        // s and Mx
        (1, Month(888_131, 141_151)),
        (2, Month(892_572, 141_151)),
        // power and marks, kWh by day and by night
        (3, OnDecree(one_circuit(100, 1, 2_000, 1_500))),
        (4, OnDecree(one_circuit(100, 1, 2_000, 526))),
        (5, OnDecree(one_circuit(100, 1, 2_000, 527))),
        (6, OnDecree(one_circuit(300, 0, 21_259, 0))),
        (7, OnDecree(one_circuit(300, 0, 21_260, 0))),
        // and by night on the night-reserved circuit
        (8, OnDecree(two_circuits(100, 3, 2_000, 0, 5_000))),
        (9, OnDecree(two_circuits(100, 3, 2_000, 1_766, 5_000))),
        (10, OnProtected(one_circuit(120, 4, 500, 0))),
        (11, OnProtected(one_circuit(120, 4, 501, 0))),
        // from one index to another
        (12, Register(999_990, 15)),
    ]
}

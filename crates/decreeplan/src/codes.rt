// Codes of plans: 729 for each base number, and the number of circuit i's place times 3^i.
ghost use Rattle.std.specs.Prelude.{◌≡◌, ◌%◌, map, is_some, nat_lt};
ghost use Rattle.std.specs.List.{range_with_len};
ghost use Rattle.std.specs.Option.{option_map};
ghost use Rattle.decreeplan.specs.Codes.{base_of, digit_place, place_in, plan_at, Coded};

use crate::plan::{Base, Place};

impl Base {
    // The base of a code; none from 4,374 on.
    pub fn of_code(code: u64) -> Option<Base>
        ensures { result ≡ base_of code }
    {
        Base::try_from(code / 729).ok()
    }
}

impl Place {
    // The place of circuit 0 under a code: its lowest digit to the base three. A third of the code has the places of the other circuits.
    pub fn first(code: u64) -> Place
        ensures { result ≡ digit_place (code % 3) }
    {
        Place::try_from(code % 3).unwrap()
    }
}

// The six places of a code, circuit 0 first.
fn places(code: u64) -> [Place; 6]
    ensures { result ≡ map (place_in code) (range_with_len 0 6) }
{
    [code, code / 3, code / 9, code / 27, code / 81, code / 243].map(Place::first)
}

// The base and the places of a code, where it has a base.
fn plan(code: u64) -> Option<(Base, [Place; 6])>
    ensures { result ≡ option_map (λ b. (b, map (place_in code) (range_with_len 0 6))) (base_of code) }
{
    Base::of_code(code).map(|base| (base, places(code)))
}

// The plan of a code: its base and the place of each circuit. It is the only plan of that code, and there is none from 4,374 on.
pub fn places_of(code: u64) -> Option<(Base, [Place; 6])>
    ensures value { result ≡ plan_at code }
    ensures coded { Coded code result }
    ensures below { is_some result ≡ nat_lt code 4374 }
{
    plan(code)
}

// Which plans a dwelling may have.
ghost use Rattle.std.specs.Prelude.{◌≡◌};
ghost use Rattle.facts.specs.Usage.{usage_of};
ghost use Rattle.decreeplan.specs.Codes.{places_of};
ghost use Rattle.decree.specs.Permission.{has_night_reserved, may_stand, permitted_with};

use decreeplan::{Base, Place};
use facts::{Facts, Kind, Marks};

// Whether a circuit of this kind and with these kWh by day may be on a place, under a base and with these marks.
fn may_stand(base: Base, place: Place, kind: Kind, day: u32, marks: Marks) -> bool
    ensures { result ≡ may_stand marks base place kind day }
{
    match (base, place, kind) {
        (Base::TwoRate | Base::TwoRate30, _, _) if !marks.two_rate => false,
        (Base::Extended | Base::Extended30, _, _) if !marks.two_rate || !marks.extension => false,
        (_, Place::Main, _) => true,
        (Base::Extended | Base::Extended30, Place::ExclusiveNight, _) => false,
        (_, Place::ExclusiveNight, Kind::NightReserved) if day == 0 => true,
        (_, Place::PeakShed, Kind::Interruptible) => true,
        _ => false,
    }
}

// Whether one of the circuits is night-reserved.
fn any_night_reserved(kinds: &[Kind; 6]) -> bool
    ensures { result ≡ has_night_reserved kinds.now }
{
    kinds.contains(&Kind::NightReserved)
}

// Whether a base is permitted with the places of a code.
pub(crate) fn permitted(base: Base, code: u64, facts: &Facts) -> bool
    ensures { result ≡ permitted_with base (places_of code) (usage_of facts.now) }
{
    let mut rest = code;
    // By index: over a zip of the kinds and the kWh, which proves too, a choice takes 36.1 microseconds and not 33.8.
    for i in 0..6usize {
        let place = Place::first(rest);
        if !may_stand(
            base,
            place,
            facts.profile.kinds[i],
            facts.day[i],
            facts.profile.marks,
        ) {
            return false;
        }
        rest /= 3;
    }
    match base {
        Base::Extended | Base::Extended30 => any_night_reserved(&facts.profile.kinds),
        Base::Normal | Base::TwoRate | Base::Normal30 | Base::TwoRate30 => true,
    }
}

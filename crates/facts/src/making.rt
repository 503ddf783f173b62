// Making profiles and facts from numbers, each limit looked at.
ghost use Rattle.std.specs.Prelude.{◌≡◌, IfOk};
ghost use Rattle.std.specs.Result.{result_ok};
ghost use Rattle.common.specs.Counts.{all_to};
ghost use Rattle.facts.specs.Limits.{may_have, kwh_fits, KwhLimits};
ghost use Rattle.facts.specs.Usage.{dwelling_of, usage_of};
ghost use Rattle.facts.specs.Forms.{kinds_at, circuit_fits, kwh_at, made, profile_made, facts_made};

use crate::facts::Facts;
use crate::form::{FactsFault, FactsForm, ProfileForm};
use crate::kind::{Class, Kind, Marks};
use crate::profile::Profile;
use common::UnknownNumber;

// The largest power, in tenths of a kVA.
const MOST_POWER: u64 = 2_500;
// The most kWh of a circuit in a period, by day or by night.
const MOST_KWH: u64 = 100_000;
// The largest price figure of a month.
const MOST_FIGURE: u64 = 99_999;

// Only a residential customer can be a protected one.
fn may_have(class: Class, marks: Marks) -> bool
    ensures { result ≡ may_have class marks }
{
    class == Class::Residential || !marks.protected
}

// Whether a circuit of this kind may have so many kWh.
fn fits(kind: Kind, kwh: u64) -> bool
    ensures { result ≡ kwh_fits kind kwh }
{
    match kind {
        Kind::Unused => kwh == 0,
        Kind::General | Kind::NightReserved | Kind::Interruptible => kwh <= MOST_KWH,
    }
}

// Whether each of six circuits may have so many kWh.
fn all_fit(kinds: &[Kind; 6], kwh: &[u64; 6]) -> bool
    ensures { result ≡ all_to (circuit_fits kinds.now kwh.now) 6 }
{
    let mut circuits = kinds.iter().zip(kwh);
    circuits.all(|(kind, kwh)| fits(*kind, *kwh))
}

// The kinds of six circuits, where each number is one.
fn kinds_from(numbers: [u64; 6]) -> Result<[Kind; 6], UnknownNumber>
    ensures { result_ok result ≡ kinds_at numbers }
{
    numbers.try_map(Kind::try_from)
}

// The kWh of six circuits, where each is within its limit.
fn kwh_from(kinds: &[Kind; 6], kwh: &[u64; 6]) -> Result<[u32; 6], FactsFault>
    ensures value { result_ok result ≡ kwh_at kinds.now kwh.now }
    ensures limits { IfOk result (KwhLimits 6 kinds.now) }
{
    if !all_fit(kinds, kwh) {
        return Err(FactsFault::OutsideLimits);
    }
    Ok(kwh.map(|kwh| kwh as u32))
}

impl Profile {
    // The profile of a form, where it is within its limits.
    pub fn new(form: &ProfileForm) -> Result<Profile, FactsFault>
        ensures { made dwelling_of result ≡ profile_made form.now }
    {
        let class = Class::try_from(form.class)?;
        let marks = Marks::try_from(form.marks)?;
        if !may_have(class, marks) {
            return Err(FactsFault::OutsideLimits);
        }
        if !(1..=MOST_POWER).contains(&form.power) {
            return Err(FactsFault::OutsideLimits);
        }
        if form.exempt > form.power {
            return Err(FactsFault::OutsideLimits);
        }
        let kinds = kinds_from(form.kinds)?;
        Ok(Profile {
            class,
            marks,
            power: form.power as u16,
            exempt: form.exempt as u16,
            kinds,
        })
    }
}

impl Facts {
    // The facts of a form, where they are within their limits.
    pub fn new(form: &FactsForm) -> Result<Facts, FactsFault>
        ensures { made usage_of result ≡ facts_made form.now }
    {
        let profile = Profile::new(&form.profile)?;
        let day = kwh_from(&profile.kinds, &form.day)?;
        let night = kwh_from(&profile.kinds, &form.night)?;
        if !(1..=12).contains(&form.months) {
            return Err(FactsFault::OutsideLimits);
        }
        let most = MOST_FIGURE * form.months;
        if form.ne.get() > most || form.nc.get() > most {
            return Err(FactsFault::OutsideLimits);
        }
        Ok(Facts {
            profile,
            day,
            night,
            months: form.months as u8,
            ne: form.ne,
            nc: form.nc,
        })
    }
}

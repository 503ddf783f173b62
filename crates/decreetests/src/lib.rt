// Known figures of the decree sheet, each worked out from the rules by hand or by a calculation of its own.
#![tactic(auto)]

#[cfg(test)]
mod asked;
#[cfg(test)]
mod known;

#[cfg(test)]
mod tests {
    use crate::asked::{ASKED, Asked};
    use crate::known::{KNOWN, Known};
    use decree::{Decree, extended_from, plain_code};
    use decreeplan::{Base, Place, places_of};
    use facts::{Facts, FactsForm, ProfileForm};
    use figures::{NcSum, NeSum};
    use sheet::{Sheet, choose, price_of};
    use std::test::Fail;

    fn facts_from(form: &FactsForm) -> Result<Facts, Fail> {
        Facts::new(form).map_err(|_| Fail::new("facts outside their limits"))
    }

    fn facts_of(known: &Known) -> Result<Facts, Fail> {
        facts_from(&FactsForm {
            profile: ProfileForm {
                class: 0,
                marks: known.marks,
                power: known.power,
                exempt: known.exempt,
                kinds: known.kinds,
            },
            day: known.day,
            night: known.night,
            months: known.months,
            ne: NeSum::new(known.ne),
            nc: NcSum::new(known.nc),
        })
    }

    fn year_of(asked: &Asked) -> Result<Facts, Fail> {
        facts_from(&FactsForm {
            profile: ProfileForm {
                class: 0,
                marks: asked.marks,
                power: 100,
                exempt: 0,
                kinds: asked.kinds,
            },
            day: asked.day,
            night: [0; 6],
            months: 12,
            ne: NeSum::new(120_000),
            nc: NcSum::new(120_000),
        })
    }

    #[test]
    fn cheapest_plans(rt: HostRuntime) -> Result<(), Fail> {
        for known in &KNOWN {
            let facts = facts_of(known)?;
            let plan = choose(&Decree, &facts).ok_or_else(|| Fail::new("no plan"))?;
            assert_eq!(rt; plan.code, known.code);
            assert_eq!(rt; plan.parts, known.parts);
            assert_eq!(rt; plan.cents, known.cents);
        }
        Ok(())
    }

    #[test]
    fn permitted_plans(rt: HostRuntime) -> Result<(), Fail> {
        for asked in &ASKED {
            let facts = year_of(asked)?;
            assert_eq!(rt; Decree.permits(asked.code, &facts), asked.permitted);
            assert_eq!(rt;
                Decree.parts(asked.code, &facts) == (0, 0),
                !asked.permitted
            );
        }
        assert_eq!(rt; Decree.count(), 4_374);
        Ok(())
    }

    // A plan that costs more before rounding may round to the same cents.
    #[test]
    fn dearer_plan_of_as_many_cents(rt: HostRuntime) -> Result<(), Fail> {
        let facts = facts_of(&KNOWN[6])?;
        let plan = price_of(&Decree, 732, &facts).ok_or_else(|| Fail::new("not permitted"))?;
        assert_eq!(rt; plan.parts, (6_927_840_000_000, 69_808_870_080_000));
        assert_eq!(rt; plan.cents, KNOWN[6].cents);
        Ok(())
    }

    #[test]
    fn plans_of_codes(rt: HostRuntime) -> Result<(), Fail> {
        let plan = places_of(1_506).ok_or_else(|| Fail::new("no plan"))?;
        let places = plan.1;
        assert_eq!(rt; plan.0, Base::Normal30);
        assert_eq!(rt; places[1], Place::ExclusiveNight);
        assert_eq!(rt; places[2], Place::PeakShed);
        assert_eq!(rt; places[3], Place::ExclusiveNight);
        assert_eq!(rt; places[5], Place::Main);
        assert!(rt; places_of(4_374).is_none());
        assert_eq!(rt; extended_from(Base::Extended30), Some(Base::TwoRate30));
        assert_eq!(rt; plain_code(), 0);
        Ok(())
    }
}

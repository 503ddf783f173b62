// The protected layer over sheets of no code, of a few, of all but one and of all that a sheet can have.
#![tactic(auto)]

#[cfg(test)]
mod flat;

#[cfg(test)]
mod tests {
    use crate::flat::Flat;
    use facts::{Facts, FactsForm, ProfileForm};
    use figures::{NcSum, NeSum};
    use protected::Protected;
    use sheet::{Sheet, choose, price_of};
    use std::test::Fail;

    // A year of a residential customer with a general circuit, all price figures at 10,000.
    fn year(power: u64, exempt: u64, marks: u64, day: u64, night: u64) -> Result<Facts, Fail> {
        let form = FactsForm {
            profile: ProfileForm {
                class: 0,
                marks,
                power,
                exempt,
                kinds: [1, 0, 0, 0, 0, 0],
            },
            day: [day, 0, 0, 0, 0, 0],
            night: [night, 0, 0, 0, 0, 0],
            months: 12,
            ne: NeSum::new(120_000),
            nc: NcSum::new(120_000),
        };
        Facts::new(&form).map_err(|_| Fail::new("facts outside their limits"))
    }

    // The code and the cents of the cheapest plan.
    fn cheapest<S: Sheet>(sheet: &S, facts: &Facts) -> Result<(u64, u64), Fail> {
        let plan = choose(sheet, facts).ok_or_else(|| Fail::new("no plan"))?;
        Ok((plan.code, plan.cents))
    }

    #[test]
    fn kwh_up_to_five_hundred_are_free(rt: HostRuntime) -> Result<(), Fail> {
        let sheet = Protected::new(Flat::new(3));
        assert_eq!(rt; cheapest(&sheet, &year(120, 0, 4, 500, 0)?)?, (3, 0));
        assert_eq!(rt; cheapest(&sheet, &year(120, 0, 4, 250, 250)?)?, (3, 0));
        Ok(())
    }

    #[test]
    fn beyond_them_power_and_kwh_are_charged(rt: HostRuntime) -> Result<(), Fail> {
        let sheet = Protected::new(Flat::new(3));
        assert_eq!(rt; cheapest(&sheet, &year(120, 0, 4, 501, 0)?)?, (3, 710));
        assert_eq!(rt; cheapest(&sheet, &year(120, 0, 4, 300, 201)?)?, (3, 710));
        assert_eq!(rt; cheapest(&sheet, &year(120, 20, 4, 501, 0)?)?, (3, 10));
        assert_eq!(rt; cheapest(&sheet, &year(100, 0, 4, 501, 0)?)?, (3, 10));
        Ok(())
    }

    #[test]
    fn others_choose_as_before(rt: HostRuntime) -> Result<(), Fail> {
        let sheet = Protected::new(Flat::new(3));
        let facts = year(120, 0, 3, 500, 0)?;
        assert_eq!(rt; cheapest(&sheet, &facts)?, (0, 1389));
        assert!(rt; price_of(&sheet, 3, &facts).is_none());
        assert_eq!(rt; sheet.parts(3, &facts), (0, 0));
        Ok(())
    }

    #[test]
    fn over_no_code_it_is_code_0(rt: HostRuntime) -> Result<(), Fail> {
        let sheet = Protected::new(Flat::new(0));
        assert_eq!(rt; sheet.count(), 1);
        assert_eq!(rt; cheapest(&sheet, &year(120, 0, 4, 500, 0)?)?, (0, 0));
        assert!(rt; choose(&sheet, &year(120, 0, 0, 500, 0)?).is_none());
        Ok(())
    }

    #[test]
    fn over_itself_it_adds_one_more(rt: HostRuntime) -> Result<(), Fail> {
        let sheet = Protected::new(Protected::new(Flat::new(3)));
        let facts = year(120, 0, 4, 501, 0)?;
        assert_eq!(rt; sheet.count(), 5);
        assert_eq!(rt; cheapest(&sheet, &facts)?, (3, 710));
        assert_eq!(rt; sheet.parts(4, &facts), sheet.parts(3, &facts));
        Ok(())
    }

    #[test]
    fn last_place_is_taken(rt: HostRuntime) -> Result<(), Fail> {
        let sheet = Protected::new(Flat::new(64_999));
        let facts = year(120, 0, 4, 500, 0)?;
        assert_eq!(rt; sheet.count(), 65_000);
        assert!(rt; sheet.permits(64_999, &facts));
        assert!(rt; !sheet.permits(65_000, &facts));
        assert_eq!(rt; cheapest(&sheet, &facts)?, (64_999, 0));
        assert_eq!(rt; Protected::new(sheet).count(), 65_000);
        Ok(())
    }

    #[test]
    fn full_sheet_stays_as_it_is(rt: HostRuntime) -> Result<(), Fail> {
        let sheet = Protected::new(Flat::new(65_000));
        let facts = year(120, 0, 4, 500, 0)?;
        assert_eq!(rt; sheet.count(), 65_000);
        assert!(rt; !sheet.permits(65_000, &facts));
        assert!(rt; sheet.permits(64_999, &facts));
        assert_eq!(rt; sheet.below().count(), 65_000);
        assert_eq!(rt; cheapest(&sheet, &facts)?, (0, 1389));
        Ok(())
    }
}

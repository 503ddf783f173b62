// The house sheet: bytes read and refused, lines written and priced, and figures that public papers print.
#![tactic(auto)]

#[cfg(test)]
mod bytes;
#[cfg(test)]
mod published;

#[cfg(test)]
mod tests {
    use crate::bytes::{ANOTHER_LINE, AT_THE_LIMITS, EIGHT_LINES, ONE_LINE, REFUSED};
    use crate::published::PUBLISHED;
    use facts::{Facts, FactsForm, ProfileForm};
    use figures::{NcSum, NeSum};
    use house::House;
    use protected::Protected;
    use refusal::Refusal;
    use sheet::{Sheet, choose, price_of};
    use std::test::Fail;

    // A residential customer with a general circuit, all price figures at 10,000.
    fn period(
        power: u64,
        exempt: u64,
        marks: u64,
        months: u64,
        day: u64,
        night: u64,
    ) -> Result<Facts, Fail> {
        let form = FactsForm {
            profile: ProfileForm {
                class: 0,
                marks,
                power,
                exempt,
                kinds: [1, 0, 0, 0, 0, 0],
            },
            day: [day, 0, 0, 0, 0, 0],
            night: [night, 0, 0, 0, 0, 0],
            months,
            ne: NeSum::new(10_000 * months.min(12)),
            nc: NcSum::new(10_000 * months.min(12)),
        };
        Facts::new(&form).map_err(|_| Fail::new("facts outside their limits"))
    }

    fn sheet_of(bytes: &[u8]) -> Result<House, Fail> {
        let mut house = House::new();
        house.read(bytes)?;
        Ok(house)
    }

    #[test]
    fn refusals_and_their_places(rt: HostRuntime) -> Result<(), Fail> {
        for refused in &REFUSED {
            let mut house = sheet_of(ONE_LINE)?;
            match house.read(refused.bytes) {
                Ok(()) => return Err(Fail::new("accepted")),
                Err(fault) => {
                    assert_eq!(rt; Refusal::from(fault).number, refused.number);
                    assert_eq!(rt; Refusal::from(fault).place, refused.place);
                }
            }
            assert_eq!(rt; house.count(), 1);
            let line = house.line(0).ok_or_else(|| Fail::new("no line"))?;
            assert_eq!(rt; line.charge, 39_990);
        }
        Ok(())
    }

    #[test]
    fn reading_replaces_all_lines(rt: HostRuntime) -> Result<(), Fail> {
        let mut house = sheet_of(EIGHT_LINES)?;
        assert_eq!(rt; house.count(), 8);
        house.read(ANOTHER_LINE)?;
        assert_eq!(rt; house.count(), 1);
        let line = house.line(0).ok_or_else(|| Fail::new("no line"))?;
        assert_eq!(rt; line.charge, 12_050);
        assert_eq!(rt; line.day.ne, 9_695);
        Ok(())
    }

    #[test]
    fn new_sheet_permits_nothing(rt: HostRuntime) -> Result<(), Fail> {
        let house = House::new();
        let facts = period(100, 0, 0, 12, 1_000, 0)?;
        assert_eq!(rt; house.count(), 0);
        assert_eq!(rt; house.permits(0, &facts), false);
        assert_eq!(rt; choose(&house, &facts).is_some(), false);
        assert_eq!(rt; Protected::new(house).count(), 1);
        Ok(())
    }

    #[test]
    fn protected_plan_stands_behind_the_lines(rt: HostRuntime) -> Result<(), Fail> {
        let sheet = Protected::new(sheet_of(ONE_LINE)?);
        let facts = period(120, 0, 4, 12, 500, 0)?;
        let free = choose(&sheet, &facts).ok_or_else(|| Fail::new("no plan"))?;
        assert_eq!(rt; (free.code, free.cents), (1, 0));
        let facts = period(120, 0, 4, 12, 501, 0)?;
        let paid = choose(&sheet, &facts).ok_or_else(|| Fail::new("no plan"))?;
        assert_eq!(rt; (paid.code, paid.cents), (1, 710));
        Ok(())
    }

    #[test]
    fn writing_gives_the_bytes_back(rt: HostRuntime) -> Result<(), Fail> {
        let mut place = [9u8; 171];
        assert_eq!(rt; sheet_of(AT_THE_LIMITS)?.write(&mut place), 24);
        assert_eq!(rt; &place[0..24], AT_THE_LIMITS);
        assert_eq!(rt; place[24], 9);
        assert_eq!(rt; sheet_of(EIGHT_LINES)?.write(&mut place), 171);
        assert_eq!(rt; &place[0..171], EIGHT_LINES);
        Ok(())
    }

    #[test]
    fn limits_of_a_line(rt: HostRuntime) -> Result<(), Fail> {
        let house = sheet_of(AT_THE_LIMITS)?;
        assert_eq!(rt; house.permits(0, &period(2_499, 0, 0, 12, 0, 0)?), false);
        let facts = period(2_500, 0, 0, 12, 100_000, 100_000)?;
        assert_eq!(rt; house.permits(0, &facts), true);
        assert_eq!(rt;
            house.parts(0, &facts),
            (1_440_000_000_000_000, 11_520_000_000_000_000)
        );
        assert_eq!(rt; house.parts(1, &facts), (0, 0));
        Ok(())
    }

    #[test]
    fn published_figures(rt: HostRuntime) -> Result<(), Fail> {
        for published in &PUBLISHED {
            let house = sheet_of(published.bytes)?;
            let facts = period(100, 0, 0, published.months, published.day, 0)?;
            let found = price_of(&house, published.code, &facts);
            let plan = found.ok_or_else(|| Fail::new("not permitted"))?;
            assert_eq!(rt; plan.cents, published.cents);
            let best = choose(&house, &facts).ok_or_else(|| Fail::new("no plan"))?;
            assert_eq!(rt; best.code, published.cheapest);
        }
        Ok(())
    }
}

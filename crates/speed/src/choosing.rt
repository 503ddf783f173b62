// Choosing a plan on the decree sheet.
use decree::Decree;
use facts::{Facts, FactsForm, ProfileForm};
use figures::{NcSum, NeSum};
use sheet::choose;

// A dwelling with circuits of every kind, whose kWh go with a number.
fn usage(i: u64) -> FactsForm {
    let turn = i % 1000;
    FactsForm {
        profile: ProfileForm {
            class: 0,
            marks: 3,
            power: 100 + turn % 300,
            exempt: 0,
            kinds: [1, 2, 3, 2, 3, 1],
        },
        day: [2000 + turn, 0, 300, 0, 400, 50],
        night: [1500, 800 + turn, 200, 900, 100, 60],
        months: 12,
        ne: NeSum::new(120_000),
        nc: NcSum::new(118_000),
    }
}

// The code and the cents of the plan chosen for a number, added up.
pub fn choose_for(number: u64) -> u64 {
    match Facts::new(&usage(number)) {
        Ok(facts) => choose(&Decree, &facts).map_or(0, |plan| plan.code.wrapping_add(plan.cents)),
        Err(_) => 0,
    }
}

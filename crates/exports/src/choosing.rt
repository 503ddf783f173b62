// Prices and the cheapest plan of a sheet.
ghost use Rattle.std.specs.Prelude.{◌≡◌};
ghost use Rattle.facts.specs.Forms.{made, facts_made};
ghost use Rattle.sheets.specs.Named.{tariff_of};
ghost use Rattle.house.specs.Houses.{lines_of};
ghost use Rattle.exports.specs.Crossing.{facts_form};
ghost use Rattle.exports.specs.Sheets.{name_at, lines_handed, tariff_handed};
ghost use Rattle.exports.specs.Prices.{priced, cheapest_plan};
ghost use Rattle.exports.specs.Statuses.{plan_status, plan_place};
ghost use Rattle.exports.specs.Chosen.{TellsCheapest};

use crate::crossing::{PeriodFacts, PricedPlan};
use crate::fault::Fault;
use facts::{Facts, FactsForm};
use house::{House, SheetFault};
use lineforms::SheetName;
use sheet::{Plan, choose, price_of};
use sheets::AnySheet;

// The sheet of a number. These numbers are the callers' own, so they stand here and not at the names.
fn name_at(number: u64) -> Option<SheetName>
    ensures { result ≡ name_at number }
{
    match number {
        0 => Some(SheetName::Decree),
        1 => Some(SheetName::House),
        2 => Some(SheetName::ProtectedDecree),
        3 => Some(SheetName::ProtectedHouse),
        _ => None,
    }
}

// The house sheet that a sheet of this name needs: it is read from the bytes, or has no lines.
fn house_for(name: SheetName, bytes: &[u8]) -> Result<House, SheetFault>
    ensures { made lines_of result ≡ lines_handed name bytes.now }
{
    let mut house = House::new();
    match name {
        SheetName::Decree | SheetName::ProtectedDecree => {}
        SheetName::House | SheetName::ProtectedHouse => house.read(bytes)?,
    }
    Ok(house)
}

// The sheet that a number and bytes give.
fn sheet_for(number: u64, bytes: &[u8]) -> Result<AnySheet, Fault>
    ensures { made tariff_of result ≡ tariff_handed (name_at number) bytes.now }
{
    let name = name_at(number).ok_or(Fault::UnknownSheet)?;
    let house = house_for(name, bytes)?;
    Ok(AnySheet::named(name, house))
}

// The plan of a code.
fn price(number: u64, bytes: &[u8], code: u64, facts: &PeriodFacts) -> Result<Plan, Fault>
    ensures { result ≡ priced (tariff_handed (name_at number) bytes.now) code (facts_made (facts_form facts.now)) }
{
    let sheet = sheet_for(number, bytes)?;
    let facts = Facts::new(&FactsForm::from(facts))?;
    price_of(&sheet, code, &facts).ok_or(Fault::NotPermitted)
}

// The cheapest plan.
fn cheapest(number: u64, bytes: &[u8], facts: &PeriodFacts) -> Result<Plan, Fault>
    ensures { result ≡ cheapest_plan (tariff_handed (name_at number) bytes.now) (facts_made (facts_form facts.now)) }
{
    let sheet = sheet_for(number, bytes)?;
    let facts = Facts::new(&FactsForm::from(facts))?;
    choose(&sheet, &facts).ok_or(Fault::NotPermitted)
}

// Puts a plan into the caller's place and answers 0, or answers why there is none.
fn hand_back(found: Result<Plan, Fault>, place: &mut PricedPlan) -> u64
    ensures status { result ≡ plan_status found }
    ensures place { place.new ≡ plan_place found place.old }
{
    match found {
        Ok(plan) => {
            *place = PricedPlan::from(plan);
            0
        }
        Err(fault) => u64::from(fault),
    }
}

// The price of one plan of a sheet, by its code, for the facts of a period.
#[unsafe(no_mangle)]
pub extern "C" fn funderaky_price(
    sheet: u64,
    house: &[u8],
    code: u64,
    facts: &PeriodFacts,
    plan: &mut PricedPlan,
) -> u64
    ensures status { result ≡ plan_status (priced (tariff_handed (name_at sheet) house.now) code (facts_made (facts_form facts.now))) }
    ensures place { plan.new ≡ plan_place (priced (tariff_handed (name_at sheet) house.now) code (facts_made (facts_form facts.now))) plan.old }
{
    hand_back(price(sheet, house, code, facts), plan)
}

// The cheapest permitted plan of a sheet for the facts of a period.
#[unsafe(no_mangle)]
pub extern "C" fn funderaky_choose(
    sheet: u64,
    house: &[u8],
    facts: &PeriodFacts,
    plan: &mut PricedPlan,
) -> u64
    ensures status { result ≡ plan_status (cheapest_plan (tariff_handed (name_at sheet) house.now) (facts_made (facts_form facts.now))) }
    ensures place { plan.new ≡ plan_place (cheapest_plan (tariff_handed (name_at sheet) house.now) (facts_made (facts_form facts.now))) plan.old }
    ensures cheapest { TellsCheapest (tariff_handed (name_at sheet) house.now) (facts_made (facts_form facts.now)) result plan.new }
{
    hand_back(cheapest(sheet, house, facts), plan)
}

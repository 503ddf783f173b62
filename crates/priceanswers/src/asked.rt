// Lines that ask for a rating or a price.
ghost use Rattle.std.specs.Prelude.{◌≡◌, None};
ghost use Rattle.house.specs.Houses.{lines_of};
ghost use Rattle.rating.specs.Ratings.{rating_of};
ghost use Rattle.facts.specs.Forms.{facts_made};
ghost use Rattle.sheets.specs.Named.{tariff_named};
ghost use Rattle.answers.specs.Prices.{wide};
ghost use Rattle.answers.specs.Tells.{lines_read};
ghost use Rattle.priceanswers.specs.Answers.{rating_answer, refused_or_wide, price_line_answer, choose_line_answer};

use answers::PriceAnswer;
use facts::{Facts, FactsForm};
use house::House;
use lineforms::SheetName;
use rating::rating;
use refusal::Refusal;
use sheet::{choose, price_of};
use sheets::AnySheet;

// `rating NETWORK AMPERE`
pub fn rating_answer(network: u64, ampere: u64) -> PriceAnswer
    ensures value { wide result ≡ rating_answer (rating_of network ampere) }
    ensures unmoved { lines_read (wide result) ≡ None }
{
    match rating(network, ampere) {
        Ok(tenths) => PriceAnswer::Tenths(tenths),
        Err(fault) => PriceAnswer::Refused(fault.into()),
    }
}

// A plan's price at the facts of a form, where they are within their limits.
fn priced(
    sheet: SheetName,
    code: u64,
    form: &FactsForm,
    house: &House,
) -> Result<PriceAnswer, Refusal>
    ensures value { refused_or_wide result ≡ price_line_answer (tariff_named sheet (lines_of house.now)) code (facts_made form.now) }
    ensures unmoved { lines_read (refused_or_wide result) ≡ None }
{
    let facts = Facts::new(form)?;
    Ok(
        match price_of(&AnySheet::named(sheet, *house), code, &facts) {
            Some(plan) => PriceAnswer::Parts(plan.parts.0, plan.parts.1, plan.cents),
            None => PriceAnswer::NotPermitted,
        },
    )
}

// `price SHEET CODE ..`
pub fn price_answer(sheet: SheetName, code: u64, form: &FactsForm, house: &House) -> PriceAnswer
    ensures value { wide result ≡ price_line_answer (tariff_named sheet (lines_of house.now)) code (facts_made form.now) }
    ensures unmoved { lines_read (wide result) ≡ None }
{
    priced(sheet, code, form, house).unwrap_or_else(PriceAnswer::Refused)
}

// The cheapest plan at the facts of a form, where they are within their limits.
fn cheapest(sheet: SheetName, form: &FactsForm, house: &House) -> Result<PriceAnswer, Refusal>
    ensures value { refused_or_wide result ≡ choose_line_answer (tariff_named sheet (lines_of house.now)) (facts_made form.now) }
    ensures unmoved { lines_read (refused_or_wide result) ≡ None }
{
    let facts = Facts::new(form)?;
    Ok(match choose(&AnySheet::named(sheet, *house), &facts) {
        Some(plan) => PriceAnswer::Plan(plan.code, plan.parts.0, plan.parts.1, plan.cents),
        None => PriceAnswer::NoPlan,
    })
}

// `choose SHEET ..`
pub fn choose_answer(sheet: SheetName, form: &FactsForm, house: &House) -> PriceAnswer
    ensures value { wide result ≡ choose_line_answer (tariff_named sheet (lines_of house.now)) (facts_made form.now) }
    ensures unmoved { lines_read (wide result) ≡ None }
{
    cheapest(sheet, form, house).unwrap_or_else(PriceAnswer::Refused)
}

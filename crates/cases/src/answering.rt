// Putting the questions of the cases to the calls that answer them.
ghost use Rattle.std.specs.Prelude.{◌≡◌};
ghost use Rattle.cases.specs.Answering.{month_answer, plan_answer, day_index, opening_at, reading_answer, answer_of, figure_of};

use crate::case::{Answer, Question};
use crate::table::dwelling;
use account::{Account, Hours, OpeningForm, State};
use decree::Decree;
use facts::{Facts, FactsForm};
use figures::Month;
use protected::Protected;
use sheet::{Sheet, choose};

// The N_E of a month whose N_C is 10,000.
fn month_answer(s: u64, mx: u64) -> Option<Answer>
    ensures { result ≡ month_answer s mx }
{
    Month::from_indices(s, mx, 10_000).map(|month| Answer::NonFuel(month.ne()))
}

// The cheapest plan of a sheet.
fn plan_answer<S: Sheet>(sheet: &S, form: &FactsForm) -> Option<Answer>
    ensures { result ≡ plan_answer (S.tariff sheet.now) form.now }
{
    let facts = Facts::new(form).ok()?;
    choose(sheet, &facts).map(|plan| Answer::Plan(plan.code, plan.cents))
}

// Twelve indices: this one for circuit 0 by day, and 0 for the other registers.
fn day_index(index: u64) -> [u64; 12]
    ensures { result ≡ day_index index }
{
    [index, 0, 0, 0, 0, 0, 0, 0, 0, 0, 0, 0]
}

// The kWh that wait by day in an account that is opened and then read.
fn reading_answer(opening: &OpeningForm, indices: &[u64; 12]) -> Option<Answer>
    ensures { result ≡ reading_answer opening.now indices.now }
{
    let opened = Account::open(State::Vacant, opening).ok()?;
    let read = opened.read(indices).ok()?;
    Some(Answer::Kwh(read.waiting_in_all(Hours::Day)))
}

// A dwelling's opening with its day register at this index.
fn opening_at(index: u64) -> OpeningForm
    ensures { result ≡ opening_at index }
{
    OpeningForm {
        profile: dwelling(100, 0, 0),
        first: 0,
        indices: day_index(index),
    }
}

impl Question {
    // The answer; none where a figure is outside its limits, or no plan is permitted.
    pub fn answer(&self) -> Option<Answer>
        ensures { result ≡ answer_of self.now }
    {
        match self {
            Question::Month(s, mx) => month_answer(*s, *mx),
            Question::OnDecree(form) => plan_answer(&Decree, form),
            Question::OnProtected(form) => plan_answer(&Protected::new(Decree), form),
            Question::Register(old, new) => reading_answer(&opening_at(*old), &day_index(*new)),
        }
    }
}

impl Answer {
    // The last figure of an answer.
    pub fn figure(self) -> u64
        ensures { result ≡ figure_of self }
    {
        match self {
            Answer::NonFuel(ne) => ne as u64,
            Answer::Plan(_, cents) => cents,
            Answer::Kwh(kwh) => kwh as u64,
        }
    }
}

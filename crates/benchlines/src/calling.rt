// Lines that call the cabinet.
ghost use Rattle.std.specs.Prelude.{◌≡◌, None};
ghost use Rattle.house.specs.Houses.{lines_of};
ghost use Rattle.sheets.specs.Named.{tariff_of};
ghost use Rattle.run.specs.Asked.{asked};
ghost use Rattle.answers.specs.Tells.{lines_read};
ghost use Rattle.bench.specs.Stands.{stand_of};
ghost use Rattle.bench.specs.Deeds.{call_reply, call_after, KeepsLaw};
ghost use Rattle.benchlines.specs.Answers.{asked_with, call_line_answer};

use answers::Answer;
use bench::Bench;
use house::House;
use lineforms::SheetName;
use replies::answer_of;
use run::Call;
use sheets::AnySheet;

// A call with the sheet that it names.
fn with_sheet(call: &Call<SheetName>, house: &House) -> Call<AnySheet>
    ensures { asked tariff_of result ≡ asked_with (lines_of house.now) call.now }
{
    call.map_sheet(|name| AnySheet::named(*name, *house))
}

// `post ..`, `open ..`, `read ..`, `settle ..`, `pay ..`, `close ..`, `show ..`
// By a match: `map_or` asks for what the function of another crate states, and it states nothing as a value.
pub fn call_answer(call: Call<SheetName>, house: &House, bench: &mut Bench) -> Answer
    ensures answer { result ≡ call_line_answer (lines_of house.now) (stand_of bench.old) call }
    ensures after { stand_of bench.new ≡ call_after (stand_of bench.old) (asked_with (lines_of house.now) call) }
    ensures lawful { KeepsLaw (stand_of bench.old) (asked_with (lines_of house.now) call) (call_reply (stand_of bench.old) (asked_with (lines_of house.now) call)) (stand_of bench.new) }
    ensures unmoved { lines_read result ≡ None }
{
    match bench.call(with_sheet(&call, house)) {
        Some(reply) => answer_of(reply),
        None => Answer::Unreadable,
    }
}

// Lines that bring a house sheet.
ghost use Rattle.std.specs.Prelude.{◌≡◌};
ghost use Rattle.house.specs.Houses.{lines_of};
ghost use Rattle.answers.specs.Prices.{wide};
ghost use Rattle.answers.specs.Tells.{had_memory};
ghost use Rattle.priceanswers.specs.Answers.{house_line_answer, house_line_after};
ghost use Rattle.priceanswers.specs.Moving.{Moved};

use answers::PriceAnswer;
use house::House;
use std::alloc::Global;
use words::unhex;

// `house HEX`
pub fn house_answer(heap: Global, text: &[u8], house: &mut House) -> PriceAnswer
    ensures answer { wide result ≡ house_line_answer (had_memory (wide result)) text.now }
    ensures after { lines_of house.new ≡ house_line_after (had_memory (wide result)) text.now (lines_of house.old) }
    ensures moved { Moved (lines_of house.old) (lines_of house.new) (wide result) }
{
    let Ok(bytes) = unhex(heap, text) else {
        return PriceAnswer::NoMemory;
    };
    match house.read(bytes.as_slice()) {
        Ok(()) => PriceAnswer::Lines(house.lines().len() as u64),
        Err(fault) => PriceAnswer::Refused(fault.into()),
    }
}

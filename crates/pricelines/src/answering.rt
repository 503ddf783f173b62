// The answer to a line.
ghost use Rattle.std.specs.Prelude.{◌≡◌};
ghost use Rattle.std.specs.Option.{option_map};
ghost use Rattle.house.specs.Houses.{lines_of};
ghost use Rattle.scriptlines.specs.Lines.{said};
ghost use Rattle.answers.specs.Prices.{wide};
ghost use Rattle.priceanswers.specs.Moving.{found_memory};
ghost use Rattle.pricelines.specs.Lines.{answer_to, lines_after, Moved, Answered};
ghost use Rattle.pricelines.specs.Pricing.{told, line_as};

use crate::alone::Pricing;
use crate::line::PricingLine;
use crate::reading::read_line;
use answers::{Answer, PriceAnswer};
use player::{Answering, Telling};
use priceanswers::{choose_answer, house_answer, price_answer, rating_answer};
use scriptlines::Line;
use std::alloc::Global;

impl Pricing {
    // What a pricing line is answered, none where it is silent.
    pub fn answer_line(&mut self, heap: Global, line: PricingLine<&[u8]>) -> Option<PriceAnswer>
        ensures answer { option_map wide result ≡ answer_to (found_memory (option_map wide result)) (lines_of self.old.house) (line_as (told line.entry)) }
        ensures after { lines_of self.new.house ≡ lines_after (found_memory (option_map wide result)) (line_as (told line.entry)) (lines_of self.old.house) }
        ensures moved { Moved (lines_of self.old.house) (lines_of self.new.house) (option_map wide result) }
    {
        Some(match line {
            PricingLine::Silent => return None,
            PricingLine::Unreadable => PriceAnswer::Unreadable,
            PricingLine::Rating { network, ampere } => rating_answer(network, ampere),
            PricingLine::House(text) => house_answer(heap, text, &mut self.house),
            PricingLine::Price { sheet, code, facts } => {
                price_answer(sheet, code, &facts, &self.house)
            }
            PricingLine::Choose { sheet, facts } => choose_answer(sheet, &facts, &self.house),
        })
    }

    // What a line of any form is answered, none where it is silent. A line about a board or a cabinet is unreadable.
    #[tactic(auto, using(crate::proofs::Narrowed::narrowed_answer, crate::proofs::Narrowed::narrowed_lines))]
    pub fn answer(&mut self, heap: Global, line: Line<&[u8]>) -> Option<Answer>
        ensures answer { result ≡ answer_to (found_memory result) (lines_of self.old.house) (said line.entry) }
        ensures after { lines_of self.new.house ≡ lines_after (found_memory result) (said line.entry) (lines_of self.old.house) }
        ensures moved { Moved (lines_of self.old.house) (lines_of self.new.house) result }
    {
        self.answer_line(heap, PricingLine::from(line))
            .map(Answer::from)
    }
}

impl Telling for Pricing {
    type Told = PriceAnswer;

    ghost tell_text_gives = { λ before text a after. Answered (lines_of before.house) text (option_map wide a) (lines_of after.house) };

    #[tactic(auto, using(crate::proofs::Narrowed::narrowed_answer, crate::proofs::Narrowed::narrowed_lines))]
    fn tell_text(&mut self, heap: Global, text: &[u8]) -> Option<PriceAnswer> {
        self.answer_line(heap, read_line(text))
    }

    fn no_memory() -> PriceAnswer {
        PriceAnswer::NoMemory
    }
}

// The same answers, each as an `Answer`.
impl Answering for Pricing {
    ghost answer_text_gives = { λ before text a after. Answered (lines_of before.house) text a (lines_of after.house) };

    fn answer_text(&mut self, heap: Global, text: &[u8]) -> Option<Answer> {
        self.tell_text(heap, text).map(Answer::from)
    }
}

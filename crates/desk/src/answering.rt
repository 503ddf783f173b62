// The answer to a line.
ghost use Rattle.std.specs.Prelude.{◌≡◌};
ghost use Rattle.scriptlines.specs.Lines.{said};
ghost use Rattle.priceanswers.specs.Moving.{found_memory};
ghost use Rattle.desk.specs.Desks.{desk_of};
ghost use Rattle.desk.specs.Lines.{line_answer, line_after, LineMoves, LineKeepsLaw, Answered};

use crate::desk::Desk;
use answers::Answer;
use benchlines::{board_answer, call_answer, clear_answer, row_answer, store_answer};
use player::{Answering, Telling};
use priceanswers::{choose_answer, house_answer, price_answer, rating_answer};
use scriptlines::{Line, read_line};
use std::alloc::Global;

impl Desk {
    // What a line is answered, none where it is silent. No line takes memory but `house` and `board`.
    pub fn answer(&mut self, heap: Global, line: Line<&[u8]>) -> Option<Answer>
        ensures answer { result ≡ line_answer (found_memory result) (desk_of self.old) (said line.entry) }
        ensures after { desk_of self.new ≡ line_after (found_memory result) (desk_of self.old) (said line.entry) }
        ensures moved { LineMoves (desk_of self.old) result (desk_of self.new) }
        ensures lawful { LineKeepsLaw (desk_of self.old) (said line.entry) result (desk_of self.new) }
    {
        match line {
            Line::Silent => None,
            Line::Unreadable => Some(Answer::Unreadable),
            Line::Rating { network, ampere } => Some(rating_answer(network, ampere).into()),
            Line::House(text) => Some(house_answer(heap, text, &mut self.house).into()),
            Line::Price { sheet, code, facts } => {
                Some(price_answer(sheet, code, &facts, &self.house).into())
            }
            Line::Choose { sheet, facts } => Some(choose_answer(sheet, &facts, &self.house).into()),
            Line::Board(form) => Some(board_answer(heap, form, &mut self.bench)),
            Line::Call(call) => Some(call_answer(call, &self.house, &mut self.bench)),
            Line::Row(number) => Some(row_answer(number, &mut self.bench)),
            Line::Store { number, text } => Some(store_answer(number, text, &mut self.bench)),
            Line::Clear(number) => Some(clear_answer(number, &mut self.bench)),
        }
    }
}

impl Telling for Desk {
    type Told = Answer;

    ghost tell_text_gives = { λ before text a after. Answered (desk_of before) text a (desk_of after) };

    fn tell_text(&mut self, heap: Global, text: &[u8]) -> Option<Answer> {
        self.answer(heap, read_line(text))
    }

    fn no_memory() -> Answer {
        Answer::NoMemory
    }
}

impl Answering for Desk {
    ghost answer_text_gives = { λ before text a after. Answered (desk_of before) text a (desk_of after) };

    fn answer_text(&mut self, heap: Global, text: &[u8]) -> Option<Answer> {
        self.tell_text(heap, text)
    }
}

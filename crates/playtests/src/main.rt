// Plays a script on a type of its own, which hands each line to a desk or to a house sheet alone, by turns.
// It has `Answering` and nothing more, which is all that `play` asks for.
#![tactic(auto)]

ghost use Rattle.std.specs.Prelude.{◌≡◌};
ghost use Rattle.house.specs.Houses.{lines_of};
ghost use Rattle.desk.specs.Desks.{desk_of};
ghost use Rattle.desk.specs.Lines.{Answered as AnsweredAtDesk};
ghost use Rattle.pricelines.specs.Lines.{Answered};
ghost use Rattle.playtests.specs.declared.Turn.TheVariants as turn;

use answers::Answer;
use desk::Desk;
use player::{Answering, play};
use pricelines::Pricing;
use std::alloc::Global;
use std::io;

// Whose line is next.
#[derive(Clone, Copy)]
enum Turn {
    Desk,
    HouseSheet,
}

// A desk and a house sheet, of which neither knows the other.
#[derive(Drop)]
struct Turns {
    desk: Desk,
    pricing: Pricing,
    next: Turn,
}

// Whose line it is answers, the other stands, and the turn passes.
impl Answering for Turns {
    ghost answer_text_gives = { λ before text a after.
        (before.next ≡ turn.Desk → (after.next ≡ turn.HouseSheet) × (after.pricing ≡ before.pricing) × AnsweredAtDesk (desk_of before.desk) text a (desk_of after.desk))
        × (before.next ≡ turn.HouseSheet → (after.next ≡ turn.Desk) × (after.desk ≡ before.desk) × Answered (lines_of before.pricing.house) text a (lines_of after.pricing.house)) };

    fn answer_text(&mut self, heap: Global, text: &[u8]) -> Option<Answer> {
        match self.next {
            Turn::Desk => {
                self.next = Turn::HouseSheet;
                self.desk.answer_text(heap, text)
            }
            Turn::HouseSheet => {
                self.next = Turn::Desk;
                self.pricing.answer_text(heap, text)
            }
        }
    }
}

fn main(rt: HostRuntime) -> io::Result<()> {
    let mut turns = Turns {
        desk: Desk::new(),
        pricing: Pricing::new(),
        next: Turn::Desk,
    };
    play(&rt, &mut turns)
}

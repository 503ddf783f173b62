// Calls on the cabinet.
ghost use Rattle.std.specs.Prelude.{◌≡◌};
ghost use Rattle.std.specs.Option.{option_map};
ghost use Rattle.sheets.specs.Named.{tariff_of};
ghost use Rattle.run.specs.Asked.{asked, told};
ghost use Rattle.bench.specs.Stands.{stand_of};
ghost use Rattle.bench.specs.Deeds.{call_reply, call_after, KeepsLaw};

use crate::standing::{Bench, Standing};
use run::{Answer, Call};
use sheets::AnySheet;

impl Bench {
    // Makes a call on the cabinet, none where nothing stands. The first call makes the cabinet over the board as it stands. No memory is taken.
    pub fn call(&mut self, call: Call<AnySheet>) -> Option<Answer>
        ensures answer { option_map told result ≡ call_reply (stand_of self.old) (asked tariff_of call) }
        ensures after { stand_of self.new ≡ call_after (stand_of self.old) (asked tariff_of call) }
        ensures lawful { KeepsLaw (stand_of self.old) (asked tariff_of call) (option_map told result) (stand_of self.new) }
    {
        self.take();
        match &mut self.standing {
            Standing::Cabinet(cabinet, place) => place.ask(cabinet, call),
            Standing::Nothing | Standing::Board(_, _, _) => None,
        }
    }
}

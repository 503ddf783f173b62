// The first words of lines.
ghost use Rattle.std.specs.Prelude.{◌≡◌};
ghost use Rattle.lineforms.specs.Verbs.{call_name, verb_name, verb_of, Says};

use script::{Named, first_named};

// Which call on a cabinet a line makes.
#[derive(Clone, Copy, PartialEq, Eq, Debug)]
pub enum CallVerb {
    Post,
    Open,
    Read,
    Settle,
    Pay,
    Close,
    Show,
}

// What the first word of a line asks for.
#[derive(Clone, Copy, PartialEq, Eq, Debug)]
pub enum Verb {
    Rating,
    House,
    Price,
    Choose,
    Board,
    Row,
    Store,
    Clear,
    Call(CallVerb),
}

const VERBS: [Verb; 15] = [
    Verb::Rating,
    Verb::House,
    Verb::Price,
    Verb::Choose,
    Verb::Board,
    Verb::Row,
    Verb::Store,
    Verb::Clear,
    Verb::Call(CallVerb::Post),
    Verb::Call(CallVerb::Open),
    Verb::Call(CallVerb::Read),
    Verb::Call(CallVerb::Settle),
    Verb::Call(CallVerb::Pay),
    Verb::Call(CallVerb::Close),
    Verb::Call(CallVerb::Show),
];

impl CallVerb {
    // The word that says it.
    // A name and no printing, since a line's word is compared with it.
    fn name(self) -> &'static str
        ensures { result.now ≡ call_name self }
    {
        match self {
            CallVerb::Post => "post",
            CallVerb::Open => "open",
            CallVerb::Read => "read",
            CallVerb::Settle => "settle",
            CallVerb::Pay => "pay",
            CallVerb::Close => "close",
            CallVerb::Show => "show",
        }
    }
}

impl Named for Verb {
    ghost name_of = { verb_name };

    fn name(self) -> &'static str {
        match self {
            Verb::Rating => "rating",
            Verb::House => "house",
            Verb::Price => "price",
            Verb::Choose => "choose",
            Verb::Board => "board",
            Verb::Row => "row",
            Verb::Store => "store",
            Verb::Clear => "clear",
            Verb::Call(verb) => verb.name(),
        }
    }
}

// The verb that a word says.
pub fn verb_of(word: &[u8]) -> Option<Verb>
    ensures value { result ≡ verb_of word.now }
    ensures says { Says word.now result }
{
    first_named(&VERBS, word)
}

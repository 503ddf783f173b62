// That reading an answer inverts its writing.
#![tactic(auto)]

ghost use Rattle.answerlaw.specs.Laws.{Answers-come-back, Texts-tell-apart};

// An answer that is written and read again is the same answer; two answers never have one text.
pub fn answers_read_back()
    ensures back { Answers-come-back }
    ensures apart { Texts-tell-apart }
{}

// What a call was answered, as the answer to a line.
ghost use Rattle.std.specs.Prelude.{◌≡◌, None};
ghost use Rattle.answers.specs.Tells.{lines_read};
ghost use Rattle.run.specs.Asked.{told};
ghost use Rattle.replies.specs.Replies.{reply_answer};

use crate::numbers::bill_figures;
use account::AccountForm;
use answers::Answer;
use run::Answer as Reply;

// The answer to the line that asked for a call.
// A function, since neither type is this crate's own, as `From` would ask.
pub fn answer_of(reply: Reply) -> Answer
    ensures value { result ≡ reply_answer (told reply) }
    ensures unmoved { lines_read result ≡ None }
{
    match reply {
        Reply::Posted(month, ne) => Answer::Posted(month, ne),
        Reply::Done => Answer::Done,
        Reply::Billed(bill) => Answer::Bill(bill_figures(bill)),
        Reply::Shown(account) => Answer::Account(AccountForm::from(&account)),
        Reply::Vacant => Answer::Vacant,
        Reply::Refused(refusal) => Answer::Refused(refusal),
    }
}

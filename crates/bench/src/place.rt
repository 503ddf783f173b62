// The place for one answer.
ghost use Rattle.std.specs.Prelude.{◌≡◌, ◌≤◌, vec_len, vec_capacity};

use run::Answer;

// An empty place with room for an answer, whose memory is taken when it is made: a Vec, since a run writes its answers into one and takes no memory.
#[derive(Drop)]
pub(crate) struct Place {
    pub(crate) answers: Vec<Answer>,
    ghost free: { vec_len answers ≡ 0 },
    ghost room: { 1 ≤ vec_capacity answers },
}

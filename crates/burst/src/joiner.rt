// The joiner: it takes the answers of a burst's pieces, numbered from 1, in order, and says done at the last.
ghost use Rattle.std.specs.Prelude.{◌≡◌};
ghost use Rattle.burst.specs.Joiner.{joiner_for, joiner_keeps, in_turn, join_of};
ghost use Rattle.burst.specs.Answers.{join_outcome};

use model::Refusal;

// How many pieces a burst has, and how many of them are answered.
#[derive(Clone, Copy)]
pub struct Joiner {
    pub pieces: u32,
    pub answered: u32,
}

// How far a burst is once the answer of a piece is taken: others are to come, or it was the last.
#[derive(Clone, Copy, PartialEq, Eq)]
pub enum Progress {
    Taken,
    Done,
}

// What the joiner answers to the answer of a piece, or why it is refused, with the next joiner.
#[derive(Clone, Copy)]
pub struct JoinReply {
    pub answer: Result<Progress, Refusal>,
    pub joiner: Joiner,
}

// The joiner of a burst of so many pieces, none of them answered.
pub fn joiner_for(pieces: u32) -> Joiner
    ensures { result ≡ joiner_for pieces }
{
    Joiner {
        pieces: pieces,
        answered: 0,
    }
}

// Whether a joiner keeps its rules.
fn joiner_keeps(j: Joiner) -> bool
    ensures { result ≡ joiner_keeps j }
{
    (1 <= j.pieces) & (j.pieces <= 256) & (j.answered <= j.pieces)
}

// Whether the answer of this number is the next one.
fn in_turn(j: Joiner, number: u32) -> bool
    ensures { result ≡ in_turn j number }
{
    (number as u64 == j.answered as u64 + 1) & (number <= j.pieces)
}

// Takes the answer of the piece of this number, from 1 on. One out of turn or after the last, and a joiner that breaks its rules, are
// refused by 11 and leave the joiner as it was.
pub fn join(j: Joiner, number: u32) -> JoinReply
    ensures { join_outcome result ≡ join_of j number }
{
    if !(joiner_keeps(j) & in_turn(j, number)) {
        return JoinReply {
            answer: Err(Refusal::Rules),
            joiner: j,
        };
    }
    let next = Joiner {
        pieces: j.pieces,
        answered: number,
    };
    if number == j.pieces {
        return JoinReply {
            answer: Ok(Progress::Done),
            joiner: next,
        };
    }
    JoinReply {
        answer: Ok(Progress::Taken),
        joiner: next,
    }
}

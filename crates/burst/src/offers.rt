// A burst offered to the machine piece by piece: each piece is one transaction.
ghost use Rattle.std.specs.Prelude.{◌≡◌};
ghost use Rattle.burst.specs.Offers.{offer_pieces, burst_offer};
ghost use Rattle.burst.specs.Answers.{burst_outcome};

use crate::{Burst, burst_length, split_answer};
use machine::offer;
use model::access::beat_limit;
use model::{Refusal, State, Tree};
use rules::both_keep;

// What comes of an offered burst: admitted, or what refused it or one of its pieces; how many pieces were admitted; and the next state.
#[derive(Clone, Copy)]
pub struct BurstReply {
    pub answer: Result<(), Refusal>,
    pub admitted: u32,
    pub state: State,
}

// Offers k pieces of accelerator a one after another, until one is refused.
fn offer_pieces(t: Tree, s: State, a: u8, k: u32) -> BurstReply
    ensures { burst_outcome result ≡ offer_pieces k t s a }
{
    let mut state = s;
    for admitted in 0..k {
        let reply = offer(t, state, a);
        state = reply.state;
        let answer = reply.answer;
        if let Err(r) = answer {
            return BurstReply {
                answer: Err(r),
                admitted: admitted,
                state: state,
            };
        }
    }
    BurstReply {
        answer: Ok(()),
        admitted: k,
        state: state,
    }
}

// Offers the pieces of a burst of accelerator a, from piece `from` on, counted from 0, until one is refused. A burst that the splitter
// refuses moves nothing; one that was admitted in part is gone on with by the count of its pieces admitted so far.
pub fn offer_burst(t: Tree, s: State, a: u8, b: Burst, from: u32) -> BurstReply
    ensures { burst_outcome result ≡ burst_offer t s a b from }
{
    let n = burst_length(t);
    let limit = beat_limit(t.bus);
    let answer = split_answer(limit, both_keep(t, s), n, b);
    match answer {
        Ok(k) => offer_pieces(t, s, a, k.saturating_sub(from)),
        Err(r) => BurstReply {
            answer: Err(r),
            admitted: 0,
            state: s,
        },
    }
}

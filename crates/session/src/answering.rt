// Asking for the answer of a session that is over.
ghost use Rattle.std.specs.Prelude.{◌≡◌};
ghost use Rattle.record.specs.Record.{sound};
ghost use Rattle.session.specs.Answer.{answer_reply};

use crate::reply::Answer;
use record::{Party, ended, sound};
use refusal::Refusal;
use search::price;

pub fn answer(q: Party) -> Result<Answer, Refusal>
    ensures { result ≡ answer_reply q }
{
    answer_judged(q, sound(q))
}

// The same, of a record that who calls has judged where it stands. The two stay apart: a struct of
// them would be made for this one call, and taken apart in it.
pub fn answer_judged(q: Party, whole: bool) -> Result<Answer, Refusal>
    requires { whole ≡ sound q }
    ensures { result ≡ answer_reply q }
{
    if !whole {
        return Err(Refusal::OutOfRange);
    }
    if !ended(q) {
        return Err(Refusal::OutOfTurn);
    }
    let s = q.search;
    Ok(Answer {
        price: price(s),
        probes: s.probes,
    })
}

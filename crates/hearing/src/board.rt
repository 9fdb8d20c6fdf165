// The board steps a party's record by each heard round, where the record stands.
ghost use Rattle.std.specs.Prelude.{◌≡◌};
ghost use Rattle.hearing.specs.Hear.{hear_reply};

use crate::hear;
use record::Party;
use refusal::Judgement;

// All the work is done by value: the record is copied out, and stored once, as `hear` leaves it.
pub fn step(
    q: &mut Party,
    totals: &[u64],
    sheets: &[u64],
    messages: &[u64],
    present: &[u8],
) -> Judgement
    ensures { (result ≡ (hear_reply q.old totals.now sheets.now messages.now present.now).judgement)
        × (q.new ≡ (hear_reply q.old totals.now sheets.now messages.now present.now).party) }
{
    let reply = hear(*q, totals, sheets, messages, present);
    *q = reply.party;
    reply.judgement
}

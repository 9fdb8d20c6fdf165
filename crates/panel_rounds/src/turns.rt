// One party in a round, with its part of the flat slices.
ghost use Rattle.std.specs.Prelude.{◌≡◌, ◌+◌, ◌*◌, ◌≤◌, ◌<◌, length};
ghost use Rattle.saying.specs.Say.{say_left};
ghost use Rattle.hearing.specs.Hear.{hear_reply};
ghost use Rattle.panel.specs.Parties.{part};

use hearing::hear;
use panel::returned;
use record::Party;
use saying::say;

// What the party after `i` others says, where it is not refused. None is.
pub(crate) fn say_one(
    q: Party,
    k: u64,
    lent: usize,
    i: usize,
    totals: &[u64],
    sheets: &[u64],
    said: &mut [u64],
)
    requires { (k ≤ 256) × (i < 9) × (i * (2 * k) + 2 * k ≤ length totals.now) × (i * lent + lent ≤ length sheets.now) }
    ensures { said.new ≡ say_left q (part (2 * k) i totals.now) (part lent i sheets.now) said.old }
{
    let width = 2 * k as usize;
    let at = i * width;
    let from = i * lent;
    let next = at + width;
    let to = from + lent;
    let _ = say(q, &totals[at..next], &sheets[from..to], said);
}

// Its record once it has heard the words of those who were present.
pub(crate) fn hear_one(
    q: Party,
    k: u64,
    lent: usize,
    i: usize,
    totals: &[u64],
    sheets: &[u64],
    messages: &[u64],
    present: &[u8],
) -> Party
    requires { (k ≤ 256) × (i < 9) × (i * (2 * k) + 2 * k ≤ length totals.now) × (i * lent + lent ≤ length sheets.now) }
    ensures { result ≡ (hear_reply q (part (2 * k) i totals.now) (part lent i sheets.now) messages.now present.now).party }
{
    let width = 2 * k as usize;
    let at = i * width;
    let from = i * lent;
    let next = at + width;
    let to = from + lent;
    returned(hear(q, &totals[at..next], &sheets[from..to], messages, present))
}

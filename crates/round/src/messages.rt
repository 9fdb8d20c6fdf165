// What the messages of a round open to, and when that is refused.
ghost use Rattle.std.specs.Prelude.{◌≡◌, cond, map, ◌/◌, ◌%◌, eqb};
ghost use Rattle.weights.specs.Rows.{byte_scheme};
ghost use Rattle.presence.specs.Presence.{all_or};
ghost use Rattle.present_openings.specs.Present.{opened_by};
ghost use Rattle.round.specs.Round.{sum_of, factors_of, verdict_of, total_of, heard, unopened, sum_outside, verdict_outside};

use crate::Heard;
use openings::Opening;
use present_openings::{open_present_amount, open_present_byte, open_present_pair};

// The least and the greatest T: 2^59 + 2^32, less a mask below 2^58, with a difference of totals
// below 2^32 either way.
const LEAST: u64 = (1 << 58) + 2;

const GREATEST: u64 = (1 << 59) + (1 << 33) - 1;

// Of those who were present, or of all n where it is known that all were. n, `all` and `present` are no struct: they meet only here, from
// the record, the hearing and its caller, and go on one by one, so it would be made only to be taken apart.
pub fn open_round(n: u64, round: u64, all: bool, present: &[u8], messages: &[u64]) -> Heard
    ensures { result ≡ heard n round (all_or «all» n present.now) messages.now }
{
    if (round == 1) | (33 < round) {
        return amount_of(round, open_present_amount(n, all, present, messages));
    }
    if round == 33 {
        return verdict_of(open_present_byte(n, all, present, messages));
    }
    factors(n, all, present, messages)
}

// T in round 1, a total after the last probe, where the words open. Both are opened in one place, so that the
// opening is inlined there.
fn amount_of(round: u64, opening: Opening) -> Heard
    ensures { result ≡ cond (eqb round 1) (sum_of opening) (total_of opening) }
{
    match opening {
        Some(v) if round == 1 => Heard::Sum(v),
        Some(v) => Heard::Total(v),
        None => Heard::Unopened,
    }
}

// The low bytes are the words of one polynomial and the high parts those of another.
fn factors(n: u64, all: bool, present: &[u8], messages: &[u64]) -> Heard
    ensures { result ≡ factors_of (opened_by byte_scheme n (all_or «all» n present.now) (map (λ w. w % 256) messages.now))
        (opened_by byte_scheme n (all_or «all» n present.now) (map (λ w. w / 256) messages.now)) }
{
    let pair = open_present_pair(n, all, present, messages);
    factors_of(pair.low, pair.high)
}

// D and E, where both parts open.
fn factors_of(low: Opening, high: Opening) -> Heard
    ensures { result ≡ factors_of low high }
{
    match (low, high) {
        (Some(d), Some(e)) => Heard::Factors(d, e),
        _ => Heard::Unopened,
    }
}

// The verdict, where the words open.
fn verdict_of(opening: Opening) -> Heard
    ensures { result ≡ verdict_of opening }
{
    match opening {
        Some(v) => Heard::Verdict(v),
        None => Heard::Unopened,
    }
}

pub fn unopened(heard: Heard) -> bool
    ensures { result ≡ unopened heard }
{
    matches!(heard, Heard::Unopened)
}

pub fn sum_outside(heard: Heard) -> bool
    ensures { result ≡ sum_outside heard }
{
    match heard {
        Heard::Sum(v) => !((LEAST <= v) & (v <= GREATEST)),
        _ => false,
    }
}

pub fn verdict_outside(heard: Heard) -> bool
    ensures { result ≡ verdict_outside heard }
{
    match heard {
        Heard::Verdict(v) => 1 < v,
        _ => false,
    }
}

// Listening to a round: its messages, party by party, and n marks of who was present. What is judged of them before they
// are opened, and of what they open to. The words of those who were not present change nothing.
#![tactic(auto)]

ghost use Rattle.std.specs.Prelude.{◌≡◌, true, false, ◌&&◌, ◌-◌, ◌*◌, ◌≤◌, ltb, leb, length, take, drop};
ghost use Rattle.ranges.specs.Lists.{every, same};
ghost use Rattle.ranges.specs.Sizes.{long};
ghost use Rattle.ways.specs.Way.{tree, width};
ghost use Rattle.presence.specs.Presence.{how_many, all_or};
ghost use Rattle.record.specs.Record.{sound, ended};
ghost use Rattle.level.specs.Level.{level_words};
ghost use Rattle.round.specs.Round.{heard};
ghost use Rattle.message.specs.Message.{sheet_words, message};
ghost use Rattle.stepping.specs.After.{role};
ghost use Rattle.listening.specs.Listen.{width_of, own_words, listening_judgement, total_outside, opening_judgement};

use level::Level;
use message::{are_shares, in_level, single, totals_at};
use record::{Party, are_totals};
use refusal::{Judgement, Refusal};
use round::{Heard, open_round, sum_outside, unopened, verdict_outside};
use sharing::threshold;
use ways::width;

// Whether there are as many messages and marks as n parties give, which are at most 9.
pub fn are_messages(q: Party, messages: &[u64], present: &[u8]) -> bool
    ensures { result ≡ (leb q.n 9 && (long (q.n * width_of q) messages.now && long q.n present.now)) }
{
    if 9 < q.n {
        return false;
    }
    let n = q.n as usize;
    (messages.len() == n * width(q.last, q.round)) & (present.len() == n)
}

// What is judged before the messages are opened, where it is the party's turn, the sheet is given and it is known how many were
// present. A party that was present compares its own words with what it says.
pub fn listens(
    q: Party,
    totals: &[u64],
    sheet: &[u64],
    count: u64,
    messages: &[u64],
    present: &[u8],
) -> Judgement
    requires { (sound q ≡ true) × (ended q ≡ false) × (length totals.now ≡ 2 * q.k) × (length sheet.now ≡ sheet_words q)
        × (count ≡ how_many present.now) × (length messages.now ≡ q.n * width_of q) × (length present.now ≡ q.n) }
    ensures { result ≡ listening_judgement q totals.now sheet.now messages.now present.now }
{
    if count <= threshold(q.n) {
        return Err(Refusal::TooFewPresent);
    }
    let own = q.own as usize - 1;
    let here = present[own] == 1;
    if !are_shares(q.round, q.last, here, totals_at(q, totals), sheet) {
        return Err(Refusal::ShareOutOfRange);
    }
    if here && !says(q, totals, sheet, messages) {
        return Err(Refusal::OwnMessageDiffers);
    }
    Ok(())
}

// Whether the own words among those heard are what the party says.
fn says(q: Party, totals: &[u64], sheet: &[u64], messages: &[u64]) -> bool
    requires { (sound q ≡ true) × (ended q ≡ false) × (length totals.now ≡ 2 * q.k) × (length sheet.now ≡ sheet_words q)
        × (every (λ w. ltb w 256) (drop 1 sheet.now) ≡ true) × (length messages.now ≡ q.n * width_of q) }
    ensures { result ≡ same (own_words q messages.now) (message q totals.now sheet.now) }
{
    if in_level(q) {
        let pairs = q.pairs;
        let kept = pairs.words;
        let level = Level {
            round: q.round,
            sum: q.sum,
            kept: &kept,
            sheet,
        };
        return says_level(q.own, &level, messages);
    }
    let own = q.own as usize - 1;
    messages[own] == single(q, totals, sheet)
}

// The same of a level's words.
fn says_level(own: u64, level: &Level<'_>, messages: &[u64]) -> bool
    requires { (1 ≤ own) × (own ≤ 9) × (own * width tree level.now.round ≤ length messages.now) }
    ensures { result ≡ same (take (width tree level.now.round) (drop ((own - 1) * width tree level.now.round) messages.now))
        (level_words level.now.round level.now.sum level.now.kept.now level.now.sheet.now) }
{
    let w = level.width();
    let from = (own as usize - 1) * w;
    let to = from + w;
    let mut said = [0; 32];
    level.write_words(&mut said[..w]);
    same_words(&messages[from..to], &said[..w])
}

// Whether two slices hold the same words. `ranges::same` does this for bytes: one function of both would ask of its type
// parameter what `^`, `|` and 0 are and their laws, which is no plainer.
fn same_words(left: &[u64], right: &[u64]) -> bool
    ensures { result ≡ same left.now right.now }
{
    if left.len() != right.len() {
        return false;
    }
    let mut differ: u64 = 0;
    for (x, y) in left.iter().zip(right) {
        differ |= *x ^ *y;
    }
    differ == 0
}

// What the messages of a round in which each party says one word open to.
pub fn open_single(q: Party, all: bool, present: &[u8], messages: &[u64]) -> Heard
    ensures { result ≡ heard q.n (role q) (all_or «all» q.n present.now) messages.now }
{
    open_round(q.n, role(q), all, present, messages)
}

// What a round is judged as: the last of a probe as round 33.
fn role(q: Party) -> u64
    ensures { result ≡ role q }
{
    if q.round == q.last { 33 } else { q.round }
}

// What is refused of what the messages open to. It stands apart from `hear`, which has so many tests before
// it that the compiler would take what follows for rare.
pub fn judge(round: u64, demand: u64, supply: u64, opened: Heard) -> Judgement
    ensures { result ≡ opening_judgement round demand supply opened }
{
    if unopened(opened) {
        return Err(Refusal::Inconsistent);
    }
    if sum_outside(opened) | total_outside(round, demand, supply, opened) {
        return Err(Refusal::SumOutOfRange);
    }
    if verdict_outside(opened) {
        return Err(Refusal::VerdictNotBit);
    }
    Ok(())
}

// Whether a total is opened that cannot stand beside the other one: round 34 opens demand, round 35 supply.
fn total_outside(round: u64, demand: u64, supply: u64, opened: Heard) -> bool
    ensures { result ≡ total_outside round demand supply opened }
{
    match opened {
        Heard::Sum(_) => false,
        Heard::Factors(_, _) => false,
        Heard::Verdict(_) => false,
        Heard::Total(v) => {
            if round == 34 {
                return !are_totals(v, supply);
            }
            !are_totals(demand, v)
        }
        Heard::Unopened => false,
    }
}

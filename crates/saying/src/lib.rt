// Saying: the words of a party's round. It changes nothing but the slice that is lent for them.
#![tactic(auto)]

ghost use Rattle.std.specs.Prelude.{◌≡◌, true, false, ◌&&◌, ◌*◌, length};
ghost use Rattle.refusal.specs.Judging.{kept};
ghost use Rattle.ranges.specs.Sizes.{long};
ghost use Rattle.ways.specs.Way.{way_of, width};
ghost use Rattle.record.specs.Record.{sound, ended};
ghost use Rattle.message.specs.Message.{sheet_words, message};
ghost use Rattle.saying.specs.Say.{sheets_long, say_judgement, say_left, turn_judgement, words_judgement};

mod sheet;

use level::Level;
use message::{are_shares, in_level, single, totals_at};
use record::{Party, ended, sound};
use refusal::{Judgement, Refusal};
use search::most_probes;
pub use sheet::current;
use ways::{sheets_words, width};

// Writes the words of the round, or replies the first refusal that applies.
pub fn say(q: Party, totals: &[u64], sheets: &[u64], said: &mut [u64]) -> Judgement
    ensures { (result ≡ say_judgement q totals.now sheets.now said.old)
        × (said.new ≡ say_left q totals.now sheets.now said.old) }
{
    say_judged(q, sound(q), totals, sheets, said)
}

// The same where the record has been judged, as words where they stand: so it is not copied for that. The two stay apart: a struct of
// them would be made for this one call, and taken apart in it.
pub fn say_judged(
    q: Party,
    whole: bool,
    totals: &[u64],
    sheets: &[u64],
    said: &mut [u64],
) -> Judgement
    requires { «whole» ≡ sound q }
    ensures { (result ≡ say_judgement q totals.now sheets.now said.old)
        × (said.new ≡ say_left q totals.now sheets.now said.old) }
{
    let long = said.len() == width(q.last, q.round);
    turn(q, whole, totals, sheets, long)?;
    say_with(q, totals, current(q, sheets), said)
}

// The same where it is the party's turn and the sheet is given.
pub fn say_with(q: Party, totals: &[u64], sheet: &[u64], said: &mut [u64]) -> Judgement
    requires { (sound q ≡ true) × (ended q ≡ false) × (length totals.now ≡ 2 * q.k)
        × (length sheet.now ≡ sheet_words q) × (length said.old ≡ width (way_of q.last) q.round) }
    ensures { (result ≡ words_judgement q totals.now sheet.now)
        × (said.new ≡ kept (words_judgement q totals.now sheet.now) (message q totals.now sheet.now) said.old) }
{
    if !are_shares(q.round, q.last, true, totals_at(q, totals), sheet) {
        return Err(Refusal::ShareOutOfRange);
    }
    if in_level(q) {
        let pairs = q.pairs;
        let kept = pairs.words;
        let level = Level {
            round: q.round,
            sum: q.sum,
            kept: &kept,
            sheet,
        };
        level.write_words(said);
        return Ok(());
    }
    said[0] = single(q, totals, sheet);
    Ok(())
}

// Whether it is the party's turn. A hearing starts with the same tests. It is lent more slices, whose
// lengths count among the lengths, and marks, which count with the record. Who calls has judged the record
// and the marks, and says whether they are whole: so the record is copied no further.
pub fn turn(q: Party, whole: bool, totals: &[u64], sheets: &[u64], else_long: bool) -> Judgement
    ensures { result ≡ turn_judgement q «whole» totals.now sheets.now else_long }
{
    if !whole {
        return Err(Refusal::OutOfRange);
    }
    if !(are_long(q.k, q.last, totals, sheets) & else_long) {
        return Err(Refusal::WrongLength);
    }
    if ended(q) {
        return Err(Refusal::OutOfTurn);
    }
    Ok(())
}

// Whether the slices are as long as k prices ask for. Twice k may be too large for a u64.
fn are_long(k: u64, last: u64, totals: &[u64], sheets: &[u64]) -> bool
    ensures { result ≡ (long (2 * k) totals.now && long (sheets_long k last) sheets.now) }
{
    let most = most_probes(k) as usize;
    (totals.len() % 2 == 0)
        & (totals.len() / 2 == k as usize)
        & (sheets.len() == sheets_words(last, most))
}

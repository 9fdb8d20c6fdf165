// The calls of a round on a record that is lent as its words, with their replies as numbers. Where no record is lent, what needs
// none is judged all the same.
#![tactic(auto)]

ghost use Rattle.std.specs.Prelude.{◌≡◌};
ghost use Rattle.round_calls.specs.Calls.{say_code, say_messages, hear_code, hear_record};

use presence::count_marks;
use record_words::{is_record, is_sound, read, without_record};
use refusal::{Refusal, code};

// The words of the round. The record is only read.
pub fn say(words: &[u64], totals: &[u64], sheets: &[u64], messages: &mut [u64]) -> u64
    ensures { (result ≡ say_code words.now totals.now sheets.now messages.old)
        × (messages.new ≡ say_messages words.now totals.now sheets.now messages.old) }
{
    if !is_record(words) {
        return u64::from(Refusal::WrongLength);
    }
    let whole = is_sound(words);
    code(saying::say_judged(read(words), whole, totals, sheets, messages))
}

// The record after the round is written over the record before it.
pub fn hear(
    words: &mut [u64],
    totals: &[u64],
    sheets: &[u64],
    messages: &[u64],
    present: &[u8],
) -> u64
    ensures { (result ≡ hear_code words.old totals.now sheets.now messages.now present.now)
        × (words.new ≡ hear_record words.old totals.now sheets.now messages.now present.now) }
{
    if !is_record(&words[..]) {
        return without_record(count_marks(present).is_some());
    }
    code(hearing::hear_words(words, totals, sheets, messages, present))
}

// Hearing a round: it is judged, and the record is stepped by it, where its words stand or by value.
#![tactic(auto)]

ghost use Rattle.std.specs.Prelude.{◌≡◌, length};
ghost use Rattle.refusal.specs.Judging.{kept};
ghost use Rattle.record_words.specs.Words.{record_size, words_of, party_of, stored};
ghost use Rattle.listening.specs.Listen.{messages_judgement};
ghost use Rattle.heard_round.specs.Next.{heard_next};
ghost use Rattle.hearing.specs.Hear.{hear_judgement, hear_reply, HasTurn};

mod board;

pub use board::step;
use heard_round::{by_level, by_one};
use listening::{are_messages, listens};
use message::in_level;
use presence::count_marks;
use record::{Party, Reply};
use record_words::{is_sound, read, write};
use refusal::Judgement;
use saying::{current, turn};

// The record is given and given back by value.
pub fn hear(q: Party, totals: &[u64], sheets: &[u64], messages: &[u64], present: &[u8]) -> Reply
    ensures { result ≡ hear_reply q totals.now sheets.now messages.now present.now }
{
    let mut words = [0; 64];
    write(q, &mut words);
    let judgement = hear_words(&mut words, totals, sheets, messages, present);
    Reply {
        judgement,
        party: read(&words),
    }
}

// The record is judged, read and stepped where its words stand: of them only those are written that a round changes.
pub fn hear_words(
    words: &mut [u64],
    totals: &[u64],
    sheets: &[u64],
    messages: &[u64],
    present: &[u8],
) -> Judgement
    requires { length words.old ≡ record_size }
    ensures { (result ≡ hear_judgement (party_of words.old) totals.now sheets.now messages.now present.now)
        × (words.new ≡ stored (hear_reply (party_of words.old) totals.now sheets.now messages.now present.now) words.old) }
{
    let whole = is_sound(&words[..]);
    let q = read(&words[..]);
    let count = count_marks(present);
    let long = are_messages(q, messages, present);
    turn(q, whole & count.is_some(), totals, sheets, long)?;
    hear_with(
        words,
        totals,
        current(q, sheets),
        count.unwrap(),
        messages,
        present,
    )
}

// The same where it is the party's turn and the sheet is given, with how many were present.
pub fn hear_with(
    words: &mut [u64],
    totals: &[u64],
    sheet: &[u64],
    count: u64,
    messages: &[u64],
    present: &[u8],
) -> Judgement
    requires { (length words.old ≡ record_size) × HasTurn (party_of words.old) totals.now sheet.now count messages.now present.now }
    ensures { (result ≡ messages_judgement (party_of words.old) totals.now sheet.now messages.now present.now)
        × (words.new ≡ kept (messages_judgement (party_of words.old) totals.now sheet.now messages.now present.now)
        (words_of (heard_next (party_of words.old) sheet.now messages.now present.now)) words.old) }
{
    let q = read(&words[..]);
    listens(q, totals, sheet, count, messages, present)?;
    let all = count == q.n;
    if in_level(q) {
        return by_level(words, sheet, all, present, messages);
    }
    by_one(words, sheet, all, present, messages)
}

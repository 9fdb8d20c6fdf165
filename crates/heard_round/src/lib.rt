// A round, heard by a party that has listened to it: what its messages open to is judged, and the record is stepped where its words
// stand.
#![tactic(auto)]

ghost use Rattle.std.specs.Prelude.{◌≡◌, true, false, ◌*◌, length};
ghost use Rattle.refusal.specs.Judging.{kept};
ghost use Rattle.presence.specs.Presence.{all_or};
ghost use Rattle.record_words.specs.Words.{record_size, words_of, party_of};
ghost use Rattle.message.specs.Message.{in_level};
ghost use Rattle.listening.specs.Listen.{width_of, opened_judgement};
ghost use Rattle.heard_round.specs.Next.{heard_next, HasSheet};

use level::Level;
use level_round::hear_level;
use listening::{judge, open_single};
use record_words::{read, store_heard, store_level};
use refusal::{Judgement, Refusal};
use stepping::after;

// A level of seven rounds, heard: its pairs are kept. Who calls lends the words, and not the record, so that it is not copied; so below.
pub fn by_level(
    words: &mut [u64],
    sheet: &[u64],
    all: bool,
    present: &[u8],
    messages: &[u64],
) -> Judgement
    requires { (length words.old ≡ record_size) × HasSheet (party_of words.old) sheet.now × (in_level (party_of words.old) ≡ true)
        × (length messages.now ≡ (party_of words.old).n * width_of (party_of words.old)) }
    ensures { (result ≡ opened_judgement (party_of words.old) (all_or «all» (party_of words.old).n present.now) messages.now)
        × (words.new ≡ kept (opened_judgement (party_of words.old) (all_or «all» (party_of words.old).n present.now) messages.now)
        (words_of (heard_next (party_of words.old) sheet.now messages.now (all_or «all» (party_of words.old).n present.now))) words.old) }
{
    let q = read(&words[..]);
    let pairs = q.pairs;
    let kept = pairs.words;
    let level = Level {
        round: q.round,
        sum: q.sum,
        kept: &kept,
        sheet,
    };
    let next = hear_level(q.n, &level, all, present, messages).ok_or(Refusal::Inconsistent)?;
    store_level(q.round + 1, next, words);
    Ok(())
}

// A round in which each party says one word, heard.
pub fn by_one(
    words: &mut [u64],
    sheet: &[u64],
    all: bool,
    present: &[u8],
    messages: &[u64],
) -> Judgement
    requires { (length words.old ≡ record_size) × HasSheet (party_of words.old) sheet.now × (in_level (party_of words.old) ≡ false) }
    ensures { (result ≡ opened_judgement (party_of words.old) (all_or «all» (party_of words.old).n present.now) messages.now)
        × (words.new ≡ kept (opened_judgement (party_of words.old) (all_or «all» (party_of words.old).n present.now) messages.now)
        (words_of (heard_next (party_of words.old) sheet.now messages.now (all_or «all» (party_of words.old).n present.now))) words.old) }
{
    let q = read(&words[..]);
    let opened = open_single(q, all, present, messages);
    judge(q.round, q.demand, q.supply, opened)?;
    // After the last round of a probe, which gives the verdict, no pair is kept.
    store_heard(after(q, sheet, opened), q.round == q.last, words);
    Ok(())
}

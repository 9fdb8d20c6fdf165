// Hearing in seven rounds: the party of `of_hearing`, with the same totals, masks and coefficients. Round 1 has the
// words of the other way, round 2 the 96 words that the three parties' calls say, and round 7 the words of round
// 33. A call prints its refusal's number, or 0.
ghost use Rattle.std.specs.Prelude.{◌≡◌, ◌≤◌, ◌<◌, length};

use crate::of_hearing::{TOTALS, WORDS_1, WORDS_33, deal};
use crate::{line, of_hearing};
use kept_pairs::Pairs;
use record::Party;
use worked_party::{code, whole};

const MAX: u64 = u64::MAX;

const EVERYONE: [u8; 3] = [1, 1, 1];

pub(crate) fn print() {
    accepted();
    lengths();
    shares();
    own_words();
    crooked();
    verdicts();
}

fn first() -> Party {
    let mut q = of_hearing::first();
    q.last = 7;
    q
}

fn second() -> Party {
    let mut q = of_hearing::second();
    q.last = 7;
    q.carry = 0;
    q
}

// The last pair's bottom is the carry of round 33.
fn last() -> Party {
    let before = of_hearing::last();
    let mut words = [0u64; 32];
    words[1] = before.carry;
    let pairs = Pairs { words };
    let mut q = before;
    q.last = 7;
    q.round = 7;
    q.carry = 0;
    q.pairs = pairs;
    q
}

// The records are printed with the last round of a probe and the pair shares that are kept: none before
// round 2 is heard, and none after the verdict.
fn accepted() {
    line::title(b"heard, round 1 of seven:");
    heard(first(), &WORDS_1, EVERYONE);
    line::title(b"heard, round 2 of seven:");
    heard(second(), &said(), EVERYONE);
    line::title(b"heard by 1 and 3, round 2 of seven:");
    heard(second(), &with(32, MAX), [1, 0, 1]);
    line::title(b"heard, round 7 of seven:");
    heard(last(), &WORDS_33, EVERYONE);
}

fn heard(q: Party, messages: &[u64], present: [u8; 3]) {
    let sheets = dealt(2);
    whole(hearing::hear(q, &TOTALS, &sheets, messages, &present));
    line::end();
}

// A word short, a word long, and a word of each party; and as many in round 3, which has half as many.
fn lengths() {
    line::title(b"hear lengths of seven rounds:");
    of_words(second(), &[0; 95]);
    of_words(second(), &[0; 97]);
    of_words(second(), &WORDS_1);
    let mut q = second();
    q.round = 3;
    of_words(q, &said());
    line::end();
}

// A byte's share of 256 where the current sheet ends, and where the other one does.
fn shares() {
    line::title(b"hear shares of seven rounds:");
    of_sheet(219);
    of_sheet(439);
    line::end();
}

fn of_sheet(at: usize)
    requires { at < 440 }
{
    let mut sheets = dealt(2);
    sheets[at] = 256;
    line::number(code(hearing::hear(second(), &TOTALS, &sheets, &said(), &EVERYONE)));
}

// Another one for the first and for the last of the party's own words; and for the last where it is not present.
fn own_words() {
    line::title(b"hear own words of seven rounds:");
    hears(with(32, 0), EVERYONE);
    hears(with(63, 0), EVERYONE);
    hears(with(63, 0), [1, 0, 1]);
    line::end();
}

// Another one for the first word of party 1 and for the last of party 3, a word above 65,535; and the last where
// party 3 is not present.
fn crooked() {
    line::title(b"hear crooked rounds of seven:");
    hears(with(0, 0), EVERYONE);
    hears(with(95, 0), EVERYONE);
    hears(with(95, 65536), [0, 1, 1]);
    hears(with(95, 65536), [1, 1, 0]);
    line::end();
}

// 1, 0, 2 and 255, as in round 33; and 4 words more, as if round 7 were a level.
fn verdicts() {
    line::title(b"hear verdicts of seven rounds:");
    of_words(last(), &WORDS_33);
    of_words(last(), &[157, 33, 188]);
    of_words(last(), &[158, 33, 189]);
    of_words(last(), &[144, 33, 78]);
    of_words(last(), &[17, 33, 49, 17, 33, 49]);
    line::end();
}

fn hears(messages: [u64; 96], present: [u8; 3]) {
    let sheets = dealt(2);
    line::number(code(hearing::hear(second(), &TOTALS, &sheets, &messages, &present)));
}

fn of_words(q: Party, messages: &[u64]) {
    let sheets = dealt(2);
    line::number(code(hearing::hear(q, &TOTALS, &sheets, messages, &EVERYONE)));
}

// What is said in round 2, with another word in the place after `at` others.
fn with(at: usize, word: u64) -> [u64; 96]
    requires { at < 96 }
{
    let mut other = said();
    other[at] = word;
    other
}

fn said() -> [u64; 96] {
    let mut messages = [0u64; 96];
    say(1, &mut messages, 0);
    say(2, &mut messages, 32);
    say(3, &mut messages, 64);
    messages
}

// No word of the totals is used in round 2.
fn say(own: u64, messages: &mut [u64], at: usize)
    requires { (at ≤ 64) × (length messages.old ≡ 96) }
{
    let mut q = second();
    q.own = own;
    let sheets = dealt(own);
    let to = at + 32;
    let _ = saying::say(q, &TOTALS, &sheets, &mut messages[at..to]);
}

// A party's sheets, dealt by the rules of `of_hearing`.
fn dealt(own: u64) -> [u64; 440] {
    let mut sheets = [0u64; 440];
    deal::<343>(own, 7, &[7, 11], 37, 11, &mut sheets[..220]);
    deal::<343>(own, 7, &[9, 13], 41, 5, &mut sheets[220..]);
    sheets
}

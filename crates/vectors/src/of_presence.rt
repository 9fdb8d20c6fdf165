// Hearing by marks: the party of `of_hearing`, with some of the three parties present. Two words are
// enough, and what stands in the place of one who was not present changes nothing.
ghost use Rattle.std.specs.Prelude.{◌<◌};

use crate::line;
use crate::of_hearing::{
    EXCHANGED_1, TOTALS, WORDS_1, WORDS_2, WORDS_33, dealt, first, last, over, second,
};
use fields::P;
use record::Party;
use worked_party::{code, record};

pub(crate) fn print() {
    accepted();
    marks();
    too_few();
    own_words();
    shares();
    straight();
    crooked();
}

// Each round by two of the three, with words that nobody said in the third place. The record is the one
// that all three words lead to, with the party itself present or not.
fn accepted() {
    line::title(b"heard by 1 and 2, round 1:");
    heard(first(), with(WORDS_1, 2, P), [1, 1, 0]);
    line::end();

    line::title(b"heard by 1 and 3, round 1:");
    heard(first(), with(WORDS_1, 1, P), [1, 0, 1]);
    line::end();

    line::title(b"heard by 2 and 3, round 2:");
    heard(second(), with(WORDS_2, 0, 65536), [0, 1, 1]);
    line::end();

    line::title(b"heard by 1 and 3, round 33:");
    heard(last(), with(WORDS_33, 1, 256), [1, 0, 1]);
    line::end();
}

// A mark of 2; one of 255, with a word missing; one of 2, with a session that is over; one mark short; one
// too many; and a mark of 2 that is one too many.
fn marks() {
    line::title(b"hear marks:");
    hears(first(), WORDS_1, [1, 2, 1]);
    lends(&[WORDS_1[0], WORDS_1[1]], &[1, 1, 255]);
    hears(over(), EXCHANGED_1, [2, 1, 1]);
    lends(&WORDS_1, &[1, 1]);
    lends(&WORDS_1, &[1, 1, 1, 1]);
    lends(&WORDS_1, &[1, 1, 1, 2]);
    line::end();
}

// One present, and none; with a session that is over; with a share of p in the totals.
fn too_few() {
    line::title(b"hear too few:");
    hears(first(), WORDS_1, [0, 1, 0]);
    hears(first(), WORDS_1, [0, 0, 0]);
    hears(over(), EXCHANGED_1, [0, 1, 0]);
    call(first(), [P, 4003], WORDS_1, [0, 1, 0]);
    line::end();
}

// The word in the party's own place is another one: where it is present, and where it is not.
fn own_words() {
    line::title(b"hear own words by marks:");
    let words = with(WORDS_1, 1, 0);
    for present in [[1, 1, 0], [0, 1, 1], [1, 0, 1]] {
        hears(first(), words, present);
    }
    line::end();
}

// A share of p in the totals, which a party that was not present does not use; and in the sheet.
fn shares() {
    line::title(b"hear shares by marks:");
    call(first(), [P, 4003], WORDS_1, [1, 1, 0]);
    call(first(), [P, P], WORDS_1, [1, 0, 1]);
    let mut sheets = dealt();
    sheets[0] = P;
    with_sheets(first(), sheets, WORDS_1, [1, 0, 1]);
    line::end();
}

// Any two words in range are straight: what they open to decides. Rounds 1, 2 and 33.
fn straight() {
    line::title(b"hear straight rounds:");
    hears(first(), [0, 0, P - 1], [1, 0, 1]);
    hears(first(), with(WORDS_1, 2, 576460756598387748), [1, 0, 1]);
    hears(second(), [0, 0, 65535], [1, 0, 1]);
    hears(last(), [255, 0, 255], [1, 0, 1]);
    hears(last(), [0, 0, 0], [1, 0, 1]);
    line::end();
}

// A marked word that is out of range; and words of which two are straight and three are not.
fn crooked() {
    line::title(b"hear crooked rounds by marks:");
    hears(first(), with(WORDS_1, 2, P), [0, 1, 1]);
    hears(second(), with(WORDS_2, 2, 65536), [0, 1, 1]);
    hears(last(), with(WORDS_33, 2, 256), [0, 1, 1]);
    hears(second(), with(WORDS_2, 2, 43439), [1, 1, 1]);
    hears(second(), with(WORDS_2, 2, 43439), [0, 1, 1]);
    line::end();
}

// With another word in the place after `at` others.
fn with(words: [u64; 3], at: usize, word: u64) -> [u64; 3]
    requires { at < 3 }
{
    let mut other = words;
    other[at] = word;
    other
}

fn heard(q: Party, messages: [u64; 3], present: [u8; 3]) {
    let sheets = dealt();
    record(hearing::hear(q, &TOTALS, &sheets, &messages, &present));
}

fn hears(q: Party, messages: [u64; 3], present: [u8; 3]) {
    call(q, TOTALS, messages, present);
}

fn call(q: Party, totals: [u64; 2], messages: [u64; 3], present: [u8; 3]) {
    let sheets = dealt();
    line::number(code(hearing::hear(q, &totals, &sheets, &messages, &present)));
}

fn with_sheets(q: Party, sheets: [u64; 254], messages: [u64; 3], present: [u8; 3]) {
    line::number(code(hearing::hear(q, &TOTALS, &sheets, &messages, &present)));
}

// As many messages and marks as there are.
fn lends(messages: &[u64], present: &[u8]) {
    let sheets = dealt();
    line::number(code(hearing::hear(first(), &TOTALS, &sheets, messages, present)));
}

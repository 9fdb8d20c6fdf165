// Hearing: the second of three parties in a session of one bid, bidder 1,000's, with demand 5 and
// supply 3, and one price, with masks of 7 and 9. Of the first search three calls are accepted, those
// of rounds 1, 2 and 33, and of the second those of rounds 1 and 33; every other call changes one of
// them. In all of these everyone is present. A call prints its refusal's number, or 0.
ghost use Rattle.std.specs.Prelude.{◌≤◌, ◌<◌};

use crate::line;
use fields::P;
use kept_pairs::Pairs;
use record::Party;
use roll::Roll;
use worked_party::{code, record, searches};
use worked_shares::fill;

// The party's own.
pub(crate) const TOTALS: [u64; 2] = [2005, 4003];

// 2^59 + 2^32 - 7 + 5 - 3.
const SUM: u64 = (1 << 59) + (1 << 32) - 5;

// The messages of the accepted calls.
pub(crate) const WORDS_1: [u64; 3] = [576460756598389768, 576460756598388757, 576460756598387746];

pub(crate) const WORDS_2: [u64; 3] = [49658, 40324, 43438];

pub(crate) const WORDS_33: [u64; 3] = [17, 33, 49];

// Those of the second search, whose sum is 2^59 + 2^32 - 9 + 3 - 5.
const EXCHANGED_SUM: u64 = (1 << 59) + (1 << 32) - 11;

pub(crate) const EXCHANGED_1: [u64; 3] = [
    576460756598391760,
    576460756598392747,
    576460756598393734,
];

const EXCHANGED_33: [u64; 3] = [34, 68, 102];

const EVERYONE: [u8; 3] = [1, 1, 1];

pub(crate) fn print() {
    accepted();
    seconds();
    sides();
    records();
    rolls();
    lengths();
    shares();
    own_words();
    crooked();
    sums();
    verdicts();
}

pub(crate) fn first() -> Party {
    at_round(1, 0, 0)
}

pub(crate) fn second() -> Party {
    at_round(2, SUM, 23)
}

pub(crate) fn last() -> Party {
    at_round(33, SUM, 108)
}

fn at_round(round: u64, sum: u64, carry: u64) -> Party {
    Party {
        n: 3,
        own: 2,
        k: 1,
        bids: 1,
        search: searches(1, 0, 2, 0, 0, 0),
        round,
        sum,
        carry,
        roll: Roll::empty().mark(1000),
        demand: 0,
        supply: 0,
        last: 33,
        pairs: Pairs::none(),
    }
}

// The first search gave 1 in one probe, and the second probes the same index.
pub(crate) fn exchanged(q: Party) -> Party {
    let mut next = q;
    next.search = searches(2, 0, 2, 1, 1, 1);
    next
}

// The totals at the price are open.
pub(crate) fn over() -> Party {
    let mut q = exchanged(first());
    q.search.bracket.lo = 1;
    q.round = 36;
    q
}

// The verdict 1 ends the first search with 1, and the second begins. The verdict 0 ends it with 0, and
// with it the session.
fn accepted() {
    line::title(b"heard, round 1:");
    heard(first(), WORDS_1);
    line::end();

    line::title(b"heard, round 2:");
    heard(second(), WORDS_2);
    line::end();

    line::title(b"heard, round 33:");
    heard(last(), WORDS_33);
    line::end();

    line::title(b"heard, verdict 0:");
    heard(last(), [157, 33, 188]);
    line::end();
}

// Of the second search the verdict is 0, which moves lo; a 1 moves hi. Either ends it at the price.
fn seconds() {
    line::title(b"heard, second search, round 1:");
    heard(exchanged(first()), EXCHANGED_1);
    line::end();

    line::title(b"heard, second search, round 33:");
    let q = exchanged(at_round(33, EXCHANGED_SUM, 14));
    heard(q, EXCHANGED_33);
    line::end();

    line::title(b"heard, second search, verdict 1:");
    heard(q, [174, 68, 235]);
    line::end();
}

// In the first search the words of exchanged sides; in the second the same, which are of the first
// sheet, and the words of sides that are not exchanged.
fn sides() {
    line::title(b"hear sides:");
    let words = [576460756598391764, 576460756598392753, 576460756598393742];
    hears(first(), words);
    hears(exchanged(first()), words);
    hears(
        exchanged(first()),
        [576460756598389764, 576460756598388751, 576460756598387738],
    );
    line::end();
}

// A party's number out of its range, with a message missing; a first search that has ended; and a
// session that is over.
fn records() {
    line::title(b"hear records:");
    let mut q = first();
    q.own = 4;
    of_words(q, &[576460756598389768, 576460756598388757]);
    q = first();
    q.search.bracket.lo = 1;
    hears(q, WORDS_1);
    hears(over(), EXCHANGED_1);
    line::end();
}

// As many bids as marks, one more, one fewer; and marks of nobody.
fn rolls() {
    line::title(b"hear rolls:");
    let mut q = first();
    hears(q, WORDS_1);
    q.bids = 2;
    hears(q, WORDS_1);
    q.bids = 0;
    hears(q, WORDS_1);
    enrolled(Roll::empty().mark(0));
    enrolled(Roll::empty().mark(1001));
    line::end();
}

// One bid is held.
fn enrolled(roll: Roll) {
    let mut q = first();
    q.roll = roll;
    hears(q, WORDS_1);
}

// Messages, totals and sheets, each one short and one long; and the sheets of one search.
fn lengths() {
    line::title(b"hear lengths:");
    of_words(first(), &[576460756598389768, 576460756598388757]);
    of_words(
        first(),
        &[
            576460756598389768,
            576460756598388757,
            576460756598387746,
            0,
        ],
    );
    of_book(&[2005]);
    of_book(&[2005, 4003, 0]);
    of_sheets(&[0; 253]);
    of_sheets(&[0; 255]);
    of_sheets(&[0; 127]);
    line::end();
}

// A share of p in the totals or for the mask, or a byte's of 256. Round 2 uses no total. The last two
// have it for the second sheet's mask: that sheet is current in the second search.
fn shares() {
    line::title(b"hear shares:");
    of_totals(first(), [P, 4003], WORDS_1);
    of_totals(first(), [2005, P], WORDS_1);
    of_totals(second(), [P, P], WORDS_2);
    of_sheet(first(), 0, P, WORDS_1);
    of_sheet(first(), 1, 256, WORDS_1);
    of_sheet(first(), 126, 256, WORDS_1);
    of_sheet(second(), 0, P, WORDS_2);
    of_sheet(first(), 127, P, WORDS_1);
    of_sheet(exchanged(first()), 127, P, EXCHANGED_1);
    line::end();
}

// The word in the party's own place is another one.
fn own_words() {
    line::title(b"hear own words:");
    hears(
        first(),
        [576460756598389768, 576460756598388758, 576460756598387746],
    );
    hears(second(), [49658, 40323, 43438]);
    hears(last(), [17, 32, 49]);
    line::end();
}

// In round 1: no line through the words, a word of p, a word with p added to it. In round 2: no line
// through the low bytes, none through the high bytes, a word above 65,535. In round 33: no line
// through the words, a word above 255.
fn crooked() {
    line::title(b"hear crooked rounds:");
    hears(
        first(),
        [576460756598389768, 576460756598388757, 576460756598387747],
    );
    hears(first(), [P, 576460756598388757, 576460756598387746]);
    hears(
        first(),
        [576460756598389768, 576460756598388757, 2882303765812081697],
    );
    hears(second(), [49658, 40324, 43439]);
    hears(second(), [49658, 40324, 43182]);
    hears(second(), [49658, 40324, 108974]);
    hears(last(), [16, 33, 49]);
    hears(last(), [273, 33, 49]);
    line::end();
}

// The least sum, one less, the greatest, one more, and 0.
fn sums() {
    line::title(b"hear sums:");
    for messages in [
        [1585267070981897227, 576460756598388757, 1873497451428574238],
        [432345566375050251, 576460756598388757, 720575946821727263],
        [576460758745873418, 576460756598388757, 576460754450904096],
        [1729382263352720394, 576460756598388757, 1729382259057751071],
        [1441151882906041354, 576460756598388757, 2017612639504430111],
    ] {
        hears(first(), messages);
    }
    line::end();
}

// 1, 0, 2 and 255.
fn verdicts() {
    line::title(b"hear verdicts:");
    for messages in [WORDS_33, [157, 33, 188], [158, 33, 189], [144, 33, 78]] {
        hears(last(), messages);
    }
    line::end();
}

fn heard(q: Party, messages: [u64; 3]) {
    let sheets = dealt();
    record(hearing::hear(q, &TOTALS, &sheets, &messages, &EVERYONE));
}

fn hears(q: Party, messages: [u64; 3]) {
    of_totals(q, TOTALS, messages);
}

fn of_totals(q: Party, totals: [u64; 2], messages: [u64; 3]) {
    call(q, totals, dealt(), messages);
}

// One word of the sheets is another one.
fn of_sheet(q: Party, at: usize, word: u64, messages: [u64; 3])
    requires { at < 254 }
{
    let mut sheets = dealt();
    sheets[at] = word;
    call(q, TOTALS, sheets, messages);
}

fn call(q: Party, totals: [u64; 2], sheets: [u64; 254], messages: [u64; 3]) {
    line::number(code(hearing::hear(q, &totals, &sheets, &messages, &EVERYONE)));
}

// As many messages as there are.
fn of_words(q: Party, messages: &[u64]) {
    let sheets = dealt();
    line::number(code(hearing::hear(q, &TOTALS, &sheets, messages, &EVERYONE)));
}

fn of_book(totals: &[u64]) {
    let sheets = dealt();
    line::number(code(hearing::hear(first(), totals, &sheets, &WORDS_1, &EVERYONE)));
}

fn of_sheets(sheets: &[u64]) {
    line::number(code(hearing::hear(first(), &TOTALS, sheets, &WORDS_1, &EVERYONE)));
}

// Party 2's sheets, each dealt with bytes that follow a rule.
pub(crate) fn dealt() -> [u64; 254] {
    let mut sheets = [0u64; 254];
    deal::<188>(2, 33, &[7, 11], 37, 11, &mut sheets[..127]);
    deal::<188>(2, 33, &[9, 13], 41, 5, &mut sheets[127..]);
    sheets
}

// One sheet, from so many drawn bytes.
pub(crate) fn deal<const BYTES: usize>(
    own: u64,
    last: u64,
    words: &[u64],
    step: u8,
    start: u8,
    sheet: &mut [u64],
)
    requires { BYTES ≤ 343 }
{
    let mut bytes = [0u8; BYTES];
    fill(&mut bytes, step, start);
    let _ = dealer::deal(3, own, last, words, &bytes, sheet);
}

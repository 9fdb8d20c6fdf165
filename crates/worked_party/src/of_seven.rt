// Sessions of seven rounds a probe: the last round that is asked for, what is judged of the record, what is
// said in a round, and the slice that is lent for it. A call prints its refusal's number, or 0.
ghost use Rattle.std.specs.Prelude.{◌<◌, ◌≤◌};

use crate::line;
use crate::records::{asked, at_price, code, fresh, no_price, whole};
use kept_pairs::Pairs;
use record::Party;
use worked_shares::fill;

const MAX: u64 = u64::MAX;

// T: bits 1 to 33 are not all 0, nor all 1.
const SUM: u64 = 0x0765_4321_9abc_def1;

pub(crate) fn print() {
    opens();
    records();
    pair_shares();
    words();
    lengths();
    sheets();
    left();
}

// 33 and 7, and five others.
fn opens() {
    line::title(b"open last rounds:");
    for last in [33, 7, 8, 6, 32, 34, 0] {
        opening(last);
    }
    line::end();

    line::title(b"opened for seven rounds:");
    let mut totals = [7u64; 2];
    whole(session::open(3, 1, 1, 7, &mut totals));
    line::numbers(&totals);
    line::end();
}

fn opening(last: u64) {
    let mut totals = [7u64; 2];
    line::number(code(session::open(3, 1, 1, last, &mut totals)));
}

// Rounds 0, 1, 7, 8, 33 and 34 of a search; then 33 to 37 at a price; and round 8 of a probe whose last
// round would be 8.
fn records() {
    line::title(b"answer records of seven rounds:");
    for round in [0, 1, 7, 8, 33, 34] {
        asked(seven(fresh(), round));
    }
    for round in 33..38 {
        asked(seven(at_price(1), round));
    }
    let mut q = fresh();
    q.last = 8;
    q.round = 8;
    asked(q);
    line::end();
}

// A pair share is at most 255, in seven rounds and in 33.
fn pair_shares() {
    line::title(b"answer pair shares:");
    keeping(7, 0, 255);
    keeping(7, 0, 256);
    keeping(7, 31, 256);
    keeping(7, 31, MAX);
    keeping(33, 0, 255);
    keeping(33, 0, 256);
    keeping(33, 31, 256);
    keeping(33, 31, MAX);
    line::end();
}

fn keeping(last: u64, at: usize, share: u64)
    requires { at < 32 }
{
    let mut words = [0u64; 32];
    words[at] = share;
    let pairs = Pairs { words };
    let mut q = fresh();
    q.last = last;
    q.pairs = pairs;
    asked(q);
}

// In round 2 the pairs are read from T and the sheet, and what is kept is not looked at.
fn words() {
    let mut one = [7u64; 1];
    let mut two = [7u64; 2];
    let mut of_sixteen = [7u64; 16];
    let mut of_all = [7u64; 32];
    line::title(b"said, round 1 of seven:");
    says(1, &mut one);
    line::title(b"said, round 2 of seven:");
    says(2, &mut of_all);
    line::title(b"said, round 3 of seven:");
    says(3, &mut of_sixteen);
    line::title(b"said, round 6 of seven:");
    says(6, &mut two);
    line::title(b"said, round 7 of seven:");
    says(7, &mut one);
}

// The kept words and those of the two sheets follow rules.
fn says(round: u64, said: &mut [u64]) {
    let mut kept = [0u64; 32];
    fill(&mut kept, 29, 5);
    let mut sheets = [0u64; 440];
    fill(&mut sheets, 37, 11);
    let pairs = Pairs { words: kept };
    let mut q = seven(fresh(), round);
    q.sum = SUM;
    q.pairs = pairs;
    let judgement = saying::say(q, &[5, 3], &sheets, said);
    line::number(refusal::code(judgement));
    line::numbers(&said[..]);
    line::end();
}

// In each round as many words as it has, one fewer, and one more. Then where the session is over, at a price
// and with none: a wrong length comes first, and goes by the round.
fn lengths() {
    line::title(b"say lengths of seven rounds:");
    around(1, 1);
    around(2, 32);
    around(3, 16);
    around(4, 8);
    around(5, 4);
    around(6, 2);
    around(7, 1);
    line::end();

    line::title(b"say lengths when over:");
    lends(seven(at_price(1), 36), 440, 1);
    lends(seven(at_price(1), 36), 440, 2);
    lends(seven(no_price(), 2), 440, 32);
    lends(seven(no_price(), 2), 440, 1);
    lends(at_price(36), 254, 1);
    lends(at_price(36), 254, 0);
    lends(no_price(), 254, 2);
    line::end();
}

fn around(round: u64, count: usize)
    requires { (1 ≤ count) × (count ≤ 32) }
{
    let q = seven(fresh(), round);
    lends(q, 440, count);
    lends(q, 440, count - 1);
    lends(q, 440, count + 1);
}

// Of two sheets each way's words, and the other's; and a word short and long.
fn sheets() {
    line::title(b"say sheets of either way:");
    lends(seven(fresh(), 1), 440, 1);
    lends(seven(fresh(), 1), 254, 1);
    lends(seven(fresh(), 1), 439, 1);
    lends(seven(fresh(), 1), 441, 1);
    lends(fresh(), 254, 1);
    lends(fresh(), 440, 1);
    line::end();
}

// So many words of 0 as sheets, and a slice of so many for the words.
fn lends(q: Party, lent: usize, count: usize)
    requires { (lent ≤ 441) × (count ≤ 33) }
{
    let sheets = [0u64; 441];
    let mut said = [7u64; 33];
    let judgement = saying::say(q, &[5, 3], &sheets[..lent], &mut said[..count]);
    line::number(refusal::code(judgement));
}

// A word of 256 that ends the current sheet, and a word that ends the other one. A refused call leaves the
// slice.
fn left() {
    line::title(b"say shares of seven rounds:");
    with_word(219, 256);
    with_word(219, 255);
    with_word(439, 256);
    line::end();
}

fn with_word(at: usize, word: u64)
    requires { at < 440 }
{
    let mut sheets = [0u64; 440];
    sheets[at] = word;
    let mut said = [7u64; 2];
    let judgement = saying::say(seven(fresh(), 6), &[5, 3], &sheets, &mut said);
    line::number(refusal::code(judgement));
    line::numbers(&said);
}

// The record in a round of seven.
fn seven(q: Party, round: u64) -> Party {
    let mut next = q;
    next.last = 7;
    next.round = round;
    next
}

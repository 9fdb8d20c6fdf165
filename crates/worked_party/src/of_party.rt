// A party's calls: every refusal that they give, each by a call that differs from an accepted one in
// one place, and worked answers. A call prints its refusal's number, or 0.
ghost use Rattle.std.specs.Prelude.{◌<◌, ◌≤◌};

use crate::records::{
    answer, at_price, code, fresh, holding, no_price, record, searches, second, two,
};
use crate::{line, of_adding, of_bidders, of_fills, of_price, of_searches, of_seven};
use fields::P;
use record::Party;
use refusal::Judgement;
use roll::Roll;

pub fn print() {
    open_accepted();
    open_ranges();
    open_lengths();
    of_adding::print();
    of_bidders::print();
    say_words();
    say_seconds();
    say_refusals();
    say_sheets();
    say_totals();
    answers();
    of_searches::print();
    of_price::print();
    of_fills::print();
    of_seven::print();
}

fn open_accepted() {
    line::title(b"opened:");
    let mut totals = [7u64; 2];
    record(session::open(3, 1, 1, 33, &mut totals));
    line::numbers(&totals);
    line::end();
}

// The last ones are k = 1,024 and k = 1,025.
fn open_ranges() {
    line::title(b"open ranges:");
    opens(3, 1, 1, 2);
    opens(2, 1, 1, 2);
    opens(9, 9, 1, 2);
    opens(10, 1, 1, 2);
    opens(3, 0, 1, 2);
    opens(3, 3, 1, 2);
    opens(3, 4, 1, 2);
    opens(3, 1, 0, 2);
    opens(3, 1, 1024, 2048);
    opens(3, 1, 1025, 2050);
    line::end();
}

fn open_lengths() {
    line::title(b"open lengths, totals left:");
    opens(3, 1, 1, 1);
    let mut totals = [7u64; 3];
    line::number(code(session::open(3, 1, 1, 33, &mut totals)));
    line::numbers(&totals);
    line::end();
}

fn opens(n: u64, own: u64, k: u64, count: usize)
    requires { count ≤ 2050 }
{
    let mut totals = [7u64; 2050];
    line::number(code(session::open(n, own, k, 33, &mut totals[..count])));
}

// The words of rounds 1, 2 and 33, then of a second probe's round 1, which takes the second sheet.
fn say_words() {
    line::title(b"said:");
    let mut sheets = [0u64; 254];
    sheets[0] = 7;
    said(fresh(), &[5, 3], &sheets);

    let mut worked = [0u64; 254];
    worked[2] = 4;
    worked[33] = 4;
    worked[34] = 8;
    worked[35] = 16;
    let mut q = fresh();
    q.round = 2;
    q.sum = 2;
    q.carry = 1;
    said(q, &[5, 3], &worked);
    q.round = 33;
    q.sum = 1 << 32;
    q.carry = 8;
    said(q, &[5, 3], &worked);

    let mut four = [0u64; 508];
    four[0] = 100;
    four[127] = 7;
    let mut later = fresh();
    later.k = 2;
    later.search = searches(1, 1, 3, 1, 0, 0);
    said(later, &[5, 5, 3, 3], &four);
    line::end();
}

// Round 1 of the second search has the sides exchanged: supply 3 against demand 5 with a mask of 7,
// and the paper's 0 against 2^32 - 1 with a mask of 2^58 - 1. Its sheets follow those of the first:
// of two prices the last probe takes the fourth, here at index 2.
fn say_seconds() {
    line::title(b"said in the second search:");
    let mut sheets = [0u64; 254];
    sheets[0] = 100;
    sheets[127] = 7;
    said(second(0, 2, 1), &[5, 3], &sheets);
    sheets[127] = (1 << 58) - 1;
    said(second(0, 2, 1), &[(1 << 32) - 1, 0], &sheets);

    let mut four = [0u64; 508];
    four[254] = 100;
    four[381] = 7;
    let mut last = fresh();
    last.k = 2;
    last.search = searches(2, 1, 3, 3, 2, 2);
    said(last, &[9, 5, 1, 3], &four);
    line::end();
}

// A record out of its range, a first search that has ended, a bid more than there are marks, a bid
// fewer, lengths, the last being one search's sheets, and sessions that are over, at a price and with none.
fn say_refusals() {
    line::title(b"say refusals:");
    let mut q = fresh();
    q.round = 34;
    says(q, 2, 254);
    q = fresh();
    q.search.bracket.lo = 1;
    says(q, 2, 254);
    says(holding(1, Roll::empty()), 2, 254);
    says(holding(1, two()), 2, 254);
    says(fresh(), 1, 254);
    says(fresh(), 3, 254);
    says(fresh(), 2, 253);
    says(fresh(), 2, 255);
    says(fresh(), 2, 127);
    says(at_price(36), 2, 254);
    says(no_price(), 2, 254);
    line::end();
}

// The mask's share is below p and every other word of the sheet below 256.
fn say_sheets() {
    line::title(b"say sheets:");
    says_with(0, P - 1);
    says_with(0, P);
    says_with(1, 255);
    says_with(1, 256);
    says_with(126, 255);
    says_with(126, 256);
    line::end();
}

// Only round 1 uses the totals.
fn say_totals() {
    line::title(b"say totals:");
    says_totals(fresh(), P - 1, P - 1);
    says_totals(fresh(), P, 3);
    says_totals(fresh(), 5, P);
    let mut q = fresh();
    q.round = 2;
    says_totals(q, P, P);
    line::end();
}

// Totals with sheets of 0.
fn says_totals(q: Party, demand: u64, supply: u64) {
    let sheets = [0u64; 254];
    said_code(q, &[demand, supply], &sheets);
}

// Sheets that are 0 but for one word of the first.
fn says_with(at: usize, word: u64)
    requires { at < 127 }
{
    let mut sheets = [0u64; 254];
    sheets[at] = word;
    said_code(fresh(), &[5, 3], &sheets);
}

// So many words of totals, and so many words of 0 as sheets.
fn says(q: Party, held: usize, lent: usize)
    requires { (held ≤ 3) × (lent ≤ 255) }
{
    let totals = [5, 3, 0];
    let sheets = [0u64; 255];
    said_code(q, &totals[..held], &sheets[..lent]);
}

// Of 33 rounds a word is said in each.
pub(crate) fn said_code(q: Party, totals: &[u64], sheets: &[u64]) {
    let mut word = [0u64; 1];
    let judgement = saying::say(q, totals, sheets, &mut word);
    line::number(refusal::code(judgement));
}

pub(crate) fn said(q: Party, totals: &[u64], sheets: &[u64]) {
    let mut word = [0u64; 1];
    match saying::say(q, totals, sheets, &mut word) {
        Ok(()) => line::numbers(&word),
        Err(_) => line::word(b"refused"),
    }
}

// A record out of its range, one that is not over, and then two that are: the index and the probes.
// The last one has two bids and two marks; with a bid more or fewer it is refused.
fn answers() {
    line::title(b"answers:");
    let mut q = fresh();
    q.search.bracket.hi = 3;
    answer(q);
    answer(fresh());
    answer(no_price());
    q = holding(2, two());
    q.search = searches(2, 0, 1, 2, 1, 1);
    q.round = 36;
    answer(q);
    q.bids = 3;
    answer(q);
    q.bids = 1;
    answer(q);
    line::end();
}

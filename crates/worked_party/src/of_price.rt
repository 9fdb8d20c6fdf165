// The rounds at the price, 34 and 35, in which the totals there are opened, and 36, when the session is
// over. The searches are of seven prices. The first gave 3 and the lowest balanced index is 1, so the price
// is 2: not what the first gave, nor where the last probe was. A sheet is left after their five, but none is
// read: all are of words that no sheet may have. A call prints its refusal's number, or 0.
use crate::line;
use crate::of_party::{said, said_code};
use crate::records::{answer, fresh, searches};
use fields::P;
use record::Party;
use search::Search;

const MAX: u64 = u64::MAX;

// Demand at the seven prices, then supply.
const TOTALS: [u64; 14] = [11, 12, 13, 14, 15, 16, 17, 21, 22, 23, 24, 25, 26, 27];

pub(crate) fn print() {
    words();
    shares();
    lengths();
    records();
    answers();
}

// Demand and supply at the price: 2; 3, where no price is balanced; 5, after six probes; and 1.
fn words() {
    line::title(b"said at the price:");
    says(searches(2, 0, 1, 5, 3, 3));
    says(searches(2, 3, 4, 5, 3, 3));
    says(searches(2, 3, 4, 6, 7, 3));
    says(searches(2, 0, 1, 4, 1, 3));
    line::end();
}

fn says(s: Search) {
    let sheets = [MAX; 762];
    said(searched(s, 34), &TOTALS, &sheets);
    said(searched(s, 35), &TOTALS, &sheets);
}

// Of the totals round 34 uses demand at the price alone, and round 35 supply. Rounds that are over, or past
// the last, are refused before them.
fn shares() {
    line::title(b"say totals at the price:");
    says_totals(34, P - 1, P);
    says_totals(34, P, 0);
    says_totals(35, P, P - 1);
    says_totals(35, 0, P);
    says_totals(36, P, P);
    says_totals(37, P, P);
    line::end();
}

// These at the price. Every other word of the totals is p.
fn says_totals(round: u64, demand: u64, supply: u64) {
    let sheets = [MAX; 762];
    let mut totals = [P; 14];
    totals[1] = demand;
    totals[8] = supply;
    said_code(at_two(round), &totals, &sheets);
}

// Sheets that are a word short or long, and none; and a word short where the session is over, and in a round
// past the last.
fn lengths() {
    line::title(b"say sheets at the price:");
    let short = [MAX; 761];
    says_with(34, &short);
    says_with(35, &[MAX; 763]);
    says_with(35, &[]);
    says_with(36, &short);
    says_with(37, &short);
    line::end();
}

fn says_with(round: u64, sheets: &[u64]) {
    said_code(at_two(round), &TOTALS, sheets);
}

// Rounds 33 to 37. Then totals before they are opened: the greatest, which pass; demand of 2^32, and both;
// and supply above demand.
fn records() {
    line::title(b"say records at the price:");
    holds(33, 0, 0);
    holds(34, 0, 0);
    holds(35, 0, 0);
    holds(36, 0, 0);
    holds(37, 0, 0);
    holds(34, (1 << 32) - 1, (1 << 32) - 1);
    holds(34, 1 << 32, 0);
    holds(34, 1 << 32, 1 << 32);
    holds(34, 4, 5);
    line::end();
}

fn holds(round: u64, demand: u64, supply: u64) {
    let sheets = [MAX; 762];
    let mut q = at_two(round);
    q.demand = demand;
    q.supply = supply;
    said_code(q, &TOTALS, &sheets);
}

// Rounds 33 to 37.
fn answers() {
    line::title(b"answers at the price:");
    for round in 33..38 {
        answer(at_two(round));
    }
    line::end();
}

fn at_two(round: u64) -> Party {
    searched(searches(2, 0, 1, 5, 3, 3), round)
}

fn searched(s: Search, round: u64) -> Party {
    let mut q = fresh();
    q.k = 7;
    q.search = s;
    q.round = round;
    q
}

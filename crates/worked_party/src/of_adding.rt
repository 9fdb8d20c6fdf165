// Adding a bid: every refusal but that of a bidder who is in, each by a call that differs from an
// accepted one in one place, and which of two comes first. A call prints its refusal's number, or 0.
ghost use Rattle.std.specs.Prelude.{◌≤◌};

use crate::line;
use crate::records::{code, fresh, holding, party, searches, second, two};
use fields::P;
use record::Party;

// The sums that a record may hold are below it.
const SUMS: u64 = (1 << 59) + (1 << 33);

// A party's record and its two totals.
#[derive(Clone, Copy)]
pub(crate) struct Book {
    pub(crate) party: Party,
    totals: [u64; 2],
}

pub(crate) fn print() {
    records();
    lengths();
    turns();
    words();
    order();
}

// A record with one field out of its range, or a first search that has ended. The first has none of
// this, and the last two hold the greatest sum and the greatest carry.
fn records() {
    line::title(b"add records:");
    let good = fresh();
    adds(good, 7);
    let mut q = good;
    q.n = 2;
    adds(q, 7);
    q = good;
    q.own = 4;
    adds(q, 7);
    q = good;
    q.k = 1025;
    adds(q, 7);
    q = good;
    q.bids = 1;
    adds(q, 7);
    q = good;
    q.search.bracket.lo = 2;
    adds(q, 7);
    q = good;
    q.search.bracket.lo = 1;
    adds(q, 7);
    q = good;
    q.search.bracket.hi = 3;
    adds(q, 7);
    q = good;
    q.round = 0;
    adds(q, 7);
    q = good;
    q.round = 34;
    adds(q, 7);
    q = good;
    q.sum = SUMS;
    adds(q, 7);
    q = good;
    q.carry = 256;
    adds(q, 7);
    q = good;
    q.search.probes = 2;
    adds(q, 7);
    q = good;
    q.search.probes = 1;
    adds(q, 7);
    q = good;
    q.sum = SUMS - 1;
    adds(q, 7);
    q = good;
    q.carry = 255;
    adds(q, 7);
    line::end();
}

fn lengths() {
    line::title(b"add lengths:");
    let q = fresh();
    adds_parts(q, 7, 2, 1);
    adds_parts(q, 7, 2, 3);
    adds_parts(q, 7, 1, 2);
    adds_parts(q, 7, 3, 2);
    line::end();
}

// A bid comes before the first heard round, be it heard in this probe or in an earlier one. Where no
// round was heard it is taken in the second search too, and even when that is over with no price; a price
// goes with rounds that are past the first.
fn turns() {
    line::title(b"add turns:");
    let mut q = fresh();
    q.round = 2;
    adds(q, 7);
    q = second(0, 2, 1);
    adds(q, 7);
    q.search = searches(2, 0, 2, 0, 1, 0);
    adds(q, 7);
    q.search = searches(2, 0, 1, 0, 0, 0);
    adds(q, 7);
    q.search = searches(2, 0, 1, 0, 1, 0);
    q.round = 34;
    adds(q, 7);
    line::end();
}

// Shares and totals are below p. A refused call leaves the record and the totals.
fn words() {
    line::title(b"add words:");
    let q = fresh();
    line::number(number_of(q, 7, P - 1, P - 1));
    line::number(number_of(q, 7, P, 1));
    sent(opened(q), 7, 6, P);
}

// Two faults in each call: 1 with 2, by the record and by the bidder; 2 with 3; 3 with 14; 14 with 8.
// Bidder 64 is in.
fn order() {
    line::title(b"add order:");
    let held = holding(2, two());
    let mut differs = held;
    differs.bids = 3;
    adds_parts(differs, 7, 2, 1);
    adds_parts(held, 1001, 2, 1);
    let mut heard = held;
    heard.round = 2;
    adds_parts(heard, 7, 2, 1);
    adds(heard, 64);
    line::number(number_of(held, 64, P - 1, P));
    line::end();
}

pub(crate) fn adds(q: Party, bidder: u64) {
    line::number(number_of(q, bidder, P - 1, 1));
}

// The number of a call with these as the second words of the totals and of the shares.
pub(crate) fn number_of(q: Party, bidder: u64, total: u64, share: u64) -> u64 {
    let mut totals = [5, total];
    code(session::add(q, &mut totals, bidder, &[6, share]))
}

// So many words of totals, and so many shares.
fn adds_parts(q: Party, bidder: u64, held: usize, given: usize)
    requires { (held ≤ 3) × (given ≤ 3) }
{
    let mut totals = [5, 1, 0];
    let shares = [6, 1, 0];
    line::number(code(session::add(q, &mut totals[..held], bidder, &shares[..given])));
}

pub(crate) fn opened(q: Party) -> Book {
    Book {
        party: q,
        totals: [5, P - 1],
    }
}

// Ends the line with the number and what is left.
pub(crate) fn sent(before: Book, bidder: u64, demand: u64, supply: u64) -> Book {
    let mut totals = before.totals;
    let reply = session::add(before.party, &mut totals, bidder, &[demand, supply]);
    line::number(code(reply));
    let after = reply.party;
    party(after);
    line::numbers(&totals);
    line::end();
    Book {
        party: after,
        totals,
    }
}

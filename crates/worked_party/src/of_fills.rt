// What a buyer gets at the price: the tenths, and the remainder of the division. Where a line is of
// refusals, a call prints its refusal's number, or 0.
use crate::line;
use crate::records::{at_price, fresh, no_price, second};
use record::Party;

const MAX: u64 = u64::MAX;

// The largest amount, and a thousand bids of it.
const MOST: u64 = 4_194_303;

const ALL: u64 = 4_194_303_000;

// Totals are below it.
const TOTALS: u64 = 1 << 32;

pub(crate) fn print() {
    sevenths();
    nothing();
    largest();
    totals();
    rounds();
    amounts();
    order();
}

// Of a demand of 7 five are supplied. To bids of 3, 3 and 1 they come to 2, 2 and 0, and one is left over.
fn sevenths() {
    line::title(b"fills, 5 of 7:");
    for amount in [0, 1, 3, 6, 7] {
        filled(7, 5, amount);
    }
    line::end();
}

// No supply; and no demand, whatever is asked for.
fn nothing() {
    line::title(b"fills of nothing:");
    filled(7, 0, 7);
    filled(0, 0, 0);
    filled(0, 0, MOST);
    line::end();
}

// The largest amount: with the totals of a thousand such bids, with a tenth less supplied, with the
// greatest totals of a record, and with the least.
fn largest() {
    line::title(b"largest fills:");
    filled(ALL, ALL, MOST);
    filled(ALL, ALL - 1, MOST);
    filled(TOTALS - 1, TOTALS - 1, MOST);
    filled(TOTALS - 1, TOTALS - 2, MOST);
    filled(1, 1, MOST);
    line::end();
}

// As much supply as demand, and more; the greatest totals, and 2^32 as one of them and as both.
fn totals() {
    line::title(b"fill totals:");
    fills(36, 7, 7, 3);
    fills(36, 6, 7, 3);
    fills(36, TOTALS - 1, TOTALS - 1, 3);
    fills(36, TOTALS, 7, 3);
    fills(36, TOTALS, TOTALS, 3);
    line::end();
}

// Only at a price are there rounds past 33, and there are no others.
fn rounds() {
    line::title(b"fill rounds at a price:");
    each_round(at_price(1));
    line::title(b"fill rounds with no price:");
    each_round(no_price());
    line::title(b"fill rounds of a first search:");
    each_round(fresh());
    line::title(b"fill rounds of a second search:");
    each_round(second(0, 2, 1));
}

fn each_round(q: Party) {
    for round in [1, 33, 34, 35, 36, 37] {
        in_round(q, round);
    }
    line::end();
}

fn in_round(q: Party, round: u64) {
    let mut moved = q;
    moved.round = round;
    line::number(number_of(moved, 3));
}

fn amounts() {
    line::title(b"fill amounts:");
    for amount in [MOST, MOST + 1, MAX] {
        fills(36, 7, 5, amount);
    }
    line::end();
}

// Two faults in each call: 1 with 16, 1 with 6, 16 with 6.
fn order() {
    line::title(b"fill order:");
    fills(35, 6, 7, 3);
    fills(36, 6, 7, MOST + 1);
    fills(35, 7, 5, MOST + 1);
    line::end();
}

// The searches have ended at a price, and the record has these totals.
fn opened(round: u64, demand: u64, supply: u64) -> Party {
    let mut q = at_price(round);
    q.demand = demand;
    q.supply = supply;
    q
}

fn filled(demand: u64, supply: u64, amount: u64) {
    match filling::fill(opened(36, demand, supply), amount) {
        Ok(hours) => line::numbers(&[hours.got, hours.remainder]),
        Err(_) => line::word(b"refused"),
    }
}

fn fills(round: u64, demand: u64, supply: u64, amount: u64) {
    line::number(number_of(opened(round, demand, supply), amount));
}

fn number_of(q: Party, amount: u64) -> u64 {
    refusal::code(filling::fill(q, amount).map(|_| ()))
}

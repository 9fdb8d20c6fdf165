// Hearing at the price: the party of `of_hearing` in rounds 34 and 35, once the searches of seven prices have
// ended at index 2, with 3 and 1 as the highest balanced index and the lowest. Of its totals every word is p,
// but for the two at that index, and of its sheets every word is one that no sheet may have. A call prints
// its refusal's number, or 0.
use crate::line;
use crate::of_hearing::first;
use fields::P;
use record::Party;
use worked_party::{code, record, searches};

const MAX: u64 = u64::MAX;

// Totals are below it.
const TOTALS: u64 = 1 << 32;

// The shares of a demand of 5 and a supply of 3, which the party's own totals have at the price.
const DEMAND: [u64; 3] = [1005, 2005, 3005];

const SUPPLY: [u64; 3] = [2003, 4003, 6003];

const EVERYONE: [u8; 3] = [1, 1, 1];

pub(crate) fn print() {
    accepted();
    rounds();
    lengths();
    shares();
    own_words();
    crooked();
    demands();
    supplies();
    order();
}

// Each by everyone, and by two of the three, with a word in the third place that nobody said.
fn accepted() {
    line::title(b"heard, round 34:");
    heard(34, 0, DEMAND, EVERYONE);
    line::title(b"heard, round 35:");
    heard(35, 5, SUPPLY, EVERYONE);
    line::title(b"heard by 1 and 3, round 34:");
    heard(34, 0, [1005, P, 3005], [1, 0, 1]);
    line::title(b"heard by 2 and 3, round 35:");
    heard(35, 5, [P, 4003, 6003], [0, 1, 1]);
}

// Before the totals, after them, and past the last round; and with no price, where the session is over.
fn rounds() {
    line::title(b"hear rounds at the price:");
    hears(33, DEMAND, EVERYONE);
    hears(36, SUPPLY, EVERYONE);
    hears(37, SUPPLY, EVERYONE);
    let mut q = at_price(1, 0, 0);
    q.search = searches(2, 0, 1, 3, 0, 3);
    call(q, book(2005, 4003), DEMAND, EVERYONE);
    line::end();
}

// Messages and marks; and sheets that are a word short or long, and none.
fn lengths() {
    line::title(b"hear lengths at the price:");
    of_words(&[1005, 2005], &EVERYONE);
    of_words(&DEMAND, &[1, 1]);
    of_sheets(&[MAX; 761]);
    of_sheets(&[MAX; 763]);
    of_sheets(&[]);
    line::end();
}

// A share of p: of the total that is opened, and of the other one. A party that was not present uses
// neither.
fn shares() {
    line::title(b"hear shares at the price:");
    of_totals(34, P, 4003, DEMAND, EVERYONE);
    of_totals(34, 2005, P, DEMAND, EVERYONE);
    of_totals(35, 2005, P, SUPPLY, EVERYONE);
    of_totals(35, P, 4003, SUPPLY, EVERYONE);
    of_totals(34, P, P, DEMAND, [1, 0, 1]);
    of_totals(35, P, P, SUPPLY, [1, 0, 1]);
    line::end();
}

// The words of the other round, and another word in the party's own place, where it is present and where
// it is not.
fn own_words() {
    line::title(b"hear own words at the price:");
    hears(34, SUPPLY, EVERYONE);
    hears(35, DEMAND, EVERYONE);
    hears(34, [1005, 2006, 3005], [1, 1, 0]);
    hears(34, [1005, 2006, 3005], [1, 0, 1]);
    line::end();
}

// No line through the words, a word of p, a word with p added to it; the same with two present, where two
// words that are in range are straight.
fn crooked() {
    line::title(b"hear crooked rounds at the price:");
    hears(34, [1005, 2005, 3006], EVERYONE);
    hears(34, [P, 2005, 3005], EVERYONE);
    hears(35, [2003, 4003, P + 6003], EVERYONE);
    hears(35, [2003, 4003, P], [0, 1, 1]);
    hears(34, [1005, 2005, 3006], [0, 1, 1]);
    line::end();
}

// The greatest demand, one more, and p - 1; and as much as the supply that the record has already, and less.
fn demands() {
    line::title(b"hear demands:");
    opens(34, 0, 0, TOTALS - 1);
    opens(34, 0, 0, TOTALS);
    opens(34, 0, 0, P - 1);
    opens(34, 6, 6, 6);
    opens(34, 6, 6, 5);
    line::end();
}

// As much supply as demand, and more; the greatest, one more, and p - 1.
fn supplies() {
    line::title(b"hear supplies:");
    opens(35, 6, 0, 6);
    opens(35, 6, 0, 7);
    opens(35, TOTALS - 1, 0, TOTALS - 1);
    opens(35, TOTALS - 1, 0, TOTALS);
    opens(35, TOTALS - 1, 0, P - 1);
    line::end();
}

// Two faults in each call: 3 with 15, 15 with 8, 8 with 9, 9 with 10.
fn order() {
    line::title(b"hear order at the price:");
    of_totals(36, P, P, DEMAND, [0, 1, 0]);
    of_totals(34, P, P, DEMAND, [0, 1, 0]);
    of_totals(34, P, P, SUPPLY, EVERYONE);
    hears(34, [1005, 2006, 3005], EVERYONE);
    line::end();
}

// The record has these totals.
fn at_price(round: u64, demand: u64, supply: u64) -> Party {
    let mut q = first();
    q.k = 7;
    q.search = searches(2, 0, 1, 5, 3, 3);
    q.round = round;
    q.demand = demand;
    q.supply = supply;
    q
}

// The totals that the party is lent.
fn book(demand: u64, supply: u64) -> [u64; 14] {
    let mut totals = [P; 14];
    totals[1] = demand;
    totals[8] = supply;
    totals
}

// Ends the line with the record, which has had this demand and no supply.
fn heard(round: u64, demand: u64, messages: [u64; 3], present: [u8; 3]) {
    let sheets = [MAX; 762];
    let totals = book(2005, 4003);
    let q = at_price(round, demand, 0);
    record(hearing::hear(q, &totals, &sheets, &messages, &present));
    line::end();
}

fn hears(round: u64, messages: [u64; 3], present: [u8; 3]) {
    of_totals(round, 2005, 4003, messages, present);
}

fn of_totals(round: u64, demand: u64, supply: u64, messages: [u64; 3], present: [u8; 3]) {
    call(
        at_price(round, 5, 0),
        book(demand, supply),
        messages,
        present,
    );
}

// Everyone's share is the total itself.
fn opens(round: u64, demand: u64, supply: u64, total: u64) {
    let q = at_price(round, demand, supply);
    call(q, book(total, total), [total; 3], EVERYONE);
}

fn call(q: Party, totals: [u64; 14], messages: [u64; 3], present: [u8; 3]) {
    let sheets = [MAX; 762];
    line::number(code(hearing::hear(q, &totals, &sheets, &messages, &present)));
}

fn of_words(messages: &[u64], present: &[u8]) {
    let sheets = [MAX; 762];
    let totals = book(2005, 4003);
    let q = at_price(34, 0, 0);
    line::number(code(hearing::hear(q, &totals, &sheets, messages, present)));
}

fn of_sheets(sheets: &[u64]) {
    let totals = book(2005, 4003);
    let q = at_price(34, 0, 0);
    line::number(code(hearing::hear(q, &totals, sheets, &DEMAND, &EVERYONE)));
}

// Records whose searches are of seven prices, so that each takes at most three probes. Every clause of
// refusal 1 that bounds them is broken, by a record that differs from a sound one in one place. Asking
// judges the record, and prints 1; or 3, where it is sound and not over; or 0.
use crate::line;
use crate::records::{answer, asked, fresh, searches};
use record::Party;
use search::Search;

pub(crate) fn print() {
    firsts();
    seconds();
    finished();
    answers();
}

// A sound one; then searches 0 and 3; an answer and probes of the first before it ends; a first that
// has ended; probes two, three, and four; hi k + 2; and lo = hi.
fn firsts() {
    line::title(b"answer records, first search:");
    let good = searches(1, 4, 8, 1, 0, 0);
    asks(good);
    let mut s = good;
    s.which = 0;
    asks(s);
    s.which = 3;
    asks(s);
    s = good;
    s.first = 1;
    asks(s);
    s = good;
    s.spent = 1;
    asks(s);
    s = good;
    s.bracket.hi = 5;
    asks(s);
    s = good;
    s.probes = 2;
    asks(s);
    s.probes = 3;
    asks(s);
    s.probes = 4;
    asks(s);
    s = good;
    s.bracket.hi = 9;
    asks(s);
    s = good;
    s.bracket.lo = 8;
    asks(s);
    line::end();
}

// A sound one, after a first that gave 3 in three probes: of its own it takes at most two, and has
// made one. Then the first gave 7, and 8; it took four; own probes are none, fewer than none, and two
// with hi - lo above 1; hi is 4, and 5; and lo = hi.
fn seconds() {
    line::title(b"answer records, second search:");
    let good = searches(2, 0, 2, 4, 3, 3);
    asks(good);
    let mut s = good;
    s.first = 7;
    asks(s);
    s.first = 8;
    asks(s);
    s = good;
    s.spent = 4;
    asks(s);
    s = good;
    s.probes = 3;
    asks(s);
    s.probes = 2;
    asks(s);
    s.probes = 5;
    asks(s);
    s = good;
    s.bracket.hi = 4;
    asks(s);
    s.bracket.hi = 5;
    asks(s);
    s = good;
    s.bracket.lo = 2;
    asks(s);
    line::end();
}

// Own probes two, and three: one above the limit of 3, though not of 7. Then the first gave 0, so that
// the second is over as it begins; a probe of its own, and hi 2.
fn finished() {
    line::title(b"answer records, over:");
    let mut s = searches(2, 1, 2, 5, 3, 3);
    asks(s);
    s.probes = 6;
    asks(s);
    let none = searches(2, 0, 1, 3, 0, 3);
    asks(none);
    s = none;
    s.probes = 4;
    asks(s);
    s = none;
    s.bracket.hi = 2;
    asks(s);
    line::end();
}

// The first gave 7, and the lowest is 4, 3, or none; it gave 0; the second goes on, and the first.
fn answers() {
    line::title(b"answers of seven prices:");
    for s in [
        searches(2, 3, 4, 6, 7, 3),
        searches(2, 2, 3, 6, 7, 3),
        searches(2, 7, 8, 6, 7, 3),
        searches(2, 0, 1, 3, 0, 3),
        searches(2, 2, 4, 5, 7, 3),
        searches(1, 4, 8, 1, 0, 0),
    ] {
        answer(searching(s));
    }
    line::end();
}

// The round is one that goes with the searches, the last where there is a price.
fn searching(s: Search) -> Party {
    let mut q = fresh();
    q.k = 7;
    q.search = s;
    if search::clears(s) {
        q.round = 36;
    }
    q
}

fn asks(s: Search) {
    asked(searching(s));
}

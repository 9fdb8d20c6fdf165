// Probe limits, middles, ends, and both searches by hand. These print which one is on, lo, hi, the
// probes done, what the first gave and its probes, and whether both are over.
ghost use Rattle.std.specs.Prelude.{◌≡◌, ◌+◌, ◌<◌};

use search::{Bracket, Search};

const MAX: u64 = u64::MAX;

pub(crate) fn print() {
    limits();
    most();
    middles();
    ends();
    first_search();
    second_searches();
    no_price();
    other_verdicts();
    finishes();
    prices();
    clearances();
}

fn limits() {
    report::title(b"probe limits:");
    for k in [0, 1, 2, 3, 4, 7, 8, 1023, 1024, MAX] {
        report::number(search::limit(k));
    }
    report::end();
}

// 2P.
fn most() {
    report::title(b"probe limits of both searches:");
    for k in [0, 1, 4, 1024, MAX] {
        report::number(search::most_probes(k));
    }
    report::end();
}

fn middles() {
    report::title(b"middles:");
    for (lo, hi) in [(0, 5), (2, 5), (3, 4), (MAX, MAX), (MAX - 1, MAX), (9, 2)] {
        report::number(search::middle(Bracket { lo, hi }));
    }
    report::end();
}

// Neighbours; further apart; the same; and the wrong way round.
fn ends() {
    report::title(b"brackets:");
    for (lo, hi) in [(0, 1), (MAX - 1, MAX), (0, 2), (0, MAX), (2, 2), (2, 1)] {
        end_word(search::over(Bracket { lo, hi }));
    }
    report::end();
}

// By the verdicts 1 at index 2 and 0 at index 3, which ends it with 2. The second begins at lo 0 and
// hi 3.
fn first_search() {
    report::title(b"a first search of 4 prices:");
    let start = searches(1, 0, 5, 0, 0, 0);
    shown(start);
    let raised = heard(start, 1);
    heard(raised, 0);
    report::end();
}

// From there a verdict of 1 moves hi. By 1 at index 1 the lowest is 1; by 0, and 1 at index 2, it is
// 2; by 0 at both there is none.
fn second_searches() {
    let start = searches(2, 0, 3, 2, 2, 2);
    report::title(b"its second search, lowest 1:");
    heard(start, 1);
    report::end();

    report::title(b"its second search, lowest 2:");
    let raised = heard(start, 0);
    heard(raised, 1);
    report::end();

    report::title(b"its second search, none:");
    let same = heard(start, 0);
    heard(same, 0);
    report::end();
}

// By 0 at indices 2 and 1. The first gives 0, and the second is over at once.
fn no_price() {
    report::title(b"a search of 4 prices with none:");
    let lowered = heard(searches(1, 0, 5, 0, 0, 0), 0);
    heard(lowered, 0);
    report::end();
}

// Any other number counts as 0, in either search.
fn other_verdicts() {
    report::title(b"other verdicts:");
    heard(searches(1, 0, 5, 0, 0, 0), 2);
    heard(searches(2, 0, 3, 2, 2, 2), 2);
    heard(searches(2, 0, 3, 2, 2, 2), MAX);
    report::end();
}

// The second, where its ends are neighbours and where they are not; and no other search.
fn finishes() {
    report::title(b"finished:");
    for s in [
        searches(2, 1, 2, 4, 2, 2),
        searches(2, 1, 3, 3, 2, 2),
        searches(1, 1, 2, 4, 2, 2),
        searches(3, 1, 2, 4, 2, 2),
    ] {
        end_word(search::finished(s));
    }
    report::end();
}

// The first gave 7 and the lowest is 4, 3, 7, 1, or none; it gave 0; and it gave the largest number,
// where the sum is too large for a u64.
fn prices() {
    report::title(b"price indices:");
    for hi in [4, 3, 7, 1, 8] {
        price(7, hi);
    }
    price(0, 1);
    price(MAX, MAX);
    price(MAX, 1);
    report::end();
}

// Both have ended: with a lowest balanced index, without one, and with no price. Then the second goes on,
// and the first is on.
fn clearances() {
    report::title(b"ended at a price:");
    for s in [
        searches(2, 1, 2, 4, 2, 2),
        searches(2, 2, 3, 4, 2, 2),
        searches(2, 0, 1, 2, 0, 2),
        searches(2, 1, 3, 3, 2, 2),
        searches(1, 1, 2, 4, 2, 2),
    ] {
        report::yes_or_no(search::clears(s));
    }
    report::end();
}

fn price(first: u64, hi: u64) {
    report::number(search::price(searches(2, 0, hi, 0, first, 0)));
}

// The numbers in the order in which they are printed.
fn searches(which: u64, lo: u64, hi: u64, probes: u64, first: u64, spent: u64) -> Search
    ensures { result.probes ≡ probes }
{
    Search {
        which,
        bracket: Bracket { lo, hi },
        probes,
        first,
        spent,
    }
}

// The searches after the verdict.
fn heard(s: Search, verdict: u64) -> Search
    requires { s.probes < 10 }
    ensures { result.probes ≡ s.probes + 1 }
{
    let after = search::next(s, verdict);
    shown(after);
    after
}

fn shown(s: Search) {
    report::number(s.which);
    report::number(s.bracket.lo);
    report::number(s.bracket.hi);
    report::number(s.probes);
    report::number(s.first);
    report::number(s.spent);
    end_word(search::finished(s));
}

fn end_word(over: bool) {
    if over {
        report::word(b"over");
    } else {
        report::word(b"open");
    }
}

// The roll: who is in, and that nobody is in twice. A call prints its refusal's number, or 0.
use crate::line;
use crate::of_adding::{adds, number_of, opened, sent};
use crate::records::{fresh, holding, two};
use fields::P;
use record::Party;
use roll::Roll;

const MAX: u64 = u64::MAX;

pub(crate) fn print() {
    resent();
    numbers();
    counts();
    marks();
    last();
}

// A desk sends its bid, the same bid again, and another table's shares under its number. Then
// another bidder comes, and the first one once more. Two of the five are added and counted.
fn resent() {
    line::title(b"added:");
    let first = sent(opened(fresh()), 64, 6, 1);
    line::title(b"added again:");
    let same = sent(first, 64, 6, 1);
    line::title(b"added with other shares:");
    let kept = sent(same, 64, 8, 2);
    line::title(b"added by another:");
    let second = sent(kept, 1000, 8, 2);
    line::title(b"added once more:");
    sent(second, 64, 6, 1);
}

// Bidders are 1 to 1,000. A roll has 1,024 places, of which 1,031 would be that of bidder 7 again.
fn numbers() {
    line::title(b"add bidders:");
    let q = fresh();
    adds(q, 0);
    adds(q, 1);
    adds(q, 1000);
    adds(q, 1001);
    adds(q, 1031);
    line::end();
}

// Bids that are as many as the marks, one more, one fewer.
fn counts() {
    line::title(b"add counts:");
    let mut q = holding(2, two());
    adds(q, 7);
    q.bids = 3;
    adds(q, 7);
    q.bids = 1;
    adds(q, 7);
    line::end();
}

// The mark of bidder 1,000; marks of nobody, at places 0, 1,001 and 1,023; one that is not counted;
// and one beside those of every bidder, which makes 1,001.
fn marks() {
    line::title(b"add marks:");
    for (bids, place) in [(1, 1000), (1, 0), (1, 1001), (1, 1023), (0, 1023)] {
        with_mark(bids, place);
    }
    adds(holding(1001, all_but_500().mark(500).mark(0)), 7);
    line::end();
}

fn with_mark(bids: u64, place: u64) {
    adds(holding(bids, Roll::empty().mark(place)), 7);
}

// Document 01 has "bid 1,000 passes, 1,001 is 4". With a roll every number is marked by then: the
// bidder that was missing passes, and any bid after it is 14. By document 02 only the rehearsal gives
// 4.
fn last() {
    line::title(b"the last bidder:");
    let full = sent(opened(holding(999, all_but_500())), 500, 6, 1);
    line::title(b"after the last bidder:");
    every(full.party);
    adds(full.party, 0);
    adds(full.party, 1001);
    line::end();
}

// Places 1 to 1,000, but for 500, which is bit 52 of the eighth word. The first word lacks bit 0, and
// the last one has bits 0 to 40.
fn all_but_500() -> Roll {
    let mut words = [MAX; 16];
    words[0] = MAX - 1;
    words[7] = MAX - (1 << 52);
    words[15] = (1 << 41) - 1;
    Roll { words }
}

// 14, if that is the number of every bidder's bid.
fn every(q: Party) {
    let mut same = true;
    for bidder in 1..=1000 {
        same = same & (number_of(q, bidder, P - 1, 1) == 14);
    }
    if same {
        line::number(14);
    } else {
        line::word(b"differ");
    }
}

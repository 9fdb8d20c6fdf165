// Both searches: the second begins where the first ends, with the same step and the sides exchanged.
ghost use Rattle.std.specs.Prelude.{◌≡◌, ◌+◌, ◌^◌, ◌<◌};
ghost use Rattle.search.specs.Searches.{side, moves_lo, turned, next, finished, price, clears, bounded, sound};

use crate::bracket::{Bracket, limit, middle, over, step};

#[derive(Clone, Copy)]
pub struct Search {
    // which one is on, 1 or 2: a number, since `record_words::party_of` reads it from any word, and `sound` judges it
    pub which: u64,
    pub bracket: Bracket,
    // probes done, of both
    pub probes: u64,
    // what the first gave, and how many probes it took: 0 until it ends
    pub first: u64,
    pub spent: u64,
}

// Whether a verdict moves lo: in the first search a 1 does, in the second it moves hi. A verdict is a number, since
// `moves_lo` of specs/Searches.antt says of any what it does.
fn moves_lo(which: u64, verdict: u64) -> bool
    ensures { result ≡ moves_lo which verdict }
{
    if which == 2 {
        verdict != 1
    } else {
        verdict == 1
    }
}

// Where the first search has ended, the second begins: its hi is the first's, one past its answer.
fn turned(s: Search) -> Search
    ensures { result ≡ turned s }
{
    let b = s.bracket;
    if !((s.which == 1) & over(b)) {
        return s;
    }
    Search {
        which: 2,
        bracket: Bracket { lo: 0, hi: b.hi },
        probes: s.probes,
        first: b.lo,
        spent: s.probes,
    }
}

// The searches after the verdict at the middle.
pub fn next(s: Search, verdict: u64) -> Search
    requires { s.probes + 1 < 2 ^ 64 }
    ensures { result ≡ next s verdict }
{
    turned(Search {
        which: s.which,
        bracket: step(s.bracket, moves_lo(s.which, verdict)),
        probes: s.probes + 1,
        first: s.first,
        spent: s.spent,
    })
}

// Whether both have ended.
pub fn finished(s: Search) -> bool
    ensures { result ≡ finished s }
{
    (s.which == 2) & over(s.bracket)
}

// The price index: hi is the lowest balanced index, unless it is past the first's answer.
pub fn price(s: Search) -> u64
    ensures { result ≡ price s }
{
    let b = s.bracket;
    if b.hi <= s.first {
        return middle(Bracket {
            lo: s.first,
            hi: b.hi,
        });
    }
    s.first
}

// Whether both have ended at a price, which is worked out only then.
pub fn clears(s: Search) -> bool
    ensures { result ≡ clears s }
{
    if !finished(s) {
        return false;
    }
    price(s) != 0
}

// The bounds of a search of k indices that has made m probes.
fn bounded(k: u64, m: u64, b: Bracket) -> bool
    ensures { result ≡ bounded k m b }
{
    if b.hi <= b.lo {
        return false;
    }
    let most = limit(k);
    (b.hi - 1 <= k) & (m <= most) & !((m == most) & (1 < b.hi - b.lo))
}

// The last index that the search which is on may give.
fn last(k: u64, s: Search) -> u64
    ensures { result ≡ side s.which k s.first }
{
    if s.which == 2 { s.first } else { k }
}

// Whether these are searches of k indices. The one that is on is bounded by the last index that it may
// give, and counts its own probes. The first goes on, and has given and spent nothing yet.
pub fn sound(k: u64, s: Search) -> bool
    ensures { result ≡ sound k s }
{
    let b = s.bracket;
    if s.probes < s.spent {
        return false;
    }
    if !bounded(last(k, s), s.probes - s.spent, b) {
        return false;
    }
    if s.which == 2 {
        return (s.first <= k) & (s.spent <= limit(k));
    }
    (s.which == 1) & !over(b) & (s.first == 0) & (s.spent == 0)
}

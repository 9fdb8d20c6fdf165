// One search: a bracket, which each verdict narrows.
ghost use Rattle.std.specs.Prelude.{◌≡◌};
ghost use Rattle.search.specs.Bracket.{middle, over, raise, lower, step};
ghost use Rattle.search.specs.Limit.{limit, most_probes};

// What is sought lies between lo and hi.
#[derive(Clone, Copy)]
pub struct Bracket {
    pub lo: u64,
    pub hi: u64,
}

// The index to probe. The halves are added, since lo + hi may be too large for a u64.
pub fn middle(b: Bracket) -> u64
    ensures { result ≡ middle b }
{
    b.lo / 2 + b.hi / 2 + (b.lo % 2 + b.hi % 2) / 2
}

// Whether nothing is left to probe.
pub fn over(b: Bracket) -> bool
    ensures { result ≡ over b }
{
    if b.hi <= b.lo {
        return false;
    }
    b.hi - b.lo == 1
}

// A verdict that moves lo.
fn raise(b: Bracket) -> Bracket
    ensures { result ≡ raise b }
{
    Bracket {
        lo: middle(b),
        hi: b.hi,
    }
}

// A verdict that moves hi.
fn lower(b: Bracket) -> Bracket
    ensures { result ≡ lower b }
{
    Bracket {
        lo: b.lo,
        hi: middle(b),
    }
}

// The bracket after a verdict at its middle, which moves lo or hi.
pub(crate) fn step(b: Bracket, up: bool) -> Bracket
    ensures { result ≡ step b up }
{
    if up { raise(b) } else { lower(b) }
}

// How many probes a search of k indices may take: so many binary digits has k.
pub fn limit(k: u64) -> u64
    ensures { result ≡ limit k }
{
    64 - u64::leading_zeros(k) as u64
}

// How many both searches may take: so many sheets are lent.
pub fn most_probes(k: u64) -> u64
    ensures { result ≡ most_probes k }
{
    2 * limit(k)
}

// Judging a bid's table, and the prices.
ghost use Rattle.std.specs.Prelude.{◌≡◌, ◌≤◌, ◌<◌, leb, length};
ghost use Rattle.bid.specs.Table.{most};
ghost use Rattle.sections.specs.Sections.{at_line, passed, rising, table_fault, unless, xor_of};

use bid::MOST;
use ranges::{HIGHEST_PRICE, first_bend};
use refusal::Refusal;

// Why an input is refused, and the line that is named.
#[derive(Clone, Copy, Debug, PartialEq, Eq)]
pub struct Fault {
    pub refusal: Refusal,
    pub line: u64,
}

impl Fault {
    pub fn new(refusal: Refusal, line: u64) -> Fault
        ensures { result ≡ at_line refusal line }
    {
        Fault { refusal, line }
    }
}

// The first fault of a bid that was read whole, its first amount on the given line.
pub(crate) fn table_fault(table: &[u64], half: usize, line: u64) -> Result<(), Fault>
    requires { (half ≤ length table.now) × (length table.now ≤ 512) × (line < 1_000_000) }
    ensures { result ≡ unless (table_fault half line table.now) tt }
{
    let small = first_large(table);
    if small != table.len() {
        return Err(Fault::new(Refusal::AmountTooLarge, line + small as u64));
    }
    let demand = first_bend(&table[..half], false);
    if demand != half {
        return Err(Fault::new(Refusal::NotMonotone, line + demand as u64));
    }
    let supply = first_bend(&table[half..], true);
    if supply != table.len() - half {
        return Err(Fault::new(Refusal::NotMonotone, line + (half + supply) as u64));
    }
    Ok(())
}

// How many amounts stand before the first that is too large. A count and no `Option`, as `passed` and `ranges::first_bend` have it.
fn first_large(table: &[u64]) -> usize
    ensures { result ≡ passed (λ a. leb a most) table.now }
{
    table
        .iter()
        .position(|amount| MOST < *amount)
        .unwrap_or(table.len())
}

// How many prices rise, each above the one before it and at most 1,000,000 pence, before the first
// that does not.
pub(crate) fn rising(prices: &[u64]) -> usize
    ensures { result ≡ rising 0 prices.now }
{
    let mut last = 0;
    for (i, price) in prices.iter().enumerate() {
        if !((last < *price) & (*price <= HIGHEST_PRICE)) {
            return i;
        }
        last = *price;
    }
    prices.len()
}

// The seeds' exclusive or.
pub(crate) fn xor_of(seeds: &[u64]) -> u64
    ensures { result ≡ xor_of seeds.now }
{
    let mut xor = 0;
    for seed in seeds {
        xor = xor ^ *seed;
    }
    xor
}

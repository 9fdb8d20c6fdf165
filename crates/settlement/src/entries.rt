// What a page is laid out of: a price, and the amounts of each bidder.
ghost use Rattle.std.specs.Prelude.{◌≡◌, true, cond, ℕ, ◌*◌, ◌≤◌, eqb, length};
ghost use Rattle.std.specs.Simd.{first_chunks};
ghost use Rattle.ranges.specs.Sizes.{highest_price};
ghost use Rattle.settlement_page.specs.Page.{layout, is_price, all_in_range};

use ranges::HIGHEST_PRICE;
use settlement_page::in_range;

// Wanted and got, of a buyer and of a seller, for each of 1,000 bidders.
pub const ENTRIES: usize = 4000;

pub(crate) const PAIRS: usize = 2000;

pub(crate) fn is_price(price: u64) -> bool
    ensures { result ≡ is_price price }
{
    (1 <= price) & (price <= HIGHEST_PRICE)
}

// The amounts in pairs: what is wanted, and what is got.
pub(crate) fn pairs(entries: &[u64]) -> &[[u64; 2]]
    requires { length entries.now ≡ 4000 }
    ensures { result.now ≡ first_chunks 2 2000 entries.now }
{
    entries.as_chunks::<2>().0
}

// No amount is too large, and nobody gets more than is wanted.
pub(crate) fn all_in_range(entries: &[u64]) -> bool
    requires { length entries.now ≡ 4000 }
    ensures { result ≡ all_in_range entries.now }
{
    for [wanted, got] in pairs(entries) {
        if !in_range(*wanted, *got) {
            return false;
        }
    }
    true
}

// How many lines they are laid out in, at any price: one for each pair that wants any.
pub(crate) fn line_count(entries: &[u64]) -> usize
    requires { (length entries.now ≡ 4000) × (all_in_range entries.now ≡ true) }
    ensures { (result ≤ 2000) × ((price : ℕ) → price ≤ highest_price → length (layout price entries.now) ≡ 61 * result) }
{
    let mut count = 0;
    for [wanted, _] in pairs(entries) {
        count += wants(*wanted);
    }
    count
}

fn wants(amount: u64) -> usize
    ensures { result ≡ cond (eqb amount 0) 0 1 }
{
    if amount == 0 {
        return 0;
    }
    1
}

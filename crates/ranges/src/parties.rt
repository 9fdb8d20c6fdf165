// Who a call is for, and which prices there are.
ghost use Rattle.std.specs.Prelude.{◌≡◌, ◌&&◌};
ghost use Rattle.ranges.specs.Sizes.{party, listed};

// In pence.
pub const HIGHEST_PRICE: u64 = 1_000_000;

// One of n parties.
pub fn is_party(n: u64, own: u64) -> bool
    ensures { result ≡ party n own }
{
    (3 <= n) & (n <= 9) & (1 <= own) & (own <= n)
}

// One of n parties, and k listed prices.
pub fn on_list(n: u64, own: u64, k: u64) -> bool
    ensures { result ≡ (party n own && listed k) }
{
    is_party(n, own) & ((1 <= k) & (k <= 1024))
}

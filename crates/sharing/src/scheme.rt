// What the two fields have in common: the threshold.
ghost use Rattle.std.specs.Prelude.{◌≡◌};
ghost use Rattle.sharing.specs.Scheme.{threshold};

// t, for n parties.
pub fn threshold(n: u64) -> u64
    ensures { result ≡ threshold n }
{
    if n == 0 { 0 } else { (n - 1) / 2 }
}

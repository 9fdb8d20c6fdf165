// Lines through amounts.
ghost use Rattle.std.specs.Prelude.{◌≡◌, ◌≤◌, ◌<◌, get_or};
ghost use Rattle.fields.specs.Gap.{amount_inverses};
ghost use Rattle.lowering.specs.Lines.{amount_line};

use crate::words::Lines;
use fields::AmountShare;

// Words as amounts.
pub struct Amounts;

impl Lines for Amounts {
    ghost line = { amount_line };

    fn at_zero(&self, r: u64, y: u64, x: u64, z: u64) -> u64
        requires { (r < x) × (x ≤ 9) }
        ensures { result ≡ amount_line r y x z }
    {
        let own = AmountShare(y);
        let times = own.sub(AmountShare(z)).0 * r;
        AmountShare(times)
            .mul_add(AmountShare(inverse(x - r)), own)
            .0
    }
}

// The inverse of a difference of points.
fn inverse(d: u64) -> u64
    requires { d < 10 }
    ensures { result ≡ get_or amount_inverses d 0 }
{
    match d {
        0 => 0,
        1 => 1,
        2 => 1152921504606846976,
        3 => 1537228672809129301,
        4 => 576460752303423488,
        5 => 1844674407370955161,
        6 => 1921535841011411626,
        7 => 1976436865040309101,
        8 => 288230376151711744,
        _ => 2049638230412172401,
    }
}

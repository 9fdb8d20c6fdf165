// The byte product by itself, exported so that its time can be measured.
#![tactic(auto)]

ghost use Rattle.std.specs.Prelude.{◌≡◌};
ghost use Rattle.fields.specs.Byte.{bytes};

use fields::BitShare;

#[unsafe(no_mangle)]
pub extern "C" fn clockivy_byte_product(a: u8, b: u8) -> u8
    ensures { result ≡ bytes.mul a b }
{
    BitShare(a).mul(BitShare(b)).0
}

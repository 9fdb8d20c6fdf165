// Lines through words of two bytes: through the low ones and through the high ones, which have their points in
// common.
ghost use Rattle.std.specs.Prelude.{◌≡◌, ◌≤◌, ◌<◌, get_or};
ghost use Rattle.fields.specs.Byte.{bytes};
ghost use Rattle.fields.specs.Gap.{byte_gap};
ghost use Rattle.fields.specs.Table.{powers};
ghost use Rattle.lowering.specs.Lines.{step, along, pair_line};

use crate::words::Lines;
use fields::{ByteTables, exponent};

// By the tables, words of two bytes.
impl Lines for ByteTables {
    ghost line = { pair_line };

    // The line through a word at 0 has that word there; and 0 has no logarithm.
    fn at_zero(&self, r: u64, y: u64, x: u64, z: u64) -> u64 {
        if r == 0 {
            return y % 65536;
        }
        let by = step(r as u8, x as u8, self);
        let low = line(by, (y % 256) as u8, (z % 256) as u8, self);
        let high = line(by, (y / 256 % 256) as u8, (z / 256 % 256) as u8, self);
        low as u64 + 256 * (high as u64)
    }
}

// The exponent of r / (x - r). That of an inverse is what is missing to 255, since 03h to the power of 255 is 1.
fn step(r: u8, x: u8, tables: &ByteTables) -> u8
    requires { (0 < r) × (r < x) × (x ≤ 9) }
    ensures { get_or powers result 0 ≡ step bytes byte_gap r x }
{
    exponent(tables.log(r), 255 - tables.log(x ^ r))
}

// The value at 0 of the line through y and z, where `by` is the exponent of what their points come to.
fn line(by: u8, y: u8, z: u8, tables: &ByteTables) -> u8
    ensures { result ≡ along bytes (get_or powers by 0) y z }
{
    let difference = y ^ z;
    if difference == 0 {
        return y;
    }
    y ^ tables.power(exponent(tables.log(difference), by))
}

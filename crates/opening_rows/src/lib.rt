// What the words of all n open to, where many openings are made at once. What a byte brings to the sums of an opening
// is additive in it, so it is read from two rows, one for its low four bits and one for its high four.
#![tactic(auto)]

ghost use Rattle.std.specs.Prelude.{◌≡◌, ◌*◌, ◌≤◌, ◌<◌, length};
ghost use Rattle.opening_rows.specs.Rows.{Brings, RowTo, RowsOf, Doubled, Spread};

use fields::ByteTables;
use openings::terms;
use sharing::threshold;
use weights::byte_row;

// What a byte of party i + 1 brings, by the rows of n parties, which who asks has filled.
pub fn brought(rows: &[u64], i: usize, byte: u64) -> u64
    requires { (length rows.now ≡ 288) × (i < 9) × (byte < 256) }
    ensures { Brings rows.now i byte result }
{
    let low = 32 * i + (byte % 16) as usize;
    let high = 32 * i + 16 + (byte / 16) as usize;
    rows[low] ^ rows[high]
}

// The rows of n parties, whose number was judged before, by tables that many openings have in common.
pub fn fill_rows(n: u64, rows: &mut [u64], tables: &ByteTables)
    requires { (3 ≤ n) × (n ≤ 9) × (length rows.old ≡ 288) }
    ensures { RowsOf n rows.new }
{
    let row = byte_row(n);
    let count = n - threshold(n);
    for (i, weight) in row[..n as usize].iter().enumerate() {
        let from = 32 * i;
        let to = from + 16;
        let end = to + 16;
        let point = i as u8 + 1;
        fill_row(*weight, 1, point, count, &mut rows[from..to], tables);
        fill_row(*weight, 16, point, count, &mut rows[to..end], tables);
    }
}

// One row: what 0, unit, 2 unit, .. 15 unit bring.
fn fill_row(weight: u8, unit: u8, point: u8, count: u64, row: &mut [u64], tables: &ByteTables)
    requires { (0 < weight) × (0 < point) × (count ≤ 5) × (unit ≤ 16) × (length row.old ≡ 16) × Spread unit }
    ensures { RowTo 16 weight unit point count row.new }
{
    let one = terms(weight, unit, point, count, tables);
    let two = terms(weight, 2 * unit, point, count, tables);
    let four = terms(weight, 4 * unit, point, count, tables);
    let eight = terms(weight, 8 * unit, point, count, tables);
    row[0] = 0;
    double(1, one, row);
    double(2, two, row);
    double(4, four, row);
    double(8, eight, row);
}

// As many entries more: those that are there, with one term added to each.
fn double(size: usize, term: u64, row: &mut [u64])
    requires { 2 * size ≤ length row.old }
    ensures { Doubled size term row.old row.new }
{
    // By index: of two parts of the slice, lent by `split_at_mut`, nothing would be known of what is written.
    for k in 0..size {
        row[size + k] = row[k] ^ term;
    }
}

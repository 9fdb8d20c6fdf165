// The weights of bytes.
ghost use Rattle.std.specs.Prelude.{◌≡◌, [], ◌-◌, min, get_or};
ghost use Rattle.weights.specs.Rows.{byte_rows};

use crate::row::row;

// The weights of n parties stand in row n - 3.
const WEIGHTS: [[u8; 9]; 7] = [
    [1, 1, 1, 0, 0, 0, 0, 0, 0],
    [83, 247, 105, 204, 0, 0, 0, 0, 0],
    [1, 208, 208, 209, 209, 0, 0, 0, 0],
    [208, 184, 105, 104, 185, 209, 0, 0, 0],
    [1, 1, 1, 1, 1, 1, 1, 0, 0],
    [78, 83, 90, 247, 73, 105, 98, 243, 0],
    [1, 65, 65, 57, 57, 83, 83, 42, 42],
];

// The row of n parties; of fewer than 3 that of 3, of more than 9 that of 9.
pub fn byte_row(n: u64) -> [u8; 9]
    ensures { result ≡ get_or byte_rows (min (n - 3) 6) [] }
{
    row(WEIGHTS, n)
}

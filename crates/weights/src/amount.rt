// The weights of amounts.
ghost use Rattle.std.specs.Prelude.{◌≡◌, [], ◌-◌, min, get_or};
ghost use Rattle.weights.specs.Rows.{amount_rows};

use crate::row::row;
use fields::P;

// The weights of n parties stand in row n - 3.
const WEIGHTS: [[u64; 9]; 7] = [
    [3, P - 3, 1, 0, 0, 0, 0, 0, 0],
    [4, P - 6, 4, P - 1, 0, 0, 0, 0, 0],
    [5, P - 10, 10, P - 5, 1, 0, 0, 0, 0],
    [6, P - 15, 20, P - 15, 6, P - 1, 0, 0, 0],
    [7, P - 21, 35, P - 35, 21, P - 7, 1, 0, 0],
    [8, P - 28, 56, P - 70, 56, P - 28, 8, P - 1, 0],
    [9, P - 36, 84, P - 126, 126, P - 84, 36, P - 9, 1],
];

// The row of n parties; of fewer than 3 that of 3, of more than 9 that of 9.
pub fn amount_row(n: u64) -> [u64; 9]
    ensures { result ≡ get_or amount_rows (min (n - 3) 6) [] }
{
    row(WEIGHTS, n)
}

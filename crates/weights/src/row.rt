// What the two tables have in common: how a row is taken.
ghost use Rattle.std.specs.Prelude.{◌≡◌, [], ◌-◌, min, get_or};

// The row of n parties; of fewer than 3 that of 3, of more than 9 that of 9. Each arm reads the table at a
// place that the compiler knows, so no more than one row is written to the stack.
#[inline(always)]
pub fn row<T: Copy>(rows: [[T; 9]; 7], n: u64) -> [T; 9]
    ensures { result ≡ get_or rows (min (n - 3) 6) [] }
{
    match n {
        0..=3 => rows[0],
        4 => rows[1],
        5 => rows[2],
        6 => rows[3],
        7 => rows[4],
        8 => rows[5],
        _ => rows[6],
    }
}

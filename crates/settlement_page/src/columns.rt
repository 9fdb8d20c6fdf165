// Numbers in columns: right-aligned with spaces, and read again.
ghost use Rattle.std.specs.Prelude.{◌≡◌, cond, ◌+◌, ◌-◌, ◌*◌, ◌/◌, ◌%◌, ◌^◌, ◌≤◌, ◌<◌, eqb, length, replicate};
ghost use Rattle.decimal.specs.Decimal.{decimal};
ghost use Rattle.settlement_page.specs.Page.{right, in_tenths};
ghost use Rattle.settlement_page.specs.Line.{number_after, tenths_in};

pub(crate) const SPACE: u8 = 32;

// Fills the columns with a number that fits.
fn put_number(columns: &mut [u8], n: u64)
    requires { (1 ≤ length columns.old) × (n < 10 ^ length columns.old) }
    ensures { columns.new ≡ right (length columns.old) (decimal n) }
{
    let last = columns.len() - 1;
    columns[last] = last_digit(n);
    let mut rest = n / 10;
    // by index, since of what `iter_mut().rev()` leaves only the length is known
    for i in (0..last).rev() {
        columns[i] = digit_or_space(rest);
        rest = rest / 10;
    }
}

// Fills the columns with a number of tenths, which does not reach the first few.
pub(crate) fn put_tenths(columns: &mut [u8], unreached: usize, mark: u8, n: u64)
    requires { (unreached + 3 ≤ length columns.old) × (n / 10 < 10 ^ (length columns.old - unreached - 2)) }
    ensures { columns.new ≡ right (length columns.old) (in_tenths mark n) }
{
    columns[..unreached].fill(SPACE);
    put_last(&mut columns[unreached..], mark, n);
}

// The same in columns all of which it may reach.
fn put_last(columns: &mut [u8], mark: u8, n: u64)
    requires { (3 ≤ length columns.old) × (n / 10 < 10 ^ (length columns.old - 2)) }
    ensures { columns.new ≡ right (length columns.old) (in_tenths mark n) }
{
    let whole = columns.len() - 2;
    put_number(&mut columns[..whole], n / 10);
    columns[whole] = mark;
    columns[whole + 1] = last_digit(n);
}

pub(crate) fn last_digit(n: u64) -> u8
    ensures { result ≡ 48 + n % 10 }
{
    48 + (n % 10) as u8
}

// The last digit of what is left of a number, and a space once nothing is.
pub(crate) fn digit_or_space(rest: u64) -> u8
    ensures { result ≡ cond (eqb rest 0) 32 (48 + rest % 10) }
{
    if rest == 0 {
        return SPACE;
    }
    last_digit(rest)
}

// The tenths that stand in 12 columns.
pub(crate) fn tenths(columns: &[u8]) -> u64
    requires { length columns.now ≡ 12 }
    ensures { result ≡ tenths_in columns.now }
{
    let whole = number(&columns[4..10]);
    10 * whole + digit(columns[11])
}

// The number whose digits stand in the columns.
fn number(columns: &[u8]) -> u64
    requires { length columns.now ≤ 6 }
    ensures { (result ≡ number_after 0 columns.now) × (result < 16 ^ 6) }
{
    let mut n = 0;
    for b in columns {
        n = 10 * n + digit(*b);
    }
    n
}

// The lower half of a byte.
fn digit(b: u8) -> u64
    ensures { result ≡ b % 16 }
{
    (b % 16) as u64
}

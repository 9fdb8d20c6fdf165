// Text in a lent buffer: bytes and decimal numbers, one after another.
ghost use Rattle.std.specs.Prelude.{[], ◌∷◌, ◌++◌, ◌+◌, ◌≤◌, length};
ghost use Rattle.decimal.specs.Decimal.{decimal};
ghost use Rattle.listing.specs.Text.{Wrote};

// Puts bytes at `at`, and answers where the next ones go.
pub(crate) fn append(out: &mut [u8], at: usize, text: &[u8]) -> usize
    requires { at + length text.now ≤ length out.old }
    ensures { Wrote out.old at text.now out.new result }
{
    let next = at + text.len();
    out[at..next].copy_from_slice(text);
    next
}

// Puts a number in decimal digits, of which there are at most 20.
pub(crate) fn append_number(out: &mut [u8], at: usize, n: u64) -> usize
    requires { at + 20 ≤ length out.old }
    ensures { Wrote out.old at (decimal n) out.new result × (result ≤ at + 20) }
{
    let mut digits = [0u8; 20];
    let many = io::decimal(n, &mut digits);
    append(out, at, &digits[..many])
}

// Puts a word and a number after it.
pub(crate) fn append_field(out: &mut [u8], at: usize, word: &[u8], n: u64) -> usize
    requires { at + length word.now + 20 ≤ length out.old }
    ensures { Wrote out.old at (word.now ++ decimal n) out.new result × (result ≤ at + length word.now + 20) }
{
    let place = append(out, at, word);
    append_number(out, place, n)
}

// The same at the end of a line.
pub(crate) fn append_last(out: &mut [u8], at: usize, word: &[u8], n: u64) -> usize
    requires { at + length word.now + 21 ≤ length out.old }
    ensures { Wrote out.old at (word.now ++ (decimal n ++ (10 ∷ []))) out.new result × (result ≤ at + length word.now + 21) }
{
    let place = append(out, at, word);
    let end = append_number(out, place, n);
    append(out, end, b"\n")
}

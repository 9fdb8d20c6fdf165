// Several lines at once: their numbers, and where the next line begins.
ghost use Rattle.std.specs.Prelude.{◌≡◌, ◌+◌, length, drop, unwrap_or};
ghost use Rattle.lines.specs.Lines.{past, first_line, numbers, bytes_of, formed};

use crate::line::read_line;

// How many lines were numbers before the first that was not, and where the next line begins.
#[derive(Clone, Copy)]
pub struct Numbers {
    pub formed: usize,
    pub next: usize,
}

// Fills a slice with the numbers of the lines that begin at `at`, 0 for a misshapen one.
pub fn read_numbers(input: &[u8], at: usize, into: &mut [u64]) -> Numbers
    ensures { (into.new ≡ numbers (length into.old) (drop at input.now))
        × (result.next ≡ at + bytes_of (length into.old) (drop at input.now))
        × (result.formed ≡ formed (length into.old) (drop at input.now)) }
{
    let mut formed = 0;
    let mut next = at;
    for (i, number) in into.iter_mut().enumerate() {
        let read = read_line(input, next);
        *number = read.line.unwrap_or(0);
        if (formed == i) & read.line.is_some() {
            formed = i + 1;
        }
        next = read.next;
    }
    Numbers { formed, next }
}

// A bid's table, read again. The answer is where the next bid begins.
pub fn read_table(input: &[u8], at: usize, table: &mut [u64]) -> usize
    ensures { (table.new ≡ numbers (length table.old) (drop at input.now))
        × (result ≡ at + bytes_of (length table.old) (drop at input.now)) }
{
    read_numbers(input, at, table).next
}

// The number on the line that stands i lines after the one at `at`.
pub fn price_at(input: &[u8], at: usize, i: u64) -> u64
    ensures { result ≡ unwrap_or (first_line (past i (drop at input.now))) 0 }
{
    let mut next = at;
    for _ in 0..i {
        next = read_line(input, next).next;
    }
    read_line(input, next).line.unwrap_or(0)
}

// The sections of the input, each read into a lent slice and judged.
ghost use Rattle.std.specs.Prelude.{◌≡◌, ◌+◌, ◌*◌, ◌≤◌, ◌<◌, length, drop};
ghost use Rattle.lines.specs.Lines.{numbers, bytes_of, formed};
ghost use Rattle.sections.specs.Sections.{xor_of, good_prices, bid_fault, bids_fault, unless};

use crate::table::{Fault, rising, table_fault, xor_of};
use lines::read_numbers;
use refusal::Refusal;

// How many seeds are numbers before the first line that is none, and their exclusive or.
#[derive(Clone, Copy)]
pub struct SeedsRead {
    pub formed: usize,
    pub xor: u64,
    pub next: usize,
}

// How many prices are good before the first that is not.
#[derive(Clone, Copy)]
pub struct PricesRead {
    pub good: usize,
    pub next: usize,
}

// Judges a number of bids, the first amount of the first on the given line. A table is lent to read each
// into. The answer is where the next line begins, or the first fault.
pub fn read_bids(
    input: &[u8],
    at: usize,
    k: u64,
    bids: u64,
    line: u64,
    table: &mut [u64],
) -> Result<usize, Fault>
    requires { (k ≤ 256) × (bids ≤ 1000) × (line ≤ 1000) × (length table.old ≡ 2 * k) }
    ensures { result ≡ unless (bids_fault k bids line (drop at input.now)) (at + bytes_of (bids * (2 * k)) (drop at input.now)) }
{
    let mut next = at;
    for i in 0..bids {
        next = read_bid(input, next, k, line + i * (2 * k), table)?;
    }
    Ok(next)
}

// Judges one bid. It is read whole before it is judged.
fn read_bid(input: &[u8], at: usize, k: u64, line: u64, table: &mut [u64]) -> Result<usize, Fault>
    requires { (k ≤ 256) × (line < 1_000_000) × (length table.old ≡ 2 * k) }
    ensures { result ≡ unless (bid_fault k line (drop at input.now)) (at + bytes_of (2 * k) (drop at input.now)) }
{
    let read = read_numbers(input, at, table);
    if read.formed != table.len() {
        return Err(Fault::new(Refusal::Malformed, line + read.formed as u64));
    }
    table_fault(table, k as usize, line)?;
    Ok(read.next)
}

// Seeds are read into a lent slice, and mixed.
pub fn read_seeds(input: &[u8], at: usize, seeds: &mut [u64]) -> SeedsRead
    ensures { (result.formed ≡ formed (length seeds.old) (drop at input.now))
        × (result.xor ≡ xor_of (numbers (length seeds.old) (drop at input.now)))
        × (result.next ≡ at + bytes_of (length seeds.old) (drop at input.now)) }
{
    let read = read_numbers(input, at, seeds);
    SeedsRead {
        formed: read.formed,
        xor: xor_of(seeds),
        next: read.next,
    }
}

// Prices are read into a lent slice, and the good ones counted up to the first that is not.
pub fn read_prices(input: &[u8], at: usize, prices: &mut [u64]) -> PricesRead
    ensures { (result.good ≡ good_prices (length prices.old) 0 (drop at input.now))
        × (result.next ≡ at + bytes_of (length prices.old) (drop at input.now)) }
{
    let read = read_numbers(input, at, prices);
    PricesRead {
        good: rising(&prices[..read.formed]),
        next: read.next,
    }
}

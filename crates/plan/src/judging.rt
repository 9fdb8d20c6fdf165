// Judging the whole input, line by line, before anything is run.
ghost use Rattle.std.specs.Prelude.{◌≡◌, ◌+◌, ◌*◌, ◌≤◌, drop};
ghost use Rattle.lines.specs.Lines.{lines, bytes_of};
ghost use Rattle.sections.specs.Sections.{xor_of};
ghost use Rattle.plan.specs.Plan.{read_prices, read_bids};
ghost use Rattle.plan.specs.Judged.{seeds_of, prices_of, as_judged, judged_as};

use lines::read_line;
use refusal::Refusal;
use sections::{Fault, read_bids, read_prices, read_seeds};

// No auction has more bids.
const MOST_BIDS: u64 = 1000;

// An accepted input: its counts, the seeds' exclusive or, and where its prices and bids begin.
#[derive(Clone, Copy)]
pub struct Shape {
    pub n: u64,
    pub seed: u64,
    pub k: u64,
    pub bids: u64,
    pub prices_at: usize,
    pub bids_at: usize,
}

// The input's shape, or its first fault.
pub fn judge(input: &[u8]) -> Result<Shape, Fault>
    ensures { result ≡ judged_as input.now }
{
    let first = read_line(input, 0);
    let Some(n) = first.line else {
        return Err(Fault::new(Refusal::Malformed, 1));
    };
    if !((3 <= n) & (n <= 9)) {
        return Err(Fault::new(Refusal::OutOfRange, 1));
    }
    let m = n as usize;
    let mut seeds = [0u64; 9];
    let read = read_seeds(input, first.next, &mut seeds[..m]);
    if read.formed != m {
        return Err(Fault::new(Refusal::Malformed, 2 + read.formed as u64));
    }
    judge_prices(input, read.next, n, read.xor)
}

// The same from the count of prices on.
fn judge_prices(input: &[u8], at: usize, n: u64, seed: u64) -> Result<Shape, Fault>
    requires { (n ≤ 9) × (at ≡ bytes_of (n + 1) input.now) × (seed ≡ xor_of (seeds_of n input.now)) }
    ensures { result ≡ as_judged input.now (read_prices n (seeds_of n input.now) (lines (drop at input.now))) }
{
    let first = read_line(input, at);
    let Some(k) = first.line else {
        return Err(Fault::new(Refusal::Malformed, n + 2));
    };
    if !((1 <= k) & (k <= 256)) {
        return Err(Fault::new(Refusal::OutOfRange, n + 2));
    }
    let m = k as usize;
    let prices_at = first.next;
    let mut prices = [0u64; 256];
    let read = read_prices(input, prices_at, &mut prices[..m]);
    if read.good != m {
        return Err(Fault::new(Refusal::Malformed, n + 3 + read.good as u64));
    }
    judge_bids(input, read.next, n, seed, k, prices_at)
}

// The same from the count of bids on.
fn judge_bids(
    input: &[u8],
    at: usize,
    n: u64,
    seed: u64,
    k: u64,
    prices_at: usize,
) -> Result<Shape, Fault>
    requires { (n ≤ 9) × (k ≤ 256) × (prices_at ≡ bytes_of (n + 2) input.now) × (at ≡ bytes_of (n + 2 + k) input.now) × (seed ≡ xor_of (seeds_of n input.now)) }
    ensures { result ≡ as_judged input.now (read_bids n (seeds_of n input.now) k (prices_of n k input.now) (lines (drop at input.now))) }
{
    let first = read_line(input, at);
    let Some(bids) = first.line else {
        return Err(Fault::new(Refusal::Malformed, n + k + 3));
    };
    if MOST_BIDS < bids {
        return Err(Fault::new(Refusal::TooManyBids, n + k + 3));
    }
    let bids_at = first.next;
    let m = 2 * k as usize;
    let mut table = [0u64; 512];
    let next = read_bids(input, bids_at, k, bids, n + k + 4, &mut table[..m])?;
    if next < input.len() {
        return Err(Fault::new(Refusal::Malformed, n + k + 4 + bids * (2 * k)));
    }
    Ok(Shape {
        n,
        seed,
        k,
        bids,
        prices_at,
        bids_at,
    })
}

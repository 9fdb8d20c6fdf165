// From the bytes of the input to its settlement page.
#![tactic(auto)]

ghost use Rattle.std.specs.Prelude.{◌≡◌, length, replicate, Ok};
ghost use Rattle.settlement_page.specs.Page.{layout};
ghost use Rattle.settlement.specs.Write.{write_judgement};
ghost use Rattle.plan.specs.Judged.{judged_as};
ghost use Rattle.listing.specs.Text.{Wrote};
ghost use Rattle.settling.specs.Settlement.{settlement};

use entering::enter_bids;
use lines::price_at;
use listing::{write_no_price, write_refused};
use plan::{Shape, judge};
use running::run;
use settlement::{ENTRIES, write};

// What is lent for a page: 2,000 lines of 61 bytes.
pub const PAGE: usize = 122000;

// Judges the input, runs its auction, and writes the settlement page at the start of a buffer that is
// lent for it. The answer is how long it is.
pub fn settle(input: &[u8], out: &mut [u8; PAGE]) -> usize
    ensures { Wrote out.old 0 (settlement input.now) out.new result }
{
    match judge(input) {
        Err(fault) => write_refused(u64::from(fault.refusal), fault.line, out),
        Ok(shape) => settle_good(input, shape, out),
    }
}

// The same of an input that `judge` found good.
fn settle_good(input: &[u8], shape: Shape, out: &mut [u8]) -> usize
    requires { (judged_as input.now ≡ Ok shape) × (length out.old ≡ 122000) }
    ensures { Wrote out.old 0 (settlement input.now) out.new result }
{
    let ended = run(input, shape);
    let party = ended.party;
    let index = ended.course.answer;
    if index == 0 {
        return write_no_price(out);
    }
    let price = price_at(input, shape.prices_at, index - 1);
    let bids_at = shape.bids_at;
    let bids = shape.bids;
    let told = 4 * bids as usize;
    let mut entries = no_entries();
    enter_bids(
        input,
        bids_at,
        shape.k,
        bids,
        index,
        party,
        &mut entries[..told],
    );
    write_page(price, &entries, out)
}

// Room for the entries: an array, since there is no heap.
fn no_entries() -> [u64; ENTRIES]
    ensures { result ≡ replicate 4000 0 }
{
    [0u64; ENTRIES]
}

// Writes the lines. A page that is long enough, with entries in range at a listed price, is not refused.
fn write_page(price: u64, entries: &[u64; ENTRIES], out: &mut [u8]) -> usize
    ensures { write_judgement price entries.now out.old ≡ Ok tt
        → Wrote out.old 0 (layout price entries.now) out.new result }
{
    match write(price, entries, out) {
        Ok(count) => count as usize,
        Err(_) => 0,
    }
}

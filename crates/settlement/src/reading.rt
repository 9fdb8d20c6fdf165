// Reading a page.
ghost use Rattle.std.specs.Prelude.{◌≡◌, true, ◌≤◌, length};
ghost use Rattle.ranges.specs.Sizes.{highest_price};
ghost use Rattle.settlement.specs.Read.{entries_on, laid_out, read_judgement, read_left};

use crate::entries::{ENTRIES, PAIRS, is_price};
use refusal::{Judgement, Refusal};
use settlement_page::read_pair;

// Fills the lent entries with those that the page was laid out of, at the price that it was written
// at. Nothing is written of a page that no entries lay out to.
pub fn read(price: u64, page: &[u8], entries: &mut [u64]) -> Judgement
    ensures { (result ≡ read_judgement price page.now entries.old)
        × (entries.new ≡ read_left price page.now entries.old) }
{
    if !is_price(price) {
        return Err(Refusal::OutOfRange);
    }
    if entries.len() != ENTRIES {
        return Err(Refusal::WrongLength);
    }
    let mut shown = [0u64; ENTRIES];
    if !read_lines(price, page, &mut shown) {
        return Err(Refusal::Malformed);
    }
    entries.copy_from_slice(&shown);
    Ok(())
}

// Fills the entries of all pairs, and tells whether the page has their lines and nothing else. A `bool` beside the slice: entries
// given back in an `Option` would be 32,000 bytes of stack more.
fn read_lines(price: u64, page: &[u8], shown: &mut [u64]) -> bool
    requires { (price ≤ highest_price) × (length shown.old ≡ 4000) }
    ensures { (result ≡ laid_out price page.now) × (result ≡ true → shown.new ≡ entries_on page.now) }
{
    let mut at = 0;
    // by index, since the library promises nothing of what a slice lent as chunks (`as_chunks_mut`) ends as
    for pair in 0..PAIRS {
        let Some(read) = read_pair(&page[at..], price, pair as u64) else {
            return false;
        };
        shown[2 * pair] = read.wanted;
        shown[2 * pair + 1] = read.got;
        at += read.bytes;
    }
    at == page.len()
}

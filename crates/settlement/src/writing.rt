// Writing the page.
ghost use Rattle.std.specs.Prelude.{◌≡◌, true, ◌++◌, ◌+◌, ◌≤◌, ◌<◌, length, take, drop};
ghost use Rattle.ranges.specs.Sizes.{highest_price};
ghost use Rattle.settlement_page.specs.Page.{line_of, layout, in_range, all_in_range};
ghost use Rattle.settlement.specs.Write.{write_reply, write_left};

use crate::entries::{ENTRIES, all_in_range, is_price, line_count, pairs};
use refusal::Refusal;
use settlement_page::{LINE, put_line};

// Writes the lines at the start of the lent page. Nothing is written unless all of them fit. The answer
// is how many bytes they take, their newlines too.
pub fn write(price: u64, entries: &[u64], page: &mut [u8]) -> Result<u64, Refusal>
    ensures { (result ≡ write_reply price entries.now page.old)
        × (page.new ≡ write_left price entries.now page.old) }
{
    if !is_price(price) {
        return Err(Refusal::OutOfRange);
    }
    if entries.len() != ENTRIES {
        return Err(Refusal::WrongLength);
    }
    if !all_in_range(entries) {
        return Err(Refusal::AmountTooLarge);
    }
    let bytes = LINE * line_count(entries);
    if page.len() < bytes {
        return Err(Refusal::PageTooShort);
    }
    write_lines(price, entries, &mut page[..bytes]);
    Ok(bytes as u64)
}

// Fills a page that is just as long as the lines.
fn write_lines(price: u64, entries: &[u64], page: &mut [u8])
    requires { (price ≤ highest_price) × (length entries.now ≡ 4000) × (all_in_range entries.now ≡ true)
        × (length page.old ≡ length (layout price entries.now)) }
    ensures { page.new ≡ layout price entries.now }
{
    let mut at = 0;
    for (pair, [wanted, got]) in pairs(entries).iter().enumerate() {
        at = put_pair(page, at, price, pair as u64, *wanted, *got);
    }
}

// Puts the line of a pair at a place, unless it wants 0. The answer is where the next one goes.
fn put_pair(page: &mut [u8], at: usize, price: u64, pair: u64, wanted: u64, got: u64) -> usize
    requires { (price ≤ highest_price) × (pair < 2000) × (in_range wanted got ≡ true)
        × (at + length (line_of price pair wanted got) ≤ length page.old) }
    ensures { (page.new ≡ take at page.old ++ (line_of price pair wanted got ++ drop result page.old))
        × (result ≡ at + length (line_of price pair wanted got)) }
{
    let wants_none = wanted == 0;
    if wants_none {
        return at;
    }
    let end = at + LINE;
    put_line(&mut page[at..end], price, pair, wanted, got);
    end
}

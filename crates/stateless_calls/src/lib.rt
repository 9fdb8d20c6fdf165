// The calls that take no record, with their replies as numbers.
#![tactic(auto)]

ghost use Rattle.std.specs.Prelude.{◌≡◌};
ghost use Rattle.bid.specs.Split.{split_left};
ghost use Rattle.bid.specs.Entry.{split_entry_left};
ghost use Rattle.dealer.specs.Deal.{deal_left};
ghost use Rattle.settlement.specs.Write.{write_left};
ghost use Rattle.settlement.specs.Read.{read_left};
ghost use Rattle.stateless_calls.specs.Calls.{split_code, split_entry_code, deal_code, settlement_write_code, settlement_written, settlement_read_code};

use refusal::code;

// A party's shares of a bid.
pub fn split(n: u64, own: u64, k: u64, table: &[u64], coins: &[u64], shares: &mut [u64]) -> u64
    ensures { (result ≡ split_code n own k table.now coins.now shares.old)
        × (shares.new ≡ split_left n own k table.now coins.now shares.old) }
{
    code(bid::split(n, own, k, table, coins, shares))
}

// A party's share of one entry of a bid.
pub fn split_entry(
    n: u64,
    own: u64,
    k: u64,
    entry: u64,
    table: &[u64],
    coins: &[u64],
    shares: &mut [u64],
) -> u64
    ensures { (result ≡ split_entry_code n own k entry table.now coins.now shares.old)
        × (shares.new ≡ split_entry_left n own k entry table.now coins.now shares.old) }
{
    code(bid::split_entry(n, own, k, entry, table, coins, shares))
}

// A party's preprocessing of one probe.
pub fn deal(n: u64, own: u64, last: u64, words: &[u64], bytes: &[u8], sheet: &mut [u64]) -> u64
    ensures { (result ≡ deal_code n own last words.now bytes.now sheet.old)
        × (sheet.new ≡ deal_left n own last words.now bytes.now sheet.old) }
{
    code(dealer::deal(n, own, last, words, bytes, sheet))
}

// The settlement page of these entries at the price, and how many bytes its lines take.
pub fn settlement_write(price: u64, entries: &[u64], page: &mut [u8], written: &mut u64) -> u64
    ensures { (result ≡ settlement_write_code price entries.now page.old)
        × (page.new ≡ write_left price entries.now page.old)
        × (written.new ≡ settlement_written price entries.now page.old written.old) }
{
    match settlement::write(price, entries, page) {
        Ok(count) => {
            *written = count;
            0
        }
        Err(why) => u64::from(why),
    }
}

// The entries that a page was laid out of at the price.
pub fn settlement_read(price: u64, page: &[u8], entries: &mut [u64]) -> u64
    ensures { (result ≡ settlement_read_code price page.now entries.old)
        × (entries.new ≡ read_left price page.now entries.old) }
{
    code(settlement::read(price, page, entries))
}

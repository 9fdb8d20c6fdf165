// The calls, exported for C: those on a record, which is lent as its 64 words, and those that take none.
// Each answers 0, or the refusal's number, and writes what it gives into what it is lent; a refused call
// changes nothing that is lent. Beside them stands the version, by which a caller tells that the library is
// the one that it was written for.
#![tactic(auto)]

ghost use Rattle.std.specs.Prelude.{◌≡◌};
ghost use Rattle.bid.specs.Split.{split_left};
ghost use Rattle.bid.specs.Entry.{split_entry_left};
ghost use Rattle.dealer.specs.Deal.{deal_left};
ghost use Rattle.settlement.specs.Write.{write_left};
ghost use Rattle.settlement.specs.Read.{read_left};
ghost use Rattle.record_calls.specs.Calls.{open_code, open_totals, open_record, add_code, add_totals, add_record, answer_code, answer_index, answer_probes, fill_code, fill_hours, fill_remainder};
ghost use Rattle.round_calls.specs.Calls.{say_code, say_messages, hear_code, hear_record};
ghost use Rattle.stateless_calls.specs.Calls.{split_code, split_entry_code, deal_code, settlement_write_code, settlement_written, settlement_read_code};

// The version of these calls and of the record's words. It grows by one whenever any of them changes.
#[unsafe(no_mangle)]
pub extern "C" fn clockivy_version() -> u64
    ensures { result ≡ 2 }
{
    2
}

#[unsafe(no_mangle)]
pub extern "C" fn clockivy_open(
    n: u64,
    own: u64,
    k: u64,
    last: u64,
    totals: &mut [u64],
    words: &mut [u64],
) -> u64
    ensures { (result ≡ open_code n own k last totals.old words.old)
        × (totals.new ≡ open_totals n own k last totals.old words.old)
        × (words.new ≡ open_record n own k last totals.old words.old) }
{
    record_calls::open(n, own, k, last, totals, words)
}

#[unsafe(no_mangle)]
pub extern "C" fn clockivy_split(
    n: u64,
    own: u64,
    k: u64,
    table: &[u64],
    coins: &[u64],
    shares: &mut [u64],
) -> u64
    ensures { (result ≡ split_code n own k table.now coins.now shares.old)
        × (shares.new ≡ split_left n own k table.now coins.now shares.old) }
{
    stateless_calls::split(n, own, k, table, coins, shares)
}

#[unsafe(no_mangle)]
pub extern "C" fn clockivy_split_entry(
    n: u64,
    own: u64,
    k: u64,
    entry: u64,
    table: &[u64],
    coins: &[u64],
    shares: &mut [u64],
) -> u64
    ensures { (result ≡ split_entry_code n own k entry table.now coins.now shares.old)
        × (shares.new ≡ split_entry_left n own k entry table.now coins.now shares.old) }
{
    stateless_calls::split_entry(n, own, k, entry, table, coins, shares)
}

#[unsafe(no_mangle)]
pub extern "C" fn clockivy_deal(
    n: u64,
    own: u64,
    last: u64,
    words: &[u64],
    bytes: &[u8],
    sheet: &mut [u64],
) -> u64
    ensures { (result ≡ deal_code n own last words.now bytes.now sheet.old)
        × (sheet.new ≡ deal_left n own last words.now bytes.now sheet.old) }
{
    stateless_calls::deal(n, own, last, words, bytes, sheet)
}

#[unsafe(no_mangle)]
pub extern "C" fn clockivy_add(
    words: &mut [u64],
    totals: &mut [u64],
    bidder: u64,
    shares: &[u64],
) -> u64
    ensures { (result ≡ add_code words.old totals.old bidder shares.now)
        × (words.new ≡ add_record words.old totals.old bidder shares.now)
        × (totals.new ≡ add_totals words.old totals.old bidder shares.now) }
{
    record_calls::add(words, totals, bidder, shares)
}

#[unsafe(no_mangle)]
pub extern "C" fn clockivy_say(
    words: &[u64],
    totals: &[u64],
    sheets: &[u64],
    messages: &mut [u64],
) -> u64
    ensures { (result ≡ say_code words.now totals.now sheets.now messages.old)
        × (messages.new ≡ say_messages words.now totals.now sheets.now messages.old) }
{
    round_calls::say(words, totals, sheets, messages)
}

#[unsafe(no_mangle)]
pub extern "C" fn clockivy_hear(
    words: &mut [u64],
    totals: &[u64],
    sheets: &[u64],
    messages: &[u64],
    present: &[u8],
) -> u64
    ensures { (result ≡ hear_code words.old totals.now sheets.now messages.now present.now)
        × (words.new ≡ hear_record words.old totals.now sheets.now messages.now present.now) }
{
    round_calls::hear(words, totals, sheets, messages, present)
}

#[unsafe(no_mangle)]
pub extern "C" fn clockivy_answer(words: &[u64], index: &mut u64, probes: &mut u64) -> u64
    ensures { (result ≡ answer_code words.now)
        × (index.new ≡ answer_index words.now index.old)
        × (probes.new ≡ answer_probes words.now probes.old) }
{
    record_calls::answer(words, index, probes)
}

#[unsafe(no_mangle)]
pub extern "C" fn clockivy_fill(
    words: &[u64],
    amount: u64,
    hours: &mut u64,
    remainder: &mut u64,
) -> u64
    ensures { (result ≡ fill_code words.now amount)
        × (hours.new ≡ fill_hours words.now amount hours.old)
        × (remainder.new ≡ fill_remainder words.now amount remainder.old) }
{
    record_calls::fill(words, amount, hours, remainder)
}

#[unsafe(no_mangle)]
pub extern "C" fn clockivy_settlement_write(
    price: u64,
    entries: &[u64],
    page: &mut [u8],
    written: &mut u64,
) -> u64
    ensures { (result ≡ settlement_write_code price entries.now page.old)
        × (page.new ≡ write_left price entries.now page.old)
        × (written.new ≡ settlement_written price entries.now page.old written.old) }
{
    stateless_calls::settlement_write(price, entries, page, written)
}

#[unsafe(no_mangle)]
pub extern "C" fn clockivy_settlement_read(price: u64, page: &[u8], entries: &mut [u64]) -> u64
    ensures { (result ≡ settlement_read_code price page.now entries.old)
        × (entries.new ≡ read_left price page.now entries.old) }
{
    stateless_calls::settlement_read(price, page, entries)
}

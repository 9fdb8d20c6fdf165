// The calls on a record that is lent as its words, but for those of a round, with their replies as numbers. Where no record is lent,
// what needs none is judged all the same: each call gives the lowest number that applies. The record is judged
// where it stands before it is read: so no copy of it is made for that.
#![tactic(auto)]

ghost use Rattle.std.specs.Prelude.{◌≡◌};
ghost use Rattle.record_calls.specs.Calls.{open_code, open_totals, open_record, add_code, add_totals, add_record, answer_code, answer_index, answer_probes, fill_code, fill_hours, fill_remainder};

use ranges::on_list;
use record_words::{is_record, is_sound, read, store, without_record};
use refusal::Refusal;
use roll::is_bidder;
use ways::is_way;

// Nothing is zeroed unless the record can be written too.
pub fn open(n: u64, own: u64, k: u64, last: u64, totals: &mut [u64], words: &mut [u64]) -> u64
    ensures { (result ≡ open_code n own k last totals.old words.old)
        × (totals.new ≡ open_totals n own k last totals.old words.old)
        × (words.new ≡ open_record n own k last totals.old words.old) }
{
    if !is_record(&words[..]) {
        return without_record(on_list(n, own, k) & is_way(last));
    }
    store(session::open(n, own, k, last, totals), words)
}

// The totals and the record are written, or neither is.
pub fn add(words: &mut [u64], totals: &mut [u64], bidder: u64, shares: &[u64]) -> u64
    ensures { (result ≡ add_code words.old totals.old bidder shares.now)
        × (words.new ≡ add_record words.old totals.old bidder shares.now)
        × (totals.new ≡ add_totals words.old totals.old bidder shares.now) }
{
    if !is_record(&words[..]) {
        return without_record(is_bidder(bidder));
    }
    let whole = is_sound(&words[..]);
    store(
        session::add_judged(read(&words[..]), whole, totals, bidder, shares),
        words,
    )
}

// The price index, 0 for no price, and how many probes both searches made.
pub fn answer(words: &[u64], index: &mut u64, probes: &mut u64) -> u64
    ensures { (result ≡ answer_code words.now)
        × (index.new ≡ answer_index words.now index.old)
        × (probes.new ≡ answer_probes words.now probes.old) }
{
    if !is_record(words) {
        return u64::from(Refusal::WrongLength);
    }
    let whole = is_sound(words);
    match session::answer_judged(read(words), whole) {
        Ok(given) => {
            *index = given.price;
            *probes = given.probes;
            0
        }
        Err(why) => u64::from(why),
    }
}

// What a buyer of this amount gets at the price, and the remainder of the division.
pub fn fill(words: &[u64], amount: u64, hours: &mut u64, remainder: &mut u64) -> u64
    ensures { (result ≡ fill_code words.now amount)
        × (hours.new ≡ fill_hours words.now amount hours.old)
        × (remainder.new ≡ fill_remainder words.now amount remainder.old) }
{
    if !is_record(words) {
        return u64::from(Refusal::WrongLength);
    }
    let whole = is_sound(words);
    match filling::fill_judged(read(words), whole, amount) {
        Ok(filled) => {
            *hours = filled.got;
            *remainder = filled.remainder;
            0
        }
        Err(why) => u64::from(why),
    }
}

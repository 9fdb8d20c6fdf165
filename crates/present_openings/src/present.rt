// What the words of those who were present open to. Where it is known that all n were, their words are
// opened by weights, as `openings` does, and no mark is read. The flag stands beside the marks, and not in an Option of
// them, since `all_or` of the contracts reads both.
ghost use Rattle.std.specs.Prelude.{◌≡◌, map, ◌/◌, ◌%◌};
ghost use Rattle.weights.specs.Rows.{amount_scheme, byte_scheme};
ghost use Rattle.presence.specs.Presence.{all_or};
ghost use Rattle.present_openings.specs.Present.{opened_by};

use crate::words::{are_bytes, sized};
use fields::ByteTables;
use openings::{Opening, Pair, open_amount, open_byte, open_pair_by};
use openings_at::{open_amounts_at, open_pairs_at};
use presence::gather;
use sharing::threshold;

pub fn open_present_amount(n: u64, all: bool, present: &[u8], words: &[u64]) -> Opening
    ensures { result ≡ opened_by amount_scheme n (all_or «all» n present.now) words.now }
{
    if all {
        return open_amount(n, words);
    }
    if !sized(n, present, words) {
        return None;
    }
    let heard = gather(present, words);
    let count = heard.count;
    let points = heard.parties;
    let mut left = heard.words;
    open_amounts_at(threshold(n), &points[..count], &mut left[..count])
}

pub fn open_present_byte(n: u64, all: bool, present: &[u8], words: &[u64]) -> Opening
    ensures { result ≡ opened_by byte_scheme n (all_or «all» n present.now) words.now }
{
    if all {
        return open_byte(n, words);
    }
    if !are_bytes(present, words) {
        return None;
    }
    let pair = open_some_by(n, present, words, &ByteTables::new());
    pair.low
}

// Words of two bytes: what their lowest bytes open to, and what is above them.
pub fn open_present_pair(n: u64, all: bool, present: &[u8], words: &[u64]) -> Pair
    ensures { (result.low ≡ opened_by byte_scheme n (all_or «all» n present.now) (map (λ w. w % 256) words.now))
        × (result.high ≡ opened_by byte_scheme n (all_or «all» n present.now) (map (λ w. w / 256) words.now)) }
{
    open_present_pair_by(n, all, present, words, &ByteTables::new())
}

// The same by tables that several openings have in common.
pub fn open_present_pair_by(
    n: u64,
    all: bool,
    present: &[u8],
    words: &[u64],
    tables: &ByteTables,
) -> Pair
    ensures { (result.low ≡ opened_by byte_scheme n (all_or «all» n present.now) (map (λ w. w % 256) words.now))
        × (result.high ≡ opened_by byte_scheme n (all_or «all» n present.now) (map (λ w. w / 256) words.now)) }
{
    if all {
        return open_pair_by(n, words, tables);
    }
    open_some_by(n, present, words, tables)
}

// Bytes are opened as words of two with nothing above them. With one function for all the compiler leaves it apart from
// the rest of a hearing, which otherwise takes longer in every round.
fn open_some_by(n: u64, present: &[u8], words: &[u64], tables: &ByteTables) -> Pair
    ensures { (result.low ≡ opened_by byte_scheme n present.now (map (λ w. w % 256) words.now))
        × (result.high ≡ opened_by byte_scheme n present.now (map (λ w. w / 256) words.now)) }
{
    if !sized(n, present, words) {
        return Pair {
            low: None,
            high: None,
        };
    }
    let heard = gather(present, words);
    let count = heard.count;
    let points = heard.parties;
    let mut left = heard.words;
    open_pairs_at(threshold(n), &points[..count], &mut left[..count], tables)
}

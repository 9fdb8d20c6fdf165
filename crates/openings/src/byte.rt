// Opening bytes.
ghost use Rattle.std.specs.Prelude.{◌≡◌, cond, ◌&&◌, [], ◌∷◌, map, ◌-◌, ◌/◌, ◌%◌, ◌≤◌, ◌<◌, ltb, length, None, Some};
ghost use Rattle.fields.specs.Byte.{bytes};
ghost use Rattle.openings.specs.Packed.{packed};
ghost use Rattle.sharing.specs.Scheme.{threshold, points};
ghost use Rattle.weights.specs.Rows.{weights, byte_scheme};
ghost use Rattle.weights.specs.Products.{products};
ghost use Rattle.openings.specs.Opening.{moments, opened};

use crate::opening::{Opening, counted, readable};
use fields::{ByteTables, exponent};
use ranges::all_below;
use sharing::threshold;
use weights::byte_row;

// What the lowest bytes of n words open to, and what is above them.
#[derive(Clone, Copy)]
pub struct Pair {
    pub low: Opening,
    pub high: Opening,
}

// What n words open to: their weighted sum, where the sums of x, x^2, .. times them are 0.
pub fn open_byte(n: u64, words: &[u64]) -> Opening
    ensures { result ≡ opened byte_scheme n words.now }
{
    if !readable(n, words, 256) {
        return None;
    }
    // Above bytes there is nothing, so the other sums take next to no time.
    secret_of(true, sums(n, words, &ByteTables::new()).low)
}

// Words of two bytes, which are opened together: they have weights and points in common.
pub fn open_pair(n: u64, words: &[u64]) -> Pair
    ensures { (result.low ≡ opened byte_scheme n (map (λ w. w % 256) words.now))
        × (result.high ≡ opened byte_scheme n (map (λ w. w / 256) words.now)) }
{
    open_pair_by(n, words, &ByteTables::new())
}

// The same by tables that several openings have in common.
pub fn open_pair_by(n: u64, words: &[u64], tables: &ByteTables) -> Pair
    ensures { (result.low ≡ opened byte_scheme n (map (λ w. w % 256) words.now))
        × (result.high ≡ opened byte_scheme n (map (λ w. w / 256) words.now)) }
{
    if !counted(n, words) {
        return Pair {
            low: None,
            high: None,
        };
    }
    let all = sums(n, words, tables);
    Pair {
        low: secret_of(true, all.low),
        high: secret_of(all_below(words, 65536), all.high),
    }
}

// By the word that has all sums: the first is the secret, where there is nothing above it, and the words
// were small enough.
fn secret_of(small: bool, all: u64) -> Opening
    ensures { result ≡ cond («small» && ltb all 256) (Some all) None }
{
    (small & (all < 256)).then_some(all)
}

#[derive(Clone, Copy)]
struct Summed {
    low: u64,
    high: u64,
}

// All sums in one word, a byte for each, the first in the lowest place; of the lowest bytes, and of those
// above them.
fn sums(n: u64, words: &[u64], tables: &ByteTables) -> Summed
    requires { (3 ≤ n) × (n ≤ 9) × (length words.now ≡ n) }
    ensures { (result.low ≡ packed (moments bytes (n - threshold n) (points n) (products bytes (weights byte_scheme n) (map (λ w. w % 256) words.now))))
        × (result.high ≡ packed (moments bytes (n - threshold n) (points n) (products bytes (weights byte_scheme n) (map (λ w. w / 256 % 256) words.now)))) }
{
    let row = byte_row(n);
    let count = n - threshold(n);
    let mut low: u64 = 0;
    let mut high: u64 = 0;
    for (i, word) in words.iter().enumerate() {
        let point = i as u8 + 1;
        low ^= terms(row[i], (word % 256) as u8, point, count, tables);
        high ^= terms(row[i], (word / 256 % 256) as u8, point, count, tables);
    }
    Summed { low, high }
}

// What a word brings to each of the sums: itself with its weight, that times its point, and so on. No weight and no
// point of a party is 0. Exponents are added, so each product more takes one look into a table.
pub fn terms(weight: u8, word: u8, point: u8, count: u64, tables: &ByteTables) -> u64
    requires { (0 < weight) × (0 < point) × (count ≤ 5) }
    ensures { result ≡ packed (moments bytes count (point ∷ []) (bytes.mul weight word ∷ [])) }
{
    if word == 0 {
        return 0;
    }
    let step = tables.log(point);
    let mut at = exponent(tables.log(weight), tables.log(word));
    let mut all: u64 = 0;
    for j in 0..count {
        all += (tables.power(at) as u64) << (8 * j);
        at = exponent(at, step);
    }
    all
}

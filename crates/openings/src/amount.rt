// Opening amounts.
ghost use Rattle.std.specs.Prelude.{◌≡◌, ◌+◌, ◌^◌, ◌≤◌, length, take, get_or};
ghost use Rattle.fields.specs.Amount.{amounts};
ghost use Rattle.sharing.specs.Scheme.{points};
ghost use Rattle.weights.specs.Rows.{weights, amount_scheme};
ghost use Rattle.weights.specs.Products.{products};
ghost use Rattle.openings.specs.Opening.{moments, opened};

use crate::opening::{Opening, readable};
use fields::{AmountShare, HALF, P};
use sharing::threshold;
use weights::amount_row;

// What n words open to: their weighted sum, where the sums of x, x^2, .. times them are 0.
pub fn open_amount(n: u64, words: &[u64]) -> Opening
    ensures { result ≡ opened amount_scheme n words.now }
{
    if !readable(n, words, P) {
        return None;
    }
    let weighted = weighted(n as usize, words);
    let terms = &weighted[..n as usize];
    let count = n - threshold(n);
    let silent = (1..count).all(|j| moment(terms, j) == 0);
    silent.then_some(moment(terms, 0))
}

// The first n terms are the words with their weights. They stand in an array of nine, as the library has no heap.
fn weighted(n: usize, words: &[u64]) -> [u64; 9]
    requires { (3 ≤ n) × (n ≤ 9) × (length words.now ≡ n) }
    ensures { take n result ≡ products amounts (weights amount_scheme n) words.now }
{
    let row = amount_row(n as u64);
    let mut terms = [0u64; 9];
    for (i, word) in words.iter().enumerate() {
        terms[i] = AmountShare(row[i]).mul(AmountShare(*word)).0;
    }
    terms
}

// The sum of the terms, each times the power j of its point. The lower and the upper halves of the
// terms, times so small a power, are added up apart, and the sum is reduced once.
fn moment(terms: &[u64], j: u64) -> u64
    requires { (length terms.now ≤ 9) × (j ≤ 4) }
    ensures { result ≡ get_or (moments amounts (j + 1) (points (length terms.now)) terms.now) j 0 }
{
    let mut low: u64 = 0;
    let mut high: u64 = 0;
    for (i, term) in terms.iter().enumerate() {
        let times = power(i as u64 + 1, j);
        low += term % HALF * times;
        high += term / HALF * times;
    }
    AmountShare::joined(low, high).0
}

// A point's power.
fn power(point: u64, j: u64) -> u64
    requires { (point ≤ 9) × (j ≤ 4) }
    ensures { (result ≡ point ^ j) × (result ≤ 6561) }
{
    let square = point * point;
    match j {
        0 => 1,
        1 => point,
        2 => square,
        3 => square * point,
        _ => square * square,
    }
}

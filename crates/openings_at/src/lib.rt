// Opening words at any different points, amounts or bytes: they are lowered by lines until they are to agree. What
// is left of the words is of no further use.
#![tactic(auto)]

ghost use Rattle.std.specs.Prelude.{◌≡◌, ℕ, map, ◌/◌, ◌%◌, length};
ghost use Rattle.weights.specs.Rows.{amount_scheme, byte_scheme};
ghost use Rattle.lowering.specs.Lines.{Rising};
ghost use Rattle.openings_at.specs.At.{agreed, opened_at};

use fields::{ByteTables, P};
use lowering::{Amounts, descend};
use openings::{Opening, Pair};
use ranges::all_below;

// What amounts open to.
pub fn open_amounts_at(t: u64, points: &[u64], words: &mut [u64]) -> Opening
    requires { Rising 0 points.now × (length words.old ≡ length points.now) }
    ensures { result ≡ opened_at amount_scheme t points.now words.old }
{
    if !all_below(words, P) {
        return None;
    }
    let steps = t as usize;
    if words.len() <= steps {
        return None;
    }
    descend(&Amounts, steps, points, words);
    agreed(&words[steps..], |word| word)
}

// What words of two bytes open to: their low bytes, and what is above them. The tables are lent, so that several
// openings have them in common. Where the words are not small there is more above the low bytes than a byte.
pub fn open_pairs_at(t: u64, points: &[u64], words: &mut [u64], tables: &ByteTables) -> Pair
    requires { Rising 0 points.now × (length words.old ≡ length points.now) }
    ensures { (result.low ≡ opened_at byte_scheme t points.now (map (λ w. w % 256) words.old))
        × (result.high ≡ opened_at byte_scheme t points.now (map (λ w. w / 256) words.old)) }
{
    let small = all_below(words, 65536);
    let steps = t as usize;
    if words.len() <= steps {
        return Pair {
            low: None,
            high: None,
        };
    }
    descend(tables, steps, points, words);
    let left = &words[steps..];
    let low = agreed(left, |word| word % 256);
    if !small {
        return Pair { low, high: None };
    }
    let high = agreed(left, |word| word / 256 % 256);
    Pair { low, high }
}

// What a part of each of the words is, where it is the same of all.
fn agreed<F: Fn(u64) -> u64>(words: &[u64], part: F) -> Opening
    requires { F.IsAlwaysCallable part }
    ensures { (f : ℕ → ℕ) → ((x y : ℕ) → F.post part x y → y ≡ f x) → result ≡ agreed (map f words.now) }
{
    let (first, rest) = words.split_first()?;
    let value = part(*first);
    rest.iter()
        .all(|word| value == part(*word))
        .then_some(value)
}

// The order of the words of a slice.
ghost use Rattle.std.specs.Prelude.{◌≡◌, true};
ghost use Rattle.ranges.specs.Steps.{steps, bend, in_order};

use crate::lists::HIGH;

// How many words stand before the first that falls below the one before it, where they should rise, or
// rises above it, where they should not: all of them where none does. A count and no Option, as `bend` of
// specs/Steps.antt says it.
pub fn first_bend(words: &[u64], rising: bool) -> usize
    ensures { result ≡ bend (in_order rising) words.now }
{
    if none_bends(words, rising) {
        return words.len();
    }
    let [_, later @ ..] = words else {
        return words.len();
    };
    for (i, (x, y)) in words.iter().zip(later).enumerate() {
        if (rising & (*y < *x)) | (!rising & (*x < *y)) {
            return i + 1;
        }
    }
    words.len()
}

// A quick look: true only where there is no bend. Two words are in order where the one that should be
// lower, and what the other has more, which wraps, are both below 2^63. No branch depends on a word, so
// the compiler takes several at once.
fn none_bends(words: &[u64], rising: bool) -> bool
    ensures { result ≡ true → steps (in_order rising) words.now ≡ true }
{
    let mut seen: u64 = 0;
    // By number: a `zip` of the words and the later ones asks both at each turn, and words are taken one by one.
    for i in 1..words.len() {
        let x = words[i - 1];
        let y = words[i];
        let (low, high) = if rising { (x, y) } else { (y, x) };
        seen |= low | high.wrapping_sub(low);
    }
    seen < HIGH
}

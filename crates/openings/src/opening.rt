// What the two fields have in common: what n words open to, and which words are read at all.
ghost use Rattle.std.specs.Prelude.{◌≡◌, ◌&&◌, leb, eqb, length};
ghost use Rattle.openings.specs.Opening.{readable};

use ranges::all_below;

// The value at 0 of the polynomial through the words, or that no polynomial of degree at most t
// passes through them all.
pub type Opening = Option<u64>;

// Whether there are as many words as parties, 3 to 9.
pub(crate) fn counted(n: u64, words: &[u64]) -> bool
    ensures { result ≡ (leb 3 n && leb n 9 && eqb (length words.now) n) }
{
    (3 <= n) & (n <= 9) & (words.len() == n as usize)
}

// Whether they can be read: as many as parties, and all of them below size.
pub(crate) fn readable(n: u64, words: &[u64], size: u64) -> bool
    ensures { result ≡ readable size n words.now }
{
    counted(n, words) & all_below(words, size)
}

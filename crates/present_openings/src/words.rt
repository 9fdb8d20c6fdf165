// Which words are read at all: those of the parties who were present.
ghost use Rattle.std.specs.Prelude.{◌≡◌, ltb};
ghost use Rattle.ranges.specs.Lists.{every};
ghost use Rattle.presence.specs.Presence.{of_present};
ghost use Rattle.present_openings.specs.Present.{sized};

// Whether there are as many marks and words as parties, 3 to 9.
pub(crate) fn sized(n: u64, present: &[u8], words: &[u64]) -> bool
    ensures { result ≡ sized n present.now words.now }
{
    (3 <= n) & (n <= 9) & (present.len() == n as usize) & (words.len() == n as usize)
}

// Whether all words of those who were present are bytes.
pub(crate) fn are_bytes(present: &[u8], words: &[u64]) -> bool
    ensures { result ≡ every (λ w. ltb w 256) (of_present present.now words.now) }
{
    let mut all = true;
    for (mark, word) in present.iter().zip(words) {
        all &= (1 != *mark) | (*word < 256);
    }
    all
}

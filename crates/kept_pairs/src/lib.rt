// The pair shares that a party keeps from level to level of a probe in seven rounds.
#![tactic(auto)]

ghost use Rattle.std.specs.Prelude.{◌≡◌, ◌<◌, get_or};
ghost use Rattle.kept_pairs.specs.Pairs.{none};

// Of at most 16 pairs the top's share and the bottom's, in list order; 0 where there is none. They lie flat, as the
// record's 32 words do, which `record_words::words_of` says.
#[derive(Clone, Copy)]
pub struct Pairs {
    pub words: [u64; 32],
}

impl Pairs {
    // No pair is kept.
    pub fn none() -> Pairs
        ensures { result ≡ none }
    {
        Pairs { words: [0; 32] }
    }

    pub fn word(self, at: usize) -> u64
        requires { at < 32 }
        ensures { result ≡ get_or self.words at 0 }
    {
        let words = self.words;
        words[at]
    }
}

// Who is in: one mark for each bidder.
#![tactic(auto)]

ghost use Rattle.std.specs.Prelude.{◌≡◌, not, ◌≤◌, length};
ghost use Rattle.ranges.specs.Lists.{from, every, count};
ghost use Rattle.roll.specs.Marks.{is_bidder, is_set, marked, marks, proper, empty, mark};

// Bidder b's mark is bit b % 64 of word b / 64.
#[derive(Clone, Copy)]
pub struct Roll {
    pub words: [u64; 16],
}

// Bidders are 1 to 1,000.
pub fn is_bidder(number: u64) -> bool
    ensures { result ≡ is_bidder number }
{
    (1 <= number) & (number <= 1000)
}

impl Roll {
    // Nobody is in.
    pub fn empty() -> Roll
        ensures { result ≡ empty }
    {
        Roll { words: [0; 16] }
    }

    pub fn marked(self, number: u64) -> bool
        ensures { result ≡ marked self number }
    {
        if 1024 <= number {
            return false;
        }
        let words = self.words;
        let at = (number / 64) as usize;
        (words[at] >> (number % 64)) % 2 == 1
    }

    // Any place can be marked; a number past the last word leaves the roll as it is.
    pub fn mark(self, number: u64) -> Roll
        ensures { result ≡ mark self number }
    {
        if 1024 <= number {
            return self;
        }
        let mut words = self.words;
        let at = (number / 64) as usize;
        words[at] = words[at] | (1 << (number % 64));
        Roll { words }
    }

    // How many marks there are.
    pub fn marks(self) -> u64
        ensures { result ≡ marks self }
    {
        let words = self.words;
        marks_in(&words)
    }

    // No mark but those of bidders.
    pub fn proper(self) -> bool
        ensures { result ≡ proper self }
    {
        let words = self.words;
        proper_in(&words)
    }
}

// The marks on a roll's words where they stand: who calls has 16.
pub fn marks_in(words: &[u64]) -> u64
    requires { length words.now ≡ 16 }
    ensures { result ≡ marks (record { words = words.entry.now }) }
{
    let mut sum: u64 = 0;
    for i in 0..16 {
        sum += set_bits(words[i]);
    }
    sum
}

// And whether they are proper.
pub fn proper_in(words: &[u64]) -> bool
    requires { length words.now ≡ 16 }
    ensures { result ≡ proper (record { words = words.entry.now }) }
{
    (words[0] % 2 == 0) & none_above_40(words[15])
}

fn set_bits(word: u64) -> u64
    ensures { (result ≡ count (is_set word) 64) × (result ≤ 64) }
{
    u64::count_ones(word) as u64
}

// Of the last word: bit 40 is bidder 1,000's.
fn none_above_40(word: u64) -> bool
    ensures { result ≡ every (λ i. not (is_set word i)) (from 41 23) }
{
    word < 1 << 41
}

// Those who were present, and their words.
ghost use Rattle.std.specs.Prelude.{◌≡◌, ◌≤◌, length, take};
ghost use Rattle.ranges.specs.Lists.{from};
ghost use Rattle.presence.specs.Presence.{of_present};

// Up to nine parties, by their numbers, and the word of each. Two arrays with one count: `openings_at` is lent the
// parties apart from the words, which it writes over, so pairs would have to be taken apart again.
#[derive(Clone, Copy)]
pub struct Gathered {
    pub count: usize,
    pub parties: [u64; 9],
    pub words: [u64; 9],
}

// A word that is not chosen is written over by the next, or stands past the count.
pub fn gather(present: &[u8], words: &[u64]) -> Gathered
    requires { (length present.now ≤ 9) × (length words.now ≡ length present.now) }
    ensures few { (result.count ≤ 9) × (length result.parties ≡ 9) × (length result.words ≡ 9) }
    ensures parties { take result.count result.parties ≡ of_present present.now (from 1 (length present.now)) }
    ensures words { take result.count result.words ≡ of_present present.now words.now }
{
    let mut parties = [0u64; 9];
    let mut chosen = [0u64; 9];
    let mut count = 0;
    for (i, (mark, word)) in present.iter().zip(words).enumerate() {
        parties[count] = i as u64 + 1;
        chosen[count] = *word;
        if *mark == 1 {
            count += 1;
        }
    }
    Gathered {
        count: count,
        parties: parties,
        words: chosen,
    }
}

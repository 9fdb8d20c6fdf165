// A level of a probe in seven rounds, as a party makes it: what it says, and the pair shares that it keeps.
#![tactic(auto)]

ghost use Rattle.std.specs.Prelude.{◌≡◌, ◌<◌, length, get_or};
ghost use Rattle.ways.specs.Way.{tree, width};
ghost use Rattle.level.specs.Level.{no_pair, no_triple, level_pairs, level_triples, level_words, next_word, Ready};

use comparison::{Triple, bit, first_carry, masked_word, multiplied};
use fields::{BitShare, ByteTables};
use ways::width;

// What a party makes a level of: the opened sum, the pair shares that it keeps, and the probe's sheet.
#[derive(Clone, Copy)]
pub struct Level<'a> {
    pub round: u64,
    pub sum: u64,
    pub kept: &'a [u64],
    pub sheet: &'a [u64],
    pub ghost ready: { Ready round kept.now sheet.now },
}

// A word that is a byte.
pub fn byte_at(words: &[u64], at: usize) -> BitShare
    requires { (at < length words.now) × (get_or words.now at 0 < 256) }
    ensures { result.0 ≡ get_or words.now at 0 }
{
    BitShare(words[at] as u8)
}

impl Level<'_> {
    // How many words are said, and products made.
    pub fn width(&self) -> usize
        ensures { result ≡ width tree self.now.round }
    {
        width(7, self.round)
    }

    // The share of a pair's top: in round 2 of c_i, and of the 0 of the first pair.
    fn top(&self, i: usize) -> BitShare
        requires { i < width tree self.now.round }
        ensures { result.0 ≡ (get_or (level_pairs self.now.round self.now.sum self.now.kept.now self.now.sheet.now) i no_pair).top }
    {
        if self.round != 2 {
            return byte_at(self.kept, 2 * i);
        }
        if i == 0 {
            return BitShare(0);
        }
        BitShare(bit(self.sum, i as u64 + 1)).add(byte_at(self.sheet, i + 1))
    }

    // The share of a pair's bottom: in round 2 of T_i, and of the first carry.
    fn bottom(&self, i: usize) -> BitShare
        requires { i < width tree self.now.round }
        ensures { result.0 ≡ (get_or (level_pairs self.now.round self.now.sum self.now.kept.now self.now.sheet.now) i no_pair).bottom }
    {
        if self.round != 2 {
            return byte_at(self.kept, 2 * i + 1);
        }
        if i == 0 {
            return first_carry(self.sum, byte_at(self.sheet, 1));
        }
        BitShare(bit(self.sum, i as u64 + 1))
    }

    // The triple of one product.
    fn triple(&self, j: usize) -> Triple
        requires { j < width tree self.now.round }
        ensures alpha { result.alpha.0 ≡ (get_or (level_triples self.now.round self.now.sheet.now) j no_triple).alpha }
        ensures beta { result.beta.0 ≡ (get_or (level_triples self.now.round self.now.sheet.now) j no_triple).beta }
        ensures gamma { result.gamma.0 ≡ (get_or (level_triples self.now.round self.now.sheet.now) j no_triple).gamma }
    {
        let at = 34 + 3 * (64 - 2 * self.width() + j);
        Triple {
            alpha: byte_at(self.sheet, at),
            beta: byte_at(self.sheet, at + 1),
            gamma: byte_at(self.sheet, at + 2),
        }
    }

    // The word of one product: of two pairs the top product stands first.
    fn word(&self, j: usize) -> u64
        requires { j < width tree self.now.round }
        ensures { result ≡ get_or (level_words self.now.round self.now.sum self.now.kept.now self.now.sheet.now) j 0 }
    {
        let first = j / 2 * 2;
        let second = first + 1;
        let triple = self.triple(j);
        let y = self.top(second);
        if j % 2 == 0 {
            return masked_word(self.top(first), y, triple);
        }
        masked_word(y, self.bottom(first).add(self.bottom(second)), triple)
    }

    // All words of the level.
    pub fn write_words(&self, said: &mut [u64])
        requires { length said.old ≡ width tree self.now.round }
        ensures { said.new ≡ level_words self.now.round self.now.sum self.now.kept.now self.now.sheet.now }
    {
        // A level of its own: through the reference each word would read the round and both slices again.
        let level = *self;
        for (j, said) in said.iter_mut().enumerate() {
            *said = level.word(j);
        }
    }

    // The word that is kept of a product, where it is opened to d and e, by tables that all products have in common.
    pub fn next_word(&self, j: usize, d: u64, e: u64, tables: &ByteTables) -> u64
        requires { (j < width tree self.now.round) × (d < 256) × (e < 256) }
        ensures { result ≡ next_word self.now.round self.now.sum self.now.kept.now self.now.sheet.now j d e }
    {
        let product = multiplied(d as u8, e as u8, self.triple(j), tables);
        if j % 2 == 0 {
            return product.0 as u64;
        }
        product.add(self.bottom(j)).0 as u64
    }
}

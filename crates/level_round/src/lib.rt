// What a level's messages open to, product by product, and the pair shares that a party then keeps.
#![tactic(auto)]

ghost use Rattle.std.specs.Prelude.{◌≡◌, true, cond, map, ◌*◌, ◌≤◌, ◌<◌, ltb, length, take, Some, None};
ghost use Rattle.ranges.specs.Lists.{every};
ghost use Rattle.ways.specs.Way.{tree, width};
ghost use Rattle.presence.specs.Presence.{everyone, all_or};
ghost use Rattle.opening_rows.specs.Rows.{RowsOf};
ghost use Rattle.level.specs.Level.{level_kept};
ghost use Rattle.level_round.specs.Columns.{level_opened, level_sides};
ghost use Rattle.level_round.specs.Words.{product_word, word_sides, IsByte, column_word, column_words};

use fields::ByteTables;
use kept_pairs::Pairs;
use level::Level;
use opening_rows::{brought, fill_rows};
use openings::Opening;
use present_openings::open_present_pair_by;
use ranges::all_below;

// What is heard in a level: w words of each of n parties, and who was present.
#[derive(Clone, Copy)]
struct Messages<'a> {
    n: u64,
    w: usize,
    all: bool,
    present: &'a [u8],
    words: &'a [u64],
    ghost sized: { (3 ≤ n) × (n ≤ 9) × (w ≤ 32) × (length words.now ≡ n * w) },
}

// D plus 256 times E, or 65536 where either does not open: a number and no Option, as the definition `product_word` has it, since
// `all_below` judges several at once.
fn product_word(low: Opening, high: Opening) -> u64
    requires { IsByte low × IsByte high }
    ensures { result ≡ product_word low high }
{
    match (low, high) {
        (Some(d), Some(e)) => d + 256 * e,
        _ => 65536,
    }
}

impl Messages<'_> {
    // One product: its words, party by party, and what they open to.
    fn open_column(&self, j: usize, tables: &ByteTables) -> u64
        requires { j < self.now.w }
        ensures { result ≡ column_word self.now.n self.now.w (all_or self.now.«all» self.now.n self.now.present.now) self.now.words.now j }
    {
        let count = self.n as usize;
        let mut words = [0; 9];
        for (i, word) in words[..count].iter_mut().enumerate() {
            *word = self.words[j + i * self.w];
        }
        let pair = open_present_pair_by(self.n, self.all, self.present, &words[..count], tables);
        product_word(pair.low, pair.high)
    }

    // The same by the rows of n parties, who were all present. A word above 65535 leaves its bits in `bits`.
    fn open_by_rows(&self, j: usize, rows: &[u64]) -> u64
        requires { (j < self.now.w) × RowsOf self.now.n rows.now }
        ensures { result ≡ column_word self.now.n self.now.w (everyone self.now.n) self.now.words.now j }
    {
        let mut low: u64 = 0;
        let mut high: u64 = 0;
        let mut bits: u64 = 0;
        for i in (0..self.n as usize).rev() {
            let word = self.words[j + i * self.w];
            low ^= brought(rows, i, word % 256);
            high ^= brought(rows, i, word / 256 % 256);
            bits |= word;
        }
        if (bits < 65536) & (low < 256) & (high < 256) {
            return low + 256 * high;
        }
        65536
    }

    // All products, one by one.
    fn open_each(&self, products: &mut [u64], tables: &ByteTables)
        requires { length products.old ≡ self.now.w }
        ensures { products.new ≡ column_words self.now.n self.now.w (all_or self.now.«all» self.now.n self.now.present.now) self.now.words.now }
    {
        for (j, product) in products.iter_mut().enumerate() {
            *product = self.open_column(j, tables);
        }
    }

    // All products of all n, by rows that are made once for them.
    fn open_all(&self, products: &mut [u64], tables: &ByteTables)
        requires { length products.old ≡ self.now.w }
        ensures { products.new ≡ column_words self.now.n self.now.w (everyone self.now.n) self.now.words.now }
    {
        let mut rows = [0; 288];
        fill_rows(self.n, &mut rows, tables);
        for (j, product) in products.iter_mut().enumerate() {
            *product = self.open_by_rows(j, &rows);
        }
    }

    // Fewer than eight products are not worth their rows.
    fn open_products(&self, products: &mut [u64], tables: &ByteTables)
        requires { length products.old ≡ self.now.w }
        ensures { products.new ≡ column_words self.now.n self.now.w (all_or self.now.«all» self.now.n self.now.present.now) self.now.words.now }
    {
        if self.all & (8 <= self.w) {
            self.open_all(products, tables);
            return;
        }
        self.open_each(products, tables);
    }
}

// The words that are kept of products that are all opened.
fn write_kept(level: &Level<'_>, products: &[u64], words: &mut [u64], tables: &ByteTables)
    requires { (length products.now ≡ width tree level.now.round) × (length words.old ≡ width tree level.now.round)
        × (every (λ v. ltb v 65536) products.now ≡ true) }
    ensures { words.new ≡ take (width tree level.now.round)
        (level_kept level.now.round level.now.sum level.now.kept.now level.now.sheet.now (map word_sides products.now)) }
{
    for (j, product) in products.iter().enumerate() {
        words[j] = level.next_word(j, product % 256, product / 256, tables);
    }
}

// The level of a round, heard: the pair shares that are kept, where all products open. Who calls has judged the record, its sheet,
// and how many messages there are.
pub fn hear_level(
    n: u64,
    level: &Level<'_>,
    all: bool,
    present: &[u8],
    messages: &[u64],
) -> Option<Pairs>
    requires { (3 ≤ n) × (n ≤ 9) × (length messages.now ≡ n * width tree level.now.round) }
    ensures { result ≡ cond (level_opened n level.now.round (all_or «all» n present.now) messages.now)
        (Some (record {
          words = level_kept level.now.round level.now.sum level.now.kept.now level.now.sheet.now
              (level_sides n level.now.round (all_or «all» n present.now) messages.now);
        }))
        None }
{
    let w = level.width();
    let tables = ByteTables::new();
    let mut products = [0; 32];
    let heard = Messages {
        n,
        w,
        all,
        present,
        words: messages,
    };
    heard.open_products(&mut products[..w], &tables);
    if !all_below(&products[..w], 65536) {
        return None;
    }
    let mut words = [0; 32];
    write_kept(level, &products[..w], &mut words[..w], &tables);
    Some(Pairs { words })
}

// One sheet: it is dealt to each party, at its place among the party's sheets.
ghost use Rattle.std.specs.Prelude.{◌≡◌, ◌+◌, ◌*◌, ◌≤◌, length};
ghost use Rattle.ways.specs.Way.{way_of, sheet_size};
ghost use Rattle.panel.specs.Parties.{All, part, sheet_dealt};

use dealer::deal;
use ways::sheet_words;

// One party's sheet, at its place among the party's sheets.
fn deal_one(n: u64, own: u64, last: u64, words: &[u64], bytes: &[u8], at: usize, sheets: &mut [u64])
    requires { at + sheet_size (way_of last) ≤ length sheets.old }
    ensures { sheets.new ≡ sheet_dealt n own last words.now bytes.now at sheets.old }
{
    let to = at + sheet_words(last);
    let _ = deal(n, own, last, words, bytes, &mut sheets[at..to]);
}

// The same for all parties, whose sheets are `width` words each.
pub fn deal_each(
    n: u64,
    last: u64,
    words: &[u64],
    bytes: &[u8],
    at: usize,
    width: usize,
    sheets: &mut [u64],
)
    requires { (n ≤ 9) × (at + sheet_size (way_of last) ≤ width) × (length sheets.old ≡ n * width) }
    ensures { All n (λ i. part width i sheets.new ≡ sheet_dealt n (i + 1) last words.now bytes.now at (part width i sheets.old)) }
{
    let count = n as usize;
    for i in 0..count {
        let from = i * width;
        let to = from + width;
        deal_one(
            n,
            i as u64 + 1,
            last,
            words,
            bytes,
            at,
            &mut sheets[from..to],
        );
    }
}

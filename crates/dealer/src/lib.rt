// Dealing the preprocessing of one probe (the paper's dealer): one party's shares of the mask, of
// the mask's bits, and of the triples that products are made with.
#![tactic(auto)]

ghost use Rattle.std.specs.Prelude.{◌≡◌, ◌∷◌, ◌+◌, ◌*◌, ◌≤◌, ◌<◌, length, take, drop};
ghost use Rattle.fields.specs.Byte.{bytes};
ghost use Rattle.sharing.specs.Polynomial.{value};
ghost use Rattle.ways.specs.Way.{way_of, triples_of, sheet_size, drawn_size};
ghost use Rattle.dealer.specs.Deal.{deal_judgement, byte_shares, mask_bits, triple, triples, preprocessing, deal_left};

use byte_rows::ByteRow;
use fields::{ByteTables, P};
use ranges::{all_below, is_party};
use refusal::{Judgement, Refusal};
use sharing::{share_amount, share_by, threshold};
use ways::{drawn_bytes, is_way, sheet_words, triples};

// A mask is below this.
const MASKS: u64 = 1 << 58;

// Writes a party's 127 or 220 words of preprocessing, by the last round of the probes. Nothing is
// written unless all of the call is accepted.
pub fn deal(
    n: u64,
    own: u64,
    last: u64,
    words: &[u64],
    bytes: &[u8],
    sheet: &mut [u64],
) -> Judgement
    ensures { (result ≡ deal_judgement n own last words.now bytes.now sheet.old)
        × (sheet.new ≡ deal_left n own last words.now bytes.now sheet.old) }
{
    judge(n, own, last, words, bytes, &sheet[..])?;
    write(
        triples(last),
        threshold(n) as usize,
        own,
        words,
        bytes,
        sheet,
    );
    Ok(())
}

// The first refusal that applies. The lengths are computed only of an n in its range.
fn judge(n: u64, own: u64, last: u64, words: &[u64], bytes: &[u8], sheet: &[u64]) -> Judgement
    ensures { result ≡ deal_judgement n own last words.now bytes.now sheet.now }
{
    if !(is_party(n, own) & is_way(last)) {
        return Err(Refusal::OutOfRange);
    }
    let t = threshold(n) as usize;
    if !((words.len() == 1 + t)
        & (bytes.len() == drawn_bytes(last, t))
        & (sheet.len() == sheet_words(last)))
    {
        return Err(Refusal::WrongLength);
    }
    let mask = words[0];
    if !((mask < MASKS) & all_below(&words[1..], P)) {
        return Err(Refusal::CoinOutOfRange);
    }
    Ok(())
}

// The mask's share, the shares of its bits, then those of the triples.
fn write(m: usize, t: usize, own: u64, words: &[u64], bytes: &[u8], sheet: &mut [u64])
    requires { (own < 256) × (length words.now ≡ 1 + t) × (length bytes.now ≡ 33 * t + m * (2 + 3 * t)) × (length sheet.old ≡ 34 + 3 * m) × (m ≤ 62) × (t ≤ 4) }
    ensures { sheet.new ≡ preprocessing m t own words.now bytes.now }
{
    let mask = words[0];
    sheet[0] = share_amount(mask, &words[1..], own).0;
    let row = ByteRow::new(own as u8);
    let start = 33 * t;
    write_bits(t, &row, mask, bytes, &mut sheet[1..34]);
    write_triples(m, t, &row, &bytes[start..], &mut sheet[34..]);
}

// The shares of the mask's lowest 33 bits, lowest first.
fn write_bits(t: usize, row: &ByteRow, mask: u64, drawn: &[u8], shares: &mut [u64])
    requires { (33 * t ≤ length drawn.now) × (length shares.old ≡ 33) }
    ensures { shares.new ≡ byte_shares t row.now.byte (mask_bits mask) drawn.now }
{
    let mut rest = mask;
    for (i, share) in shares.iter_mut().enumerate() {
        let bit = (rest & 1) as u8;
        *share = share_from(bit, drawn, i * t, t, row);
        rest = rest >> 1;
    }
}

// The shares of m triples.
fn write_triples(m: usize, t: usize, row: &ByteRow, drawn: &[u8], shares: &mut [u64])
    requires { (m * (2 + 3 * t) ≤ length drawn.now) × (length shares.old ≡ 3 * m) × (m ≤ 62) × (t ≤ 4) }
    ensures { shares.new ≡ triples t row.now.byte m drawn.now }
{
    let tables = ByteTables::new();
    let step = 2 + 3 * t;
    for i in 0..m {
        let at = i * step;
        let from = 3 * i;
        let to = from + 3;
        write_triple(t, row, &drawn[at..], &mut shares[from..to], &tables);
    }
}

// The shares of alpha, beta and their product gamma.
fn write_triple(t: usize, row: &ByteRow, drawn: &[u8], shares: &mut [u64], tables: &ByteTables)
    requires { (2 + 3 * t ≤ length drawn.now) × (length shares.old ≡ 3) }
    ensures { shares.new ≡ triple t row.now.byte drawn.now }
{
    let alpha = drawn[0];
    let beta = drawn[1];
    let gamma = tables.product(alpha, beta);
    let first = 2 + t;
    let second = first + t;
    shares[0] = share_from(alpha, drawn, 2, t, row);
    shares[1] = share_from(beta, drawn, first, t, row);
    shares[2] = share_from(gamma, drawn, second, t, row);
}

// The share of a byte, made with the t drawn bytes from a place on.
fn share_from(secret: u8, drawn: &[u8], from: usize, t: usize, row: &ByteRow) -> u64
    requires { from + t ≤ length drawn.now }
    ensures { result ≡ value bytes (secret ∷ take t (drop from drawn.now)) row.now.byte }
{
    let to = from + t;
    share_by(secret, &drawn[from..to], row).0 as u64
}

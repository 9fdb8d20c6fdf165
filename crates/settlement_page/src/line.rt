// One line of the page.
ghost use Rattle.std.specs.Prelude.{◌≡◌, true, cond, ◌≤◌, ◌<◌, length};
ghost use Rattle.ranges.specs.Lists.{same};
ghost use Rattle.ranges.specs.Sizes.{highest_price};
ghost use Rattle.settlement_page.specs.Page.{title, amounts, line, in_range};
ghost use Rattle.settlement_page.specs.Line.{begins, pair_read};

use crate::columns::{SPACE, digit_or_space, last_digit, put_tenths, tenths};
use bid::MOST;
use ranges::same;

// How long a line is, with its newline; how much of it tells the bidder and the side, and how much
// follows.
pub const LINE: usize = 61;

const TITLE: usize = 10;

const AMOUNTS: usize = 51;

const POINT: u8 = 46;

const NEWLINE: u8 = 10;

// No amount is too large, and nobody gets more than is wanted.
pub fn in_range(wanted: u64, got: u64) -> bool
    ensures { result ≡ in_range wanted got }
{
    (wanted <= MOST) & (got <= wanted)
}

// The bidder number in 4 columns, and the side in 6.
fn title(pair: u64) -> [u8; TITLE]
    requires { pair < 2000 }
    ensures { result ≡ title pair }
{
    let bidder = pair / 2 + 1;
    let tens = bidder / 10;
    let hundreds = tens / 10;
    let thousands = hundreds / 10;
    let a = digit_or_space(thousands);
    let b = digit_or_space(hundreds);
    let c = digit_or_space(tens);
    let d = last_digit(bidder);
    let buys = pair % 2 == 0;
    if buys {
        return [a, b, c, d, SPACE, SPACE, SPACE, b'b', b'u', b'y'];
    }
    [a, b, c, d, SPACE, SPACE, b's', b'e', b'l', b'l']
}

// Fills the 61 bytes of a line.
pub fn put_line(out: &mut [u8], price: u64, pair: u64, wanted: u64, got: u64)
    requires { (length out.old ≡ 61) × (price ≤ highest_price) × (pair < 2000) × (in_range wanted got ≡ true) }
    ensures { out.new ≡ line price pair wanted got }
{
    out[..TITLE].copy_from_slice(&title(pair));
    put_amounts(&mut out[TITLE..], price, wanted, got);
}

// All that follows the title. Hours take at most 8 columns, and pence 14.
fn put_amounts(out: &mut [u8], price: u64, wanted: u64, got: u64)
    requires { (length out.old ≡ 51) × (price ≤ highest_price) × (in_range wanted got ≡ true) }
    ensures { out.new ≡ amounts price wanted got }
{
    put_tenths(&mut out[..12], 4, POINT, wanted);
    put_tenths(&mut out[12..24], 4, POINT, got);
    put_tenths(&mut out[24..50], 12, SPACE, got * price);
    out[50] = NEWLINE;
}

// Whether the page goes on with the line of a pair, by its bidder and its side.
fn begins(page: &[u8], pair: u64) -> bool
    requires { pair < 2000 }
    ensures { result ≡ begins pair page.now }
{
    if page.len() < TITLE {
        return false;
    }
    let bytes = title(pair);
    same(&page[..TITLE], &bytes)
}

// What the page goes on with at a pair: the line of the amounts that it shows, or nothing of it.
#[derive(Clone, Copy)]
pub struct PairRead {
    pub wanted: u64,
    pub got: u64,
    pub bytes: usize,
}

// A line that is the pair's and shows other bytes is none.
pub fn read_pair(page: &[u8], price: u64, pair: u64) -> Option<PairRead>
    requires { (price ≤ highest_price) × (pair < 2000) }
    ensures { result ≡ pair_read price pair page.now }
{
    if !begins(page, pair) {
        return Some(PairRead {
            wanted: 0,
            got: 0,
            bytes: 0,
        });
    }
    if page.len() < LINE {
        return None;
    }
    let wanted = tenths(&page[10..22]);
    let got = tenths(&page[22..34]);
    if !((0 < wanted) & in_range(wanted, got)) {
        return None;
    }
    if !is_line(&page[TITLE..LINE], price, wanted, got) {
        return None;
    }
    Some(PairRead {
        wanted,
        got,
        bytes: LINE,
    })
}

// Whether these are the bytes of a line that follow its title.
fn is_line(bytes: &[u8], price: u64, wanted: u64, got: u64) -> bool
    requires { (price ≤ highest_price) × (in_range wanted got ≡ true) }
    ensures { result ≡ same bytes.now (amounts price wanted got) }
{
    let mut expected = [0u8; AMOUNTS];
    put_amounts(&mut expected, price, wanted, got);
    same(bytes, &expected)
}

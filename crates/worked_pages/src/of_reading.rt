// Pages that are read. Each of those that are refused differs in one thing from one that is not.
use crate::of_writing::two_lines;
use refusal::code;
use report::{end, number, title};
use settlement::{ENTRIES, read, write};

pub(crate) fn print() {
    back();
    order();
    bytes();
    lines();
}

// The page of two lines, at 110 pence.
fn page() -> [u8; 122] {
    let mut page = [0u8; 122];
    let _ = write(110, &two_lines(), &mut page);
    page
}

// The call's number, and the entries of the two lines.
fn reads(price: u64, page: &[u8]) {
    let mut entries = [7u64; ENTRIES];
    number(code(read(price, page, &mut entries)));
    shown(&entries);
    end();
}

fn shown(entries: &[u64; ENTRIES]) {
    number(entries[0]);
    number(entries[1]);
    number(entries[2]);
    number(entries[6]);
    number(entries[7]);
    number(entries[3999]);
}

// What stands on a page, whatever the entries held before; an empty page is all zeros, and a page at
// another price leaves them.
fn back() {
    title(b"page read back:");
    reads(110, &page());
    title(b"empty page read:");
    reads(110, b"");
    title(b"page read at another price:");
    reads(111, &page());
}

// The price first, then the length of the entries, then the page.
fn order() {
    title(b"read order:");
    number(code(read(0, b"torn", &mut [0u64; 3999])));
    number(code(read(1_000_001, &page(), &mut [0u64; ENTRIES])));
    number(code(read(110, b"torn", &mut [0u64; 3999])));
    number(code(read(110, &page(), &mut [0u64; 4001])));
    number(code(read(110, b"torn", &mut [0u64; ENTRIES])));
    end();
}

fn accepts(page: &[u8; 122]) -> u64 {
    code(read(110, page, &mut [0u64; ENTRIES]))
}

// The page with one byte put in another's place.
fn with_byte(at: usize, b: u8) {
    let mut text = page();
    if at < 122 {
        text[at] = b;
    }
    number(accepts(&text));
}

// The same byte, a leading zero, another bidder's number, one that is out of turn, another side, an hour
// more wanted, a comma, more got, other pence, another remainder, and no newline.
fn bytes() {
    title(b"pages with another byte:");
    with_byte(0, b' ');
    with_byte(2, b'0');
    with_byte(3, b'2');
    with_byte(3, b'3');
    with_byte(7, b's');
    with_byte(19, b'3');
    with_byte(20, b',');
    with_byte(31, b'2');
    with_byte(57, b'6');
    with_byte(59, b'1');
    with_byte(60, b' ');
    with_byte(121, b' ');
    end();
}

fn accepted(page: &[u8]) {
    number(code(read(110, page, &mut [0u64; ENTRIES])));
}

// Whole lines: one, and two of them; both sides of a bidder, in order and not; a line twice, and bidders out of order;
// the last bidder, and one past it; nothing wanted, and more got than wanted; the largest amount, and a
// tenth more; a line cut short, one column too long, and aligned to the left.
fn lines() {
    title(b"pages of whole lines:");
    accepted(b"   1   buy         2.0         1.5                     165 0\n");
    accepted(
        b"   1   buy         2.0         1.5                     165 0\n   2  sell         1.5         1.5                     165 0\n",
    );
    accepted(
        b"   1   buy         2.0         1.5                     165 0\n   1  sell         1.5         1.5                     165 0\n",
    );
    accepted(
        b"   1  sell         1.5         1.5                     165 0\n   1   buy         2.0         1.5                     165 0\n",
    );
    accepted(
        b"   2  sell         1.5         1.5                     165 0\n   2  sell         1.5         1.5                     165 0\n",
    );
    accepted(
        b"   2  sell         1.5         1.5                     165 0\n   1   buy         2.0         1.5                     165 0\n",
    );
    accepted(b"1000  sell         1.5         1.5                     165 0\n");
    accepted(b"1001  sell         1.5         1.5                     165 0\n");
    accepted(b"   1   buy         0.0         0.0                       0 0\n");
    accepted(b"   1   buy         1.5         2.0                     220 0\n");
    accepted(b"   1   buy    419430.3         0.0                       0 0\n");
    accepted(b"   1   buy    419430.4         0.0                       0 0\n");
    accepted(b"   1   buy         2.0         1.5                     165 0");
    accepted(b"    1   buy         2.0         1.5                     165 0\n");
    accepted(b"1   buy   2.0         1.5         165 0                     \n");
    end();
}

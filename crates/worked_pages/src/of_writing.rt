// Pages that are written.
use refusal::Refusal;
use report::{end, number, title};
use settlement::{ENTRIES, write};

// Standard output's descriptor.
const STDOUT_FILENO: i32 = 1;

// The largest amount.
const MOST: u64 = 4_194_303;

pub(crate) fn print() {
    paper();
    largest();
    smallest();
    prices();
    lengths();
    amounts();
    rooms();
    order();
}

// How many bytes were written, or the refusal's number.
pub(crate) fn told(written: Result<u64, Refusal>) -> u64 {
    written.unwrap_or_else(u64::from)
}

// Bidder 1 buys 15 tenths of the 20 that it wants, and bidder 2 sells its 15, at 110 pence.
pub(crate) fn two_lines() -> [u64; ENTRIES] {
    let mut entries = [0u64; ENTRIES];
    entries[0] = 20;
    entries[1] = 15;
    entries[6] = 15;
    entries[7] = 15;
    entries
}

// What the page holds past the lines stays.
fn paper() {
    let mut page = [b'.'; 123];
    title(b"page of two lines:");
    number(told(write(110, &two_lines(), &mut page)));
    end();
    io::write_all(STDOUT_FILENO, &page);
    end();
}

// The last bidder, both sides, the largest amounts and the highest price.
fn largest() {
    let mut entries = [0u64; ENTRIES];
    entries[3996] = MOST;
    entries[3997] = MOST - 1;
    entries[3998] = MOST;
    entries[3999] = MOST;
    let mut page = [0u8; 122];
    title(b"page of the largest amounts:");
    number(told(write(1_000_000, &entries, &mut page)));
    end();
    io::write_all(STDOUT_FILENO, &page);
}

// A tenth of an hour that is not got, at a penny; and one that is.
fn smallest() {
    let mut entries = [0u64; ENTRIES];
    entries[36] = 1;
    entries[398] = 1;
    entries[399] = 1;
    let mut page = [0u8; 122];
    title(b"page of the smallest amounts:");
    number(told(write(1, &entries, &mut page)));
    end();
    io::write_all(STDOUT_FILENO, &page);
}

fn prices() {
    title(b"settlement prices:");
    for price in [0, 1, 1_000_000, 1_000_001] {
        at_price(price);
    }
    end();
}

fn at_price(price: u64) {
    let mut page = [0u8; 122];
    number(told(write(price, &two_lines(), &mut page)));
}

fn lengths() {
    let mut page = [0u8; 122];
    let entries = [0u64; 4001];
    title(b"settlement lengths:");
    number(told(write(110, &entries[..0], &mut page)));
    number(told(write(110, &entries[..3999], &mut page)));
    number(told(write(110, &entries[..4000], &mut page)));
    number(told(write(110, &entries, &mut page)));
    end();
}

// An amount that is too large, wanted or got, of a buyer or a seller; and more got than wanted.
fn amounts() {
    title(b"settlement amounts:");
    bidder(MOST, MOST, 0, 0);
    bidder(MOST + 1, MOST, 0, 0);
    bidder(MOST + 1, MOST + 1, 0, 0);
    bidder(0, 0, MOST + 1, 0);
    bidder(5, 5, 5, 5);
    bidder(5, 6, 5, 5);
    bidder(5, 5, 5, 6);
    bidder(0, 1, 0, 0);
    end();
}

fn bidder(bought: u64, got: u64, offered: u64, sold: u64) {
    let mut entries = [0u64; ENTRIES];
    entries[400] = bought;
    entries[401] = got;
    entries[402] = offered;
    entries[403] = sold;
    let mut page = [0u8; 122];
    number(told(write(110, &entries, &mut page)));
}

// No room, a byte too little, just enough and more; and no line at all.
fn rooms() {
    title(b"settlement rooms:");
    number(told(write(110, &two_lines(), &mut [0u8; 0])));
    number(told(write(110, &two_lines(), &mut [0u8; 121])));
    number(told(write(110, &two_lines(), &mut [0u8; 122])));
    number(told(write(110, &two_lines(), &mut [0u8; 123])));
    number(told(write(110, &[0u64; ENTRIES], &mut [0u8; 0])));
    end();
}

// With several faults at once the first that is judged counts: 1, 2, 6, 17.
fn order() {
    let mut more = [0u64; ENTRIES];
    more[0] = 20;
    more[1] = 21;
    title(b"settlement order:");
    number(told(write(0, &[1u64; 3999], &mut [0u8; 60])));
    number(told(write(110, &[1u64; 3999], &mut [0u8; 60])));
    number(told(write(110, &more, &mut [0u8; 60])));
    number(told(write(110, &two_lines(), &mut [0u8; 60])));
    end();
}

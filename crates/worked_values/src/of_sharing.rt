// Shares, and what words open to.
use fields::P;
use openings::Opening;

pub(crate) fn print() {
    shares_of_amounts();
    shares_of_bytes();
    amounts_of_five();
    amounts_of_others();
    opened_bytes();
    opened_pairs();
}

fn shares_of_amounts() {
    report::title(b"shares of 7 with 3, 2:");
    let coins = [3, 2];
    amount_shares(7, &coins, 5);
    report::end();

    report::title(b"shares of 0 with p - 1:");
    let least = [P - 1];
    amount_shares(0, &least, 3);
    report::end();
}

fn shares_of_bytes() {
    report::title(b"shares of 01h with 80h:");
    let high = [0x80];
    byte_shares(0x01, &high, 3);
    report::end();
}

// The line of opened amounts begins here.
fn amounts_of_five() {
    report::title(b"opened amounts:");
    let good = [12, 21, 34, 51, 72];
    opened(openings::open_amount(5, &good));
    let crooked = [12, 21, 34, 51, 73];
    opened(openings::open_amount(5, &crooked));
    opened(openings::open_amount(4, &good));
}

// It ends here.
fn amounts_of_others() {
    let few = [P - 1, P - 2, P - 3];
    opened(openings::open_amount(3, &few));
    let foreign = [P - 1, P - 2, P];
    opened(openings::open_amount(3, &foreign));
    let two = [1, 2];
    opened(openings::open_amount(2, &two));
    let ten = [5; 10];
    opened(openings::open_amount(10, &ten));
    let nine = [5; 9];
    opened(openings::open_amount(9, &nine));
    report::end();
}

fn opened_bytes() {
    report::title(b"opened bytes:");
    let bits = [0x81, 0x1a, 0x9a];
    opened(openings::open_byte(3, &bits));
    let bent = [0x81, 0x1a, 0x9b];
    opened(openings::open_byte(3, &bent));
    let wide = [0x81, 0x1a, 0x19a];
    opened(openings::open_byte(3, &wide));
    let line_of_four = [0x81, 0x1a, 0x9a, 0x37];
    opened(openings::open_byte(4, &line_of_four));
    report::end();
}

// The low bytes open to 1, the high ones to 87, unless they are not on a line or reach above a byte.
fn opened_pairs() {
    report::title(b"opened pairs:");
    let good = [0xd481, 0x4a1a, 0xc99a];
    pair(3, &good);
    let low_bent = [0xd481, 0x4a1a, 0xc99b];
    pair(3, &low_bent);
    let high_bent = [0xd481, 0x4b1a, 0xc99a];
    pair(3, &high_bent);
    let wide = [0xd481, 0x4a1a, 0x1c99a];
    pair(3, &wide);
    pair(4, &good);
    report::end();
}

fn pair(n: u64, words: &[u64]) {
    let both = openings::open_pair(n, words);
    opened(both.low);
    opened(both.high);
}

// Parties 1 to n.
fn amount_shares(secret: u64, coins: &[u64], n: u64) {
    for party in 1..=n {
        report::number(sharing::share_amount(secret, coins, party).0);
    }
}

// The same of bytes. Secret, coins, points and print are of other types, so one function would take three closures.
fn byte_shares(secret: u8, coins: &[u8], n: u8) {
    for party in 1..=n {
        report::byte(sharing::share_byte(secret, coins, party).0);
    }
}

fn opened(o: Opening) {
    match o {
        Some(v) => report::number(v),
        None => report::word(b"none"),
    }
}

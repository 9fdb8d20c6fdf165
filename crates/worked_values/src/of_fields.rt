// FIPS 197's worked sums and products, further ones, and amounts at the edges of their range.
use byte_rows::multiples;
use fields::{AmountShare, BitShare, ByteTables, P, exponent};

const MAX: u64 = u64::MAX;

pub(crate) fn print() {
    worked_products();
    byte_products();
    powers_and_logarithms();
    rows();
    amount_sums();
    amount_differences();
    amount_products();
}

fn worked_products() {
    report::title(b"FIPS 197 sum, products:");
    report::byte(BitShare(0x57).add(BitShare(0x83)).0);
    for b in [0x83, 0x02, 0x04, 0x08, 0x10, 0x13] {
        product(0x57, b);
    }
    report::end();
}

fn byte_products() {
    report::title(b"byte products:");
    product(0x00, 0x00);
    product(0x00, 0xff);
    product(0xff, 0x00);
    product(0x01, 0xff);
    product(0x80, 0x02);
    product(0x87, 0x02);
    product(0x53, 0xca);
    product(0xff, 0xff);
    product(0x0f, 0xc7);
    report::end();
}

// The last power is the first again. The exponent of a product may be 255 as well as 0.
fn powers_and_logarithms() {
    let tables = ByteTables::new();
    report::title(b"powers of 03h:");
    for n in [0, 1, 2, 25, 254, 255] {
        report::byte(tables.power(n));
    }
    report::end();

    report::title(b"their logarithms:");
    for a in [0x01, 0x03, 0x05, 0x02, 0xf6, tables.power(255)] {
        report::number(u64::from(tables.log(a)));
    }
    report::end();

    report::title(b"exponents of products:");
    for (a, b) in [(0, 0), (200, 55), (200, 56), (254, 254)] {
        report::number(u64::from(exponent(a, b)));
    }
    report::end();
}

fn rows() {
    report::title(b"multiples of 57h by 0, 1, 2, 19, 131, 255:");
    let row = multiples(0x57);
    for i in [0, 1, 2, 0x13, 0x83, 0xff] {
        report::byte(row[i]);
    }
    report::end();
}

fn amount_sums() {
    report::title(b"amount sums:");
    sum(0, 0);
    sum(P - 1, 1);
    sum(P - 1, P - 1);
    sum(P, P);
    sum(P + 1, P + 1);
    sum(MAX, MAX);
    report::end();
}

fn amount_differences() {
    report::title(b"amount differences:");
    for (a, b) in [(0, 0), (0, 1), (P, P - 1), (1, MAX), (MAX, 0)] {
        difference(a, b);
    }
    report::end();
}

fn amount_products() {
    report::title(b"amount products:");
    times(P - 1, P - 1);
    times(P - 1, 2);
    times(P, MAX);
    times(P + 1, P + 1);
    times(MAX, MAX);
    times(1 << 32, 1 << 32);
    times(9, 2049638230412172401);
    times(0x0123_4567_89ab_cdef, 0xfedc_ba98_7654_3210);
    report::end();
}

fn product(a: u8, b: u8) {
    report::byte(BitShare(a).mul(BitShare(b)).0);
}

fn sum(a: u64, b: u64) {
    report::number(AmountShare(a).add(AmountShare(b)).0);
}

fn difference(a: u64, b: u64) {
    report::number(AmountShare(a).sub(AmountShare(b)).0);
}

fn times(a: u64, b: u64) {
    report::number(AmountShare(a).mul(AmountShare(b)).0);
}

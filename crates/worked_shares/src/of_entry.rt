// Splitting entry by entry: what is judged of the entry, its coins and the whole table, and what is
// left. A call prints its refusal's number, or 0.
ghost use Rattle.std.specs.Prelude.{◌≤◌};

use fields::P;

const MAX: u64 = u64::MAX;

pub(crate) fn print() {
    ranges();
    lengths();
    contents();
    order();
    left();
    worked();
}

// Entries are 1 to 2k, for a k that is judged before it is doubled.
fn ranges() {
    report::title(b"split entry ranges:");
    of_sizes(3, 1, 1, 0, 2, 1, 2);
    of_sizes(3, 1, 1, 1, 2, 1, 2);
    of_sizes(3, 1, 1, 2, 2, 1, 2);
    of_sizes(3, 1, 1, 3, 2, 1, 2);
    of_sizes(3, 1, 1, MAX, 2, 1, 2);
    of_sizes(3, 1, 1024, 2048, 2048, 1, 2048);
    of_sizes(3, 1, 1024, 2049, 2048, 1, 2048);
    of_sizes(3, 1, 1025, 1, 2050, 1, 2050);
    of_sizes(3, 1, 0x8000_0000_0000_0001, 1, 2, 1, 2);
    of_sizes(3, 1, 0, 0, 0, 1, 0);
    of_sizes(2, 1, 1, 1, 2, 1, 2);
    of_sizes(10, 1, 1, 1, 2, 4, 2);
    of_sizes(3, 0, 1, 1, 2, 1, 2);
    of_sizes(3, 4, 1, 1, 2, 1, 2);
    of_sizes(9, 9, 1, 1, 2, 4, 2);
    report::end();
}

// Each slice one short and one long: the coins are those of one entry.
fn lengths() {
    report::title(b"split entry lengths:");
    of_sizes(3, 1, 1, 1, 1, 1, 2);
    of_sizes(3, 1, 1, 1, 3, 1, 2);
    of_sizes(3, 1, 1, 1, 2, 0, 2);
    of_sizes(3, 1, 1, 1, 2, 2, 2);
    of_sizes(3, 1, 1, 1, 2, 1, 1);
    of_sizes(3, 1, 1, 1, 2, 1, 3);
    of_sizes(5, 1, 1, 1, 2, 1, 2);
    of_sizes(5, 1, 1, 1, 2, 2, 2);
    report::end();
}

// The coins are below p, and every amount is judged, whichever entry is written.
fn contents() {
    report::title(b"split entry contents:");
    of_table(1, &[5, 4, 4, 5], &[P - 1]);
    of_table(1, &[5, 4, 4, 5], &[P]);
    of_table(1, &[4194303, 4194303, 0, 4194303], &[0]);
    of_table(1, &[5, 4, 4, 4194304], &[0]);
    of_table(4, &[4194304, 4, 4, 5], &[0]);
    of_table(1, &[5, 4, 5, 4], &[0]);
    of_table(4, &[4, 5, 4, 5], &[0]);
    of_table(1, &[MAX, MAX, 0, MAX], &[0]);
    of_table(4, &[MAX, 0, 1, MAX - 1], &[0]);
    of_table(1, &[0, MAX, 0, 0], &[0]);
    report::end();
}

// Calls with more than one fault: the lowest number is given.
fn order() {
    report::title(b"split entry order:");
    of_table(5, &[4, 5, 4], &[P]);
    of_table(1, &[4, 5, 4], &[P]);
    of_table(1, &[4, 4194304, 4, 5], &[P]);
    of_table(1, &[4, 4194304, 4, 5], &[0]);
    report::end();
}

// What a refused call leaves.
fn left() {
    report::title(b"split entry refused leaves:");
    let mut shares = [9u64; 4];
    call(3, 1, 2, 1, &[4, 5, 0, 0], &[1], &mut shares);
    report::numbers(&shares);
    report::end();
}

// One entry, which is one place; then all of a bid, out of order, by which the nines are gone. A second
// coin of an entry that is p is refused, and the entry is written anew.
fn worked() {
    let table = [25, 20, 3, 4194303];

    report::title(b"split entry 3 among 3, party 2:");
    let mut shares = [9u64; 4];
    call(3, 2, 2, 3, &table, &[1234567890123456789], &mut shares);
    report::numbers(&shares);
    report::end();

    report::title(b"split entries 2, 1 among 5, party 5:");
    let mut of_five = [9u64; 2];
    call(5, 5, 1, 2, &[100, 0], &[3, P - 4], &mut of_five);
    call(5, 5, 1, 1, &[100, 0], &[P - 1, P], &mut of_five);
    call(5, 5, 1, 1, &[100, 0], &[P - 1, 2], &mut of_five);
    report::numbers(&of_five);
    report::end();

    report::title(b"split entries 4, 2, 1, 3 among 3, party 2:");
    let mut bundle = [9u64; 4];
    call(3, 2, 2, 4, &table, &[0], &mut bundle);
    call(3, 2, 2, 2, &table, &[P - 1], &mut bundle);
    call(3, 2, 2, 1, &table, &[5], &mut bundle);
    call(3, 2, 2, 3, &table, &[1234567890123456789], &mut bundle);
    report::numbers(&bundle);
    report::end();
}

// One entry of a table of two prices, among three.
fn of_table(entry: u64, table: &[u64], drawn: &[u64]) {
    let mut shares = [9u64; 4];
    call(3, 1, 2, entry, table, drawn, &mut shares);
}

// Amounts and coins of 0, so many of each.
fn of_sizes(n: u64, own: u64, k: u64, entry: u64, table: usize, drawn: usize, shares: usize)
    requires { (table ≤ 2050) × (drawn ≤ 2050) × (shares ≤ 2050) }
{
    let amounts = [0u64; 2050];
    let zeros = [0u64; 2050];
    let mut nines = [9u64; 2050];
    call(
        n,
        own,
        k,
        entry,
        &amounts[..table],
        &zeros[..drawn],
        &mut nines[..shares],
    );
}

fn call(n: u64, own: u64, k: u64, entry: u64, table: &[u64], drawn: &[u64], shares: &mut [u64]) {
    let judgement = bid::split_entry(n, own, k, entry, table, drawn, shares);
    report::number(refusal::code(judgement));
}

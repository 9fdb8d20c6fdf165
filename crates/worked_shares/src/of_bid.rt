// Splitting: its limits, the order of its refusals, and worked shares. A call prints its refusal's
// number, or 0.
ghost use Rattle.std.specs.Prelude.{◌≤◌, length};

use fields::P;

const MAX: u64 = u64::MAX;

pub(crate) fn print() {
    amounts();
    steps();
    ranges();
    lengths();
    coins();
    order();
    left();
    worked();
}

// 4,194,303 passes on both sides, 4,194,304 on neither.
fn amounts() {
    report::title(b"split amounts:");
    of_table(1, &[4194303, 4194303]);
    of_table(1, &[4194304, 0]);
    of_table(1, &[0, 4194304]);
    report::end();
}

// Demand may not rise and supply may not fall. The step from demand's last amount to supply's first
// is a step of neither.
fn steps() {
    report::title(b"split steps:");
    of_table(2, &[4, 4, 4, 4]);
    of_table(2, &[4, 5, 0, 0]);
    of_table(2, &[5, 4, 0, 0]);
    of_table(2, &[0, 0, 5, 4]);
    of_table(2, &[0, 0, 4, 5]);
    of_table(2, &[5, 5, 0, 0]);
    of_table(2, &[0, 0, 5, 5]);
    report::end();
}

// n is 3 to 9, a party's number 1 to n, and k 1 to 1,024: a k that is judged before it is doubled.
fn ranges() {
    report::title(b"split ranges:");
    of_sizes(3, 1, 1, 2, 2, 2);
    of_sizes(2, 1, 1, 2, 2, 2);
    of_sizes(9, 9, 1, 2, 8, 2);
    of_sizes(10, 1, 1, 2, 8, 2);
    of_sizes(3, 0, 1, 2, 2, 2);
    of_sizes(3, 3, 1, 2, 2, 2);
    of_sizes(3, 4, 1, 2, 2, 2);
    of_sizes(3, 1, 0, 0, 0, 0);
    of_sizes(3, 1, 1024, 2048, 2048, 2048);
    of_sizes(3, 1, 1025, 2050, 2050, 2050);
    of_sizes(3, 1, 0x8000_0000_0000_0001, 2, 2, 2);
    report::end();
}

// Each slice one short and one long; then five parties, whose amounts take two coins each.
fn lengths() {
    report::title(b"split lengths:");
    of_sizes(3, 1, 1, 1, 2, 2);
    of_sizes(3, 1, 1, 3, 2, 2);
    of_sizes(3, 1, 1, 2, 1, 2);
    of_sizes(3, 1, 1, 2, 3, 2);
    of_sizes(3, 1, 1, 2, 2, 1);
    of_sizes(3, 1, 1, 2, 2, 3);
    of_sizes(5, 1, 1, 2, 2, 2);
    of_sizes(5, 1, 1, 2, 4, 2);
    report::end();
}

// Coins are below p.
fn coins() {
    report::title(b"split coins:");
    of_coins(1, 1, &[0, 0], &[0, P - 1]);
    of_coins(1, 1, &[0, 0], &[0, P]);
    of_coins(1, 1, &[0, 0], &[MAX, 0]);
    report::end();
}

// Calls with more than one fault: the lowest number is given.
fn order() {
    report::title(b"split order:");
    of_coins(4, 1, &[0], &[0, P]);
    of_coins(1, 1, &[4194304], &[0, P]);
    of_coins(1, 1, &[4194304, 0], &[0, P]);
    of_table(2, &[4194303, 4194304, 0, 0]);
    report::end();
}

// What a refused call leaves.
fn left() {
    report::title(b"split refused leaves:");
    let mut shares = [9u64; 4];
    call(3, 1, 2, &[4, 5, 0, 0], &[1, 2, 3, 4], &mut shares);
    report::numbers(&shares);
    report::end();
}

fn worked() {
    report::title(b"split among 3, party 1:");
    of_three(1);
    report::end();

    report::title(b"split among 3, party 2:");
    of_three(2);
    report::end();

    report::title(b"split among 3, party 3:");
    of_three(3);
    report::end();

    report::title(b"split among 5, party 5:");
    let mut shares = [9u64; 2];
    call(5, 5, 1, &[100, 0], &[P - 1, 2, 3, P - 4], &mut shares);
    report::numbers(&shares);
    report::end();
}

fn of_three(own: u64) {
    let table = [25, 20, 3, 4194303];
    let drawn = [5, P - 1, 1234567890123456789, 0];
    let mut shares = [9u64; 4];
    call(3, own, 2, &table, &drawn, &mut shares);
    report::numbers(&shares);
}

// A table with coins of 0, among three.
fn of_table(k: u64, table: &[u64])
    requires { length table.now ≤ 4 }
{
    let zeros = [0u64; 4];
    let mut shares = [9u64; 4];
    let count = table.len();
    call(3, 1, k, table, &zeros[..count], &mut shares[..count]);
}

// A table with coins, among three.
fn of_coins(own: u64, k: u64, table: &[u64], drawn: &[u64])
    requires { length drawn.now ≤ 4 }
{
    let mut shares = [9u64; 4];
    let count = drawn.len();
    call(3, own, k, table, drawn, &mut shares[..count]);
}

// Amounts and coins of 0, so many of each.
fn of_sizes(n: u64, own: u64, k: u64, table: usize, drawn: usize, shares: usize)
    requires { (table ≤ 2050) × (drawn ≤ 2050) × (shares ≤ 2050) }
{
    let amounts = [0u64; 2050];
    let zeros = [0u64; 2050];
    let mut nines = [9u64; 2050];
    call(
        n,
        own,
        k,
        &amounts[..table],
        &zeros[..drawn],
        &mut nines[..shares],
    );
}

fn call(n: u64, own: u64, k: u64, table: &[u64], drawn: &[u64], shares: &mut [u64]) {
    let judgement = bid::split(n, own, k, table, drawn, shares);
    report::number(refusal::code(judgement));
}

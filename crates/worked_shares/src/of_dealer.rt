// Dealing: its limits and worked sheets. A call prints its refusal's number, or 0.
ghost use Rattle.std.specs.Prelude.{◌≤◌};

use fields::P;

// The first number that is no mask.
const MASKS: u64 = 1 << 58;

// Drawn bytes of 33 rounds, for three parties and for five.
const BYTES_OF_3: usize = 188;

const BYTES_OF_5: usize = 314;

// Those of seven rounds, for three.
const SEVEN_OF_3: usize = 343;

pub(crate) fn print() {
    ranges();
    lengths();
    draws();
    order();
    left();
    worked();
    lasts();
    lengths_of_seven();
    seven();
}

// n is 3 to 9, and a party's number 1 to n.
fn ranges() {
    report::title(b"deal ranges:");
    of_sizes(3, 1, 33, 2, BYTES_OF_3, 127);
    of_sizes(2, 1, 33, 2, BYTES_OF_3, 127);
    of_sizes(9, 9, 33, 5, 566, 127);
    of_sizes(10, 1, 33, 5, 566, 127);
    of_sizes(3, 0, 33, 2, BYTES_OF_3, 127);
    of_sizes(3, 3, 33, 2, BYTES_OF_3, 127);
    of_sizes(3, 4, 33, 2, BYTES_OF_3, 127);
    report::end();
}

// Each slice one short and one long; then no words, and five parties, whose secrets take two
// coefficients each.
fn lengths() {
    report::title(b"deal lengths:");
    of_sizes(3, 1, 33, 1, BYTES_OF_3, 127);
    of_sizes(3, 1, 33, 3, BYTES_OF_3, 127);
    of_sizes(3, 1, 33, 2, 187, 127);
    of_sizes(3, 1, 33, 2, 189, 127);
    of_sizes(3, 1, 33, 2, BYTES_OF_3, 126);
    of_sizes(3, 1, 33, 2, BYTES_OF_3, 128);
    of_sizes(3, 1, 33, 0, BYTES_OF_3, 127);
    of_sizes(5, 1, 33, 3, BYTES_OF_3, 127);
    of_sizes(5, 1, 33, 3, BYTES_OF_5, 127);
    report::end();
}

// A mask is below 2^58 and a coefficient below p.
fn draws() {
    report::title(b"deal draws:");
    of_words(1, &[MASKS - 1, 0], BYTES_OF_3);
    of_words(1, &[MASKS, 0], BYTES_OF_3);
    of_words(1, &[0, P - 1], BYTES_OF_3);
    of_words(1, &[0, P], BYTES_OF_3);
    report::end();
}

// Calls with more than one fault: the lowest number is given.
fn order() {
    report::title(b"deal order:");
    of_words(4, &[0, 0], 187);
    of_words(1, &[MASKS, 0], 187);
    report::end();
}

// What a refused call leaves.
fn left() {
    report::title(b"deal refused leaves:");
    let bytes = [1u8; 188];
    let mut sheet = [9u64; 127];
    call(3, 1, 33, &[MASKS, 0], &bytes, &mut sheet);
    report::numbers(&sheet);
    report::end();
}

fn worked() {
    report::title(b"dealt to 3, party 1:");
    of_three(1);
    report::end();

    report::title(b"dealt to 3, party 2:");
    of_three(2);
    report::end();

    report::title(b"dealt to 3, party 3:");
    of_three(3);
    report::end();

    report::title(b"dealt to 5, party 5:");
    let mut bytes = [0u8; 314];
    fill(&mut bytes, 91, 200);
    let mut sheet = [9u64; 127];
    call(5, 5, 33, &[MASKS - 1, P - 1, P - 1], &bytes, &mut sheet);
    report::numbers(&sheet);
    report::end();
}

fn of_three(own: u64) {
    let mut bytes = [0u8; 188];
    fill(&mut bytes, 37, 11);
    let mut sheet = [9u64; 127];
    call(3, own, 33, &[192060124296846909, P - 2], &bytes, &mut sheet);
    report::numbers(&sheet);
}

// The last round of the probes is 33 or 7, and what is lent goes by it. Another is refused, whatever is
// lent.
fn lasts() {
    report::title(b"deal last rounds:");
    of_sizes(3, 1, 33, 2, BYTES_OF_3, 127);
    of_sizes(3, 1, 7, 2, SEVEN_OF_3, 220);
    of_sizes(3, 1, 8, 2, SEVEN_OF_3, 220);
    of_sizes(3, 1, 8, 2, BYTES_OF_3, 127);
    of_sizes(3, 1, 0, 0, 0, 0);
    report::end();
}

// Each slice one short and one long; bytes or a sheet of 33 rounds; and nine parties.
fn lengths_of_seven() {
    report::title(b"deal lengths of seven rounds:");
    of_sizes(3, 1, 7, 1, SEVEN_OF_3, 220);
    of_sizes(3, 1, 7, 3, SEVEN_OF_3, 220);
    of_sizes(3, 1, 7, 2, 342, 220);
    of_sizes(3, 1, 7, 2, 344, 220);
    of_sizes(3, 1, 7, 2, SEVEN_OF_3, 219);
    of_sizes(3, 1, 7, 2, SEVEN_OF_3, 221);
    of_sizes(3, 1, 7, 2, BYTES_OF_3, 220);
    of_sizes(3, 1, 7, 2, SEVEN_OF_3, 127);
    of_sizes(3, 1, 33, 2, SEVEN_OF_3, 220);
    of_sizes(9, 9, 7, 5, 1000, 220);
    report::end();
}

// From the draws of the sheets above, and as many bytes more: the words that a sheet of 33 rounds has come
// first.
fn seven() {
    report::title(b"dealt for seven rounds to 3, party 2:");
    let mut bytes = [0u8; 343];
    fill(&mut bytes, 37, 11);
    let mut sheet = [9u64; 220];
    call(3, 2, 7, &[192060124296846909, P - 2], &bytes, &mut sheet);
    report::numbers(&sheet);
    report::end();
}

// Place i holds start + i * step, modulo 256, as a byte or as a word.
pub fn fill<T: From<u8> + Copy>(places: &mut [T], step: u8, start: u8) {
    let mut next = start;
    for place in places.iter_mut() {
        *place = T::from(next);
        next = next.wrapping_add(step);
    }
}

// Three parties' words, and so many bytes of 0.
fn of_words(own: u64, words: &[u64], count: usize)
    requires { count ≤ 188 }
{
    let bytes = [0u8; 188];
    let mut sheet = [9u64; 127];
    call(3, own, 33, words, &bytes[..count], &mut sheet);
}

// Words and bytes of 0, so many of each, and a sheet of so many words.
fn of_sizes(n: u64, own: u64, last: u64, words: usize, bytes: usize, sheet: usize)
    requires { (words ≤ 5) × (bytes ≤ 1000) × (sheet ≤ 221) }
{
    let zero_words = [0u64; 5];
    let zero_bytes = [0u8; 1000];
    let mut nines = [9u64; 221];
    call(
        n,
        own,
        last,
        &zero_words[..words],
        &zero_bytes[..bytes],
        &mut nines[..sheet],
    );
}

fn call(n: u64, own: u64, last: u64, words: &[u64], bytes: &[u8], sheet: &mut [u64]) {
    let judgement = dealer::deal(n, own, last, words, bytes, sheet);
    report::number(refusal::code(judgement));
}

// A line of a test program: its title, the values after it, and its end.
#![tactic(auto)]

// Standard output's descriptor.
const STDOUT_FILENO: i32 = 1;

pub fn title(text: &[u8]) {
    io::write_all(STDOUT_FILENO, text);
}

pub fn number(n: u64) {
    io::write_all(STDOUT_FILENO, b" ");
    io::print_decimal(STDOUT_FILENO, n);
}

// Two hexadecimal digits.
pub fn byte(b: u8) {
    io::write_all(STDOUT_FILENO, b" ");
    io::print_hex(STDOUT_FILENO, b as u64, 2);
}

pub fn word(text: &[u8]) {
    io::write_all(STDOUT_FILENO, b" ");
    io::write_all(STDOUT_FILENO, text);
}

pub fn yes_or_no(holds: bool) {
    if holds {
        word(b"yes");
    } else {
        word(b"no");
    }
}

pub fn end() {
    io::write_all(STDOUT_FILENO, b"\n");
}

pub fn numbers(words: &[u64]) {
    for word in words {
        number(*word);
    }
}

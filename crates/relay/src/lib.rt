// The rehearsal or the settlement of what one descriptor gives, written to another.
#![tactic(auto)]

use listing::ROOM;
use settling::PAGE;

// Every input that is accepted fits. A longer one is refused for what does (`Cut.cut_listing` of
// crate `rehearsal`, `Settled.cut_settlement` of crate `settling`). The room is made where it is read
// into: returned by a function, it would stand on the stack three times in an unoptimised program.
const INPUT: usize = 4194304;

pub fn rehearse_between(from: i32, to: i32) {
    let mut input = [0u8; INPUT];
    let got = io::read_full(from, &mut input);
    rehearse_read(&input[..got], to);
}

// The rehearsal of an input that is read already.
pub fn rehearse_read(input: &[u8], to: i32) {
    let mut out = [0u8; ROOM];
    let long = rehearsal::rehearse(input, &mut out);
    io::write_all(to, &out[..long]);
}

pub fn settle_between(from: i32, to: i32) {
    let mut input = [0u8; INPUT];
    let got = io::read_full(from, &mut input);
    let mut out = [0u8; PAGE];
    let long = settling::settle(&input[..got], &mut out);
    io::write_all(to, &out[..long]);
}

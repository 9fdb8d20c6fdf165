// The rehearsal of standard input, on standard output.
#![tactic(auto)]

fn main() {
    relay::rehearse_between(0, 1);
}

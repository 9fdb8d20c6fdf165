// The settlement of standard input, on standard output.
#![tactic(auto)]

fn main() {
    relay::settle_between(0, 1);
}

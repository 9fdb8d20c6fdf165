// Runs worked examples and edge values through the crates and prints what they give, a line a
// group. The expected output is in the file stdout: it was worked out apart from this code.
#![tactic(auto)]

mod line;
mod of_hearing;
mod of_presence;
mod of_price;
mod of_seven;

fn main() {
    worked_values::print();
    worked_shares::print();
    worked_party::print();
    of_hearing::print();
    of_presence::print();
    of_price::print();
    of_seven::print();
    worked_sessions::print();
    worked_pages::print();
}

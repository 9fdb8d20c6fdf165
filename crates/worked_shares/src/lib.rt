// Lines of worked shares: a bid's, whole and entry by entry, and a sheet's, with their limits.
#![tactic(auto)]

mod of_bid;
mod of_dealer;
mod of_entry;

pub use of_dealer::fill;

pub fn print() {
    of_bid::print();
    of_entry::print();
    of_dealer::print();
}

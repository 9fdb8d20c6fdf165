// Lines of a party's calls, all but hearing.
#![tactic(auto)]

mod line;
mod of_adding;
mod of_bidders;
mod of_fills;
mod of_party;
mod of_price;
mod of_searches;
mod of_seven;
mod records;

pub use of_party::print;
pub use records::{code, record, searches, whole};

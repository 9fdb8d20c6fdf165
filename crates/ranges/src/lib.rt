// What words and numbers are judged by: their ranges and their order.
#![tactic(auto)]

mod lists;
mod parties;
mod steps;

pub use lists::{all_below, same};
pub use parties::{HIGHEST_PRICE, is_party, on_list};
pub use steps::first_bend;

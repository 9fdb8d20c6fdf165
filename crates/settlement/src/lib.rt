// The settlement page (the paper's week's result on a board): a line for each side of each bidder that
// wants any hours, written from the entries and read back.
#![tactic(auto)]

mod entries;
mod reading;
mod writing;

pub use entries::ENTRIES;
pub use reading::read;
pub use writing::write;

// All parties at once: their records side by side, their totals and sheets one after another in
// flat slices. Each call is made for each party with its own part.
#![tactic(auto)]

mod adding;
mod dealing;
mod parties;

pub use adding::add_all;
pub use dealing::deal_each;
pub use parties::{open_all, returned};

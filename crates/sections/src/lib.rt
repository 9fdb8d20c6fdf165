// The sections of the rehearsal's input: seeds, prices and bids, each read whole and judged.
#![tactic(auto)]

mod reading;
mod table;

pub use reading::{PricesRead, SeedsRead, read_bids, read_prices, read_seeds};
pub use table::Fault;

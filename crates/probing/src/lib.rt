// Probe after probe of all parties, until both searches are over, and then the totals at the price.
#![tactic(auto)]

mod probes;
mod searching;

pub use searching::{Ended, search};

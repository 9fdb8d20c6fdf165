// The rehearsal: a whole auction from a file of numbers, and the listing of its probes.
#![tactic(auto)]

mod rehearsing;

pub use rehearsing::rehearse;

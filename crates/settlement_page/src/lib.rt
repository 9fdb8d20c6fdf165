// The lines of the settlement page: one is written, or read again.
#![tactic(auto)]

mod columns;
mod line;

pub use line::{LINE, PairRead, in_range, put_line, read_pair};

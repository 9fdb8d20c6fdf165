// The rehearsal's input: its lines judged section by section, in order, before anything is run.
#![tactic(auto)]

mod judging;

pub use judging::{Shape, judge};

// A round of all parties: each says its words, and all words go to each party's hearing.
#![tactic(auto)]

mod rounds;
mod turns;

pub use rounds::{hear_all, round, say_all};

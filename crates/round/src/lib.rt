// A round's messages, and what those of the parties who were present open to.
#![tactic(auto)]

mod messages;

pub use messages::{open_round, sum_outside, unopened, verdict_outside};

// What the messages of a round open to. One enum, and no Option of what opens: `heard` and `Possible`, and the theorems over them, name
// Unopened.
#[derive(Clone, Copy)]
pub enum Heard {
    // round 1: T
    Sum(u64),
    // rounds 2 to 32: D and E
    Factors(u64, u64),
    // round 33
    Verdict(u64),
    // rounds 34 and 35: total demand, total supply
    Total(u64),
    Unopened,
}

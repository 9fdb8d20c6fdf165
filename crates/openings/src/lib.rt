// Opening all n shares, in both fields. They share no code: sums of amounts are made of halves and reduced once, those of bytes
// are made of exponents, all in one word.
#![tactic(auto)]

mod amount;
mod byte;
mod opening;

pub use amount::open_amount;
pub use byte::{Pair, open_byte, open_pair, open_pair_by, terms};
pub use opening::Opening;

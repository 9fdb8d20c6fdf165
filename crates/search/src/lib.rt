// The price search. A bracket of indices is narrowed by each verdict until its ends are neighbours. Two
// searches of this kind follow one another: the first for the highest price, the second for the lowest
// price that is balanced with it.
#![tactic(auto)]

mod bracket;
mod searches;

pub use bracket::{Bracket, limit, middle, most_probes, over};
pub use searches::{Search, clears, finished, next, price, sound};

// What a party says in a round in which it says one word, of a sheet that it is given. (In a level it says several: `level`.)
#![tactic(auto)]

mod sheet;
mod word;

pub use sheet::Sheet;
pub use word::{Totals, are_shares, in_level, single, totals_at};

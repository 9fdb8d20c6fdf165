// The weights of an opening: in each field a table with a row for each count of parties.
#![tactic(auto)]

mod amount;
mod byte;
mod row;

pub use amount::amount_row;
pub use byte::byte_row;

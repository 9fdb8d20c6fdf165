// Lowering the degree of a polynomial by lines through its words: amounts, or words of two bytes.
#![tactic(auto)]

mod amount;
mod byte;
mod words;

pub use amount::Amounts;
pub use words::{Lines, descend, lower};

// Lines of text read as whole numbers: any bytes are lines, and each is a number or misshapen.
#![tactic(auto)]

mod line;
mod numbers;

pub use line::{Line, LineRead, Part, read_line};
pub use numbers::{Numbers, price_at, read_numbers, read_table};

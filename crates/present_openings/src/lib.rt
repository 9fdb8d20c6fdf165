// Opening the shares of those who were present, in both fields.
#![tactic(auto)]

mod present;
mod words;

pub use present::{
    open_present_amount, open_present_byte, open_present_pair, open_present_pair_by,
};

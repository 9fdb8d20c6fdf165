// A session of a party (the paper's keeper): the calls that open it, add a bid and ask for its answer.
#![tactic(auto)]

mod adding;
mod answering;
mod opening;
mod reply;

pub use adding::{add, add_judged};
pub use answering::{answer, answer_judged};
pub use opening::open;
pub use reply::Answer;

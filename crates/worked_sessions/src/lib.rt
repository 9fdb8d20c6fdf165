// Lines of whole sessions.
#![tactic(auto)]

mod of_sessions;

pub use of_sessions::print;

// The listing, written line by line into a lent buffer.
#![tactic(auto)]

mod course;
mod text;

pub use course::{Course, PROBES, Probe, ROOM, write_course, write_no_price, write_refused};

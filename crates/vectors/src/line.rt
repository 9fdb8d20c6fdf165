// A line of the report, by a short name.
pub(crate) use report::{end, number, title};

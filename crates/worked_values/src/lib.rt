// Lines of worked values: refusals' numbers, both fields, sharing, the price search, and what is counted
// by the last round of a probe.
#![tactic(auto)]

mod of_fields;
mod of_refusals;
mod of_search;
mod of_sharing;
mod of_ways;

pub fn print() {
    of_refusals::print();
    of_fields::print();
    of_sharing::print();
    of_search::print();
    of_ways::print();
}

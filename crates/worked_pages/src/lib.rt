// Lines of settlement pages: written, read back, and refused. A call prints how many bytes it wrote, or
// its refusal's number, or 0.
#![tactic(auto)]

mod of_reading;
mod of_writing;

pub fn print() {
    of_writing::print();
    of_reading::print();
}

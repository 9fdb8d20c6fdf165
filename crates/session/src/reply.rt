// What asking replies.
// The price index, 0 for no price, as C is given it, and how many probes were made.
#[derive(Clone, Copy)]
pub struct Answer {
    pub price: u64,
    pub probes: u64,
}

// The bids are collected: sessions are opened, and the bids of the input are read and added.
#![tactic(auto)]

ghost use Rattle.std.specs.Prelude.{◌≡◌, ◌*◌, ◌≤◌, length, drop};
ghost use Rattle.sharing.specs.Scheme.{threshold};
ghost use Rattle.auction.specs.Auction.{IsAuction};
ghost use Rattle.auction.proofs.Closed.{polynomials, full_roll};
ghost use Rattle.draws.specs.Draws.{first_state, after_bids, auction_coins};
ghost use Rattle.standing.proofs.Standing.{auction_of, Holds};

mod adding;

pub use adding::Added;
use adding::add_bids;
use draws::{LAST, first_state};
use panel::open_all;

// Opens the sessions, and adds the bids that begin at `at`.
pub fn collect(
    n: u64,
    seed: u64,
    k: u64,
    bids: u64,
    input: &[u8],
    at: usize,
    totals: &mut [u64],
) -> Added
    requires { (k ≤ 256) × (bids ≤ 1000) × IsAuction (auction_of n k bids (drop at input.now)) × (length totals.old ≡ n * (2 * k)) }
    ensures { (result.state ≡ after_bids (threshold n) k bids (first_state seed))
        × Holds (auction_of n k bids (drop at input.now)) (full_roll (auction_of n k bids (drop at input.now)))
        (polynomials (auction_of n k bids (drop at input.now)) (auction_coins n k bids seed)) result.parties totals.new }
{
    let parties = open_all(n, k, LAST, totals);
    add_bids(n, k, bids, input, at, first_state(seed), parties, totals)
}

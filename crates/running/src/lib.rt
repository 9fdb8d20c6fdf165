// The auction of an accepted input, by the calls alone.
#![tactic(auto)]

ghost use Rattle.std.specs.Prelude.{◌≡◌, ◌*◌, ◌≤◌, length, drop, Ok};
ghost use Rattle.search.specs.Limit.{most_probes};
ghost use Rattle.auction.specs.Auction.{IsAuction};
ghost use Rattle.auction.specs.Demands.{FleetTold};
ghost use Rattle.plan.specs.Judged.{judged_as};
ghost use Rattle.standing.proofs.Standing.{auction_of};
ghost use Rattle.listing.specs.Lines.{most_listed};
ghost use Rattle.probing.specs.Follows.{Follows};

use collecting::collect;
use drawn_sheets::deal_all;
use plan::Shape;
use probing::{Ended, search};
use search::most_probes;

// The auction, in slices lent for the parties' totals and sheets.
fn hold(
    n: u64,
    seed: u64,
    k: u64,
    bids: u64,
    input: &[u8],
    at: usize,
    totals: &mut [u64],
    sheets: &mut [u64],
) -> Ended
    requires { (k ≤ 256) × (bids ≤ 1000) × IsAuction (auction_of n k bids (drop at input.now))
        × (length totals.old ≡ n * (2 * k)) × (length sheets.old ≡ n * (127 * most_probes k)) }
    ensures { (result.course.probes ≤ most_listed) × Follows (auction_of n k bids (drop at input.now)) result.course
        × FleetTold (auction_of n k bids (drop at input.now)) result.party }
{
    let added = collect(n, seed, k, bids, input, at, totals);
    let parties = added.parties;
    deal_all(n, k, added.state, sheets);
    search(n, k, parties, &totals[..], &sheets[..])
}

// Room for the totals of nine parties: an array, since there is no heap.
fn no_totals() -> [u64; 4608] {
    [0u64; 4608]
}

// Room for eighteen sheets of each of nine parties, likewise.
fn no_sheets() -> [u64; 20574] {
    [0u64; 20574]
}

// The auction of an input that `judge` found good.
pub fn run(input: &[u8], shape: Shape) -> Ended
    requires { judged_as input.now ≡ Ok shape }
    ensures { (result.course.probes ≤ most_listed)
        × Follows (auction_of shape.n shape.k shape.bids (drop shape.bids_at input.now)) result.course
        × FleetTold (auction_of shape.n shape.k shape.bids (drop shape.bids_at input.now)) result.party }
{
    let n = shape.n;
    let k = shape.k;
    let held = n as usize * (2 * k as usize);
    let lent = n as usize * (127 * most_probes(k) as usize);
    let mut totals = no_totals();
    let mut sheets = no_sheets();
    hold(
        n,
        shape.seed,
        k,
        shape.bids,
        input,
        shape.bids_at,
        &mut totals[..held],
        &mut sheets[..lent],
    )
}

// The bids of the input, read one after another and added for all parties.
ghost use Rattle.std.specs.Prelude.{◌≡◌, ◌+◌, ◌*◌, ◌≤◌, length, drop, get_or};
ghost use Rattle.sharing.specs.Scheme.{threshold};
ghost use Rattle.draws.specs.Draws.{next_coin, later, drawn_coins, after_bids};
ghost use Rattle.lines.specs.Lines.{numbers, bytes_of};
ghost use Rattle.record.specs.Record.{blank};
ghost use Rattle.panel.specs.Parties.{All, part, party_added, totals_added};
ghost use Rattle.standing.proofs.Standing.{Adds};

use draws::draw_coins;
use lines::read_table;
use panel::add_all;
use record::Party;
use sharing::threshold;

// Room for a bid's table.
fn no_table() -> [u64; 512] {
    [0u64; 512]
}

// Room for the coins of a bid.
fn no_coins() -> [u64; 2048] {
    [0u64; 2048]
}

// The records after a bid, where the next bid begins, and the state of the draws.
#[derive(Clone, Copy)]
pub struct Added {
    pub parties: [Party; 9],
    pub at: usize,
    pub state: u64,
}

// Reads the next bid, draws its coins, and adds it for all parties under its bidder's number.
fn add_next(
    n: u64,
    k: u64,
    bidder: u64,
    input: &[u8],
    at: usize,
    state: u64,
    parties: [Party; 9],
    totals: &mut [u64],
) -> Added
    requires { (3 ≤ n) × (n ≤ 9) × (k ≤ 256) × (length totals.old ≡ n * (2 * k)) }
    ensures { (result.at ≡ at + bytes_of (2 * k) (drop at input.now)) × (result.state ≡ later next_coin (2 * k * threshold n) state)
        × All n (λ i. (get_or result.parties i blank ≡ party_added n k bidder (numbers (2 * k) (drop at input.now)) (drawn_coins (2 * k * threshold n) state) parties totals.old i)
        × (part (2 * k) i totals.new ≡ totals_added n k bidder (numbers (2 * k) (drop at input.now)) (drawn_coins (2 * k * threshold n) state) parties totals.old i)) }
{
    let width = 2 * k as usize;
    let drawn = width * threshold(n) as usize;
    let mut table = no_table();
    let mut coins = no_coins();
    let next = read_table(input, at, &mut table[..width]);
    let last = draw_coins(state, &mut coins[..drawn]);
    let after = add_all(
        n,
        k,
        bidder,
        &table[..width],
        &coins[..drawn],
        parties,
        totals,
    );
    Added {
        parties: after,
        at: next,
        state: last,
    }
}

// All bids, one after another. Bidders are numbered in the order of their bids.
pub(crate) fn add_bids(
    n: u64,
    k: u64,
    bids: u64,
    input: &[u8],
    at: usize,
    state: u64,
    parties: [Party; 9],
    totals: &mut [u64],
) -> Added
    requires { (3 ≤ n) × (n ≤ 9) × (k ≤ 256) × (bids ≤ 1000) × (length totals.old ≡ n * (2 * k)) }
    ensures { (result.state ≡ after_bids (threshold n) k bids state)
        × Adds n k bids (drop at input.now) state parties totals.old result.parties totals.new }
{
    let mut so_far = Added { parties, at, state };
    for i in 0..bids {
        let place = so_far.at;
        let drawn = so_far.state;
        let records = so_far.parties;
        let next = add_next(n, k, i + 1, input, place, drawn, records, totals);
        so_far = next;
    }
    so_far
}

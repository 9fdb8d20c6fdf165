// One bid: its shares are made for each party, which adds them to its totals.
ghost use Rattle.std.specs.Prelude.{◌≡◌, ◌*◌, ◌≤◌, length, get_or, replicate};
ghost use Rattle.session.specs.Add.{add_reply, add_left};
ghost use Rattle.record.specs.Record.{blank};
ghost use Rattle.panel.specs.Parties.{All, part, shares_of, party_added, totals_added};

use crate::parties::returned;
use bid::split;
use record::Party;
use session::add;

// Room for a party's shares: an array, since there is no heap.
fn zeros() -> [u64; 512]
    ensures { result ≡ replicate 512 0 }
{
    [0u64; 512]
}

// One party's call to the desk, and its own. The table is judged before: a refused split would leave
// shares of zeros, which are a bid too.
fn add_one(
    n: u64,
    k: u64,
    own: u64,
    bidder: u64,
    table: &[u64],
    coins: &[u64],
    q: Party,
    totals: &mut [u64],
) -> Party
    requires { k ≤ 256 }
    ensures { (result ≡ (add_reply q totals.old bidder (shares_of n k own table.now coins.now)).party)
        × (totals.new ≡ add_left q totals.old bidder (shares_of n k own table.now coins.now)) }
{
    let width = 2 * k as usize;
    let mut shares = zeros();
    let _ = split(n, own, k, table, coins, &mut shares[..width]);
    let reply = add(q, totals, bidder, &shares[..width]);
    returned(reply)
}

// The same for all parties, by number: of chunks that are lent to be written nothing would be known afterwards.
pub fn add_all(
    n: u64,
    k: u64,
    bidder: u64,
    table: &[u64],
    coins: &[u64],
    parties: [Party; 9],
    totals: &mut [u64],
) -> [Party; 9]
    requires { (n ≤ 9) × (k ≤ 256) × (length totals.old ≡ n * (2 * k)) }
    ensures { All n (λ i. (get_or result i blank ≡ party_added n k bidder table.now coins.now parties totals.old i)
        × (part (2 * k) i totals.new ≡ totals_added n k bidder table.now coins.now parties totals.old i)) }
{
    let width = 2 * k as usize;
    let count = n as usize;
    let mut after = parties;
    for i in 0..count {
        let at = i * width;
        let next = at + width;
        let q = parties[i];
        after[i] = add_one(
            n,
            k,
            i as u64 + 1,
            bidder,
            table,
            coins,
            q,
            &mut totals[at..next],
        );
    }
    after
}

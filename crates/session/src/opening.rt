// Opening a session.
ghost use Rattle.std.specs.Prelude.{◌≡◌, length, replicate};
ghost use Rattle.session.specs.Open.{open_reply, open_left};

use kept_pairs::Pairs;
use ranges::on_list;
use record::{Party, Reply, accepted, blank, refused};
use refusal::Refusal;
use roll::Roll;
use search::{Bracket, Search};
use ways::is_way;

// Zeroes the totals and gives the record that the session starts with.
pub fn open(n: u64, own: u64, k: u64, last: u64, totals: &mut [u64]) -> Reply
    ensures { (result ≡ open_reply n own k last totals.old)
        × (totals.new ≡ open_left n own k last totals.old) }
{
    if !(on_list(n, own, k) & is_way(last)) {
        return refused(Refusal::OutOfRange, blank());
    }
    if totals.len() != 2 * k as usize {
        return refused(Refusal::WrongLength, blank());
    }
    totals.fill(0);
    let hi = k + 1;
    accepted(Party {
        n,
        own,
        k,
        bids: 0,
        search: Search {
            which: 1,
            bracket: Bracket { lo: 0, hi },
            probes: 0,
            first: 0,
            spent: 0,
        },
        round: 1,
        sum: 0,
        carry: 0,
        roll: Roll::empty(),
        demand: 0,
        supply: 0,
        last,
        pairs: Pairs::none(),
    })
}

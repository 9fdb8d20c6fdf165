// Adding a bid.
ghost use Rattle.std.specs.Prelude.{◌≡◌, ◌+◌, ◌^◌, ◌<◌, length};
ghost use Rattle.fields.specs.Amount.{amounts};
ghost use Rattle.sharing.specs.Linear.{sums};
ghost use Rattle.record.specs.Record.{sound};
ghost use Rattle.record.specs.Updates.{entered};
ghost use Rattle.session.specs.Add.{add_judgement, add_reply, add_left};

use fields::{AmountShare, P};
use ranges::all_below;
use record::{Party, Reply, accepted, refused, sound};
use refusal::{Judgement, Refusal};
use roll::is_bidder;

// Adds a party's shares of a bidder's bid to its totals, and enters the bidder. Nothing is written
// unless all of the call is accepted.
pub fn add(q: Party, totals: &mut [u64], bidder: u64, shares: &[u64]) -> Reply
    ensures { (result ≡ add_reply q totals.old bidder shares.now)
        × (totals.new ≡ add_left q totals.old bidder shares.now) }
{
    add_judged(q, sound(q), totals, bidder, shares)
}

// The same, of a record that who calls has judged where it stands. The two stay apart: a struct of
// them would be made for this one call, and taken apart in it.
pub fn add_judged(q: Party, whole: bool, totals: &mut [u64], bidder: u64, shares: &[u64]) -> Reply
    requires { whole ≡ sound q }
    ensures { (result ≡ add_reply q totals.old bidder shares.now)
        × (totals.new ≡ add_left q totals.old bidder shares.now) }
{
    let judgement = judge(q, whole, &totals[..], bidder, shares);
    if let Err(why) = judgement {
        return refused(why, q);
    }
    add_words(totals, shares);
    accepted(entered(q, bidder))
}

// The first refusal that applies.
fn judge(q: Party, whole: bool, totals: &[u64], bidder: u64, shares: &[u64]) -> Judgement
    requires { whole ≡ sound q }
    ensures { result ≡ add_judgement q totals.now bidder shares.now }
{
    if !(whole & is_bidder(bidder)) {
        return Err(Refusal::OutOfRange);
    }
    let words = 2 * q.k as usize;
    if !((totals.len() == words) & (shares.len() == words)) {
        return Err(Refusal::WrongLength);
    }
    if (0 < q.search.probes) | (1 < q.round) {
        return Err(Refusal::OutOfTurn);
    }
    let roll = q.roll;
    if roll.marked(bidder) {
        return Err(Refusal::AlreadyEntered);
    }
    if !(all_below(totals, P) & all_below(shares, P)) {
        return Err(Refusal::ShareOutOfRange);
    }
    Ok(())
}

// The bid is held, and its bidder is in.
fn entered(q: Party, bidder: u64) -> Party
    requires { q.bids + 1 < 2 ^ 64 }
    ensures { result ≡ entered q bidder }
{
    let roll = q.roll;
    let mut next = q;
    next.bids = q.bids + 1;
    next.roll = roll.mark(bidder);
    next
}

fn add_words(totals: &mut [u64], shares: &[u64])
    requires { length totals.old ≡ length shares.now }
    ensures { totals.new ≡ sums amounts totals.old shares.now }
{
    for (i, total) in totals.iter_mut().enumerate() {
        *total = AmountShare(*total).add(AmountShare(shares[i])).0;
    }
}

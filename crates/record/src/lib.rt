// A party's record: all that a session is, but for the words it is lent.
#![tactic(auto)]

ghost use Rattle.std.specs.Prelude.{◌≡◌, length, Err, Ok};
ghost use Rattle.record.specs.Record.{are_totals, round_sound, sound, ended, blank};

use kept_pairs::Pairs;
use ranges::{all_below, on_list};
use refusal::{Judgement, Refusal};
use roll::{Roll, marks_in, proper_in};
use search::{Bracket, Search, clears, finished};
use ways::is_way;

// T is below it.
const SUMS: u64 = (1 << 59) + (1 << 33);

// Totals are below it.
const TOTALS: u64 = 1 << 32;

// Every number is wide enough to be wrong, and the roll is any 16 words; every call judges the record
// whole. So the last round is a number and no enum: `record_words::party_of` reads any 64 words.
#[derive(Clone, Copy)]
pub struct Party {
    pub n: u64,
    pub own: u64,
    pub k: u64,
    pub bids: u64,
    // where the searches stand
    pub search: Search,
    pub round: u64,
    // T, once round 1 is heard
    pub sum: u64,
    // the share of the carry
    pub carry: u64,
    // whose bids are held
    pub roll: Roll,
    // total demand and total supply at the price, once they are opened
    pub demand: u64,
    pub supply: u64,
    // the last round of a probe, 33 or 7
    pub last: u64,
    // the pair shares kept in a probe of seven rounds
    pub pairs: Pairs,
}

// How a call was judged, and the record afterwards: as it was, where the call is refused. Both are there, where a `Result`
// has the one or the other: `auction` follows the record through refused calls too (`Received`).
#[derive(Clone, Copy)]
pub struct Reply {
    pub judgement: Judgement,
    pub party: Party,
}

// Totals of at most 1,000 bids, of which supply is at most demand.
pub fn are_totals(demand: u64, supply: u64) -> bool
    ensures { result ≡ are_totals demand supply }
{
    (demand < TOTALS) & (supply < TOTALS) & (supply <= demand)
}

// A probe has the rounds 1 to the last one. Once the searches have ended at a price, the totals there are opened in
// the rounds 34 and 35.
fn round_sound(s: Search, last: u64, round: u64) -> bool
    ensures { result ≡ round_sound s last round }
{
    if clears(s) {
        return (34 <= round) & (round <= 36);
    }
    (1 <= round) & (round <= last)
}

// Every field is in its range, the searches are searches of k indices, nobody but bidders is on the
// roll, and as many bids are held as it has marks. The record is judged in its parts, the words of the roll and of
// the pairs where they stand, so that it is not copied for it: who calls has 16 and 32.
pub fn are_sound(
    n: u64,
    own: u64,
    k: u64,
    bids: u64,
    search: Search,
    round: u64,
    sum: u64,
    carry: u64,
    roll: &[u64],
    demand: u64,
    supply: u64,
    last: u64,
    pairs: &[u64],
) -> bool
    requires { (length roll.now ≡ 16) × (length pairs.now ≡ 32) }
    ensures { result ≡ sound (record {
      n = n;
      own = own;
      k = k;
      bids = bids;
      search = search;
      round = round;
      sum = sum;
      carry = carry;
      roll = record { words = roll.now };
      demand = demand;
      supply = supply;
      last = last;
      pairs = record { words = pairs.now };
    }) }
{
    on_list(n, own, k)
        & search::sound(k, search)
        & round_sound(search, last, round)
        & (sum < SUMS)
        & (carry <= 255)
        & proper_in(roll)
        & (bids == marks_in(roll))
        & are_totals(demand, supply)
        & is_way(last)
        & all_below(pairs, 256)
}

pub fn sound(q: Party) -> bool
    ensures { result ≡ sound q }
{
    let roll = q.roll;
    let marks = roll.words;
    let pairs = q.pairs;
    let shares = pairs.words;
    are_sound(
        q.n, q.own, q.k, q.bids, q.search, q.round, q.sum, q.carry, &marks, q.demand, q.supply,
        q.last, &shares,
    )
}

// Whether the session is over: with no price when the searches have ended, else when the totals are
// opened.
pub fn ended(q: Party) -> bool
    ensures { result ≡ ended q }
{
    if clears(q.search) {
        return q.round == 36;
    }
    finished(q.search)
}

// Where no session is opened: a record of zeros, which is not sound.
pub fn blank() -> Party
    ensures { result ≡ blank }
{
    Party {
        n: 0,
        own: 0,
        k: 0,
        bids: 0,
        search: Search {
            which: 0,
            bracket: Bracket { lo: 0, hi: 0 },
            probes: 0,
            first: 0,
            spent: 0,
        },
        round: 0,
        sum: 0,
        carry: 0,
        roll: Roll::empty(),
        demand: 0,
        supply: 0,
        last: 0,
        pairs: Pairs::none(),
    }
}

pub fn accepted(next: Party) -> Reply
    ensures { result ≡ record { judgement = Ok tt; party = next } }
{
    Reply {
        judgement: Ok(()),
        party: next,
    }
}

pub fn refused(why: Refusal, old: Party) -> Reply
    ensures { result ≡ record { judgement = Err why; party = old } }
{
    Reply {
        judgement: Err(why),
        party: old,
    }
}

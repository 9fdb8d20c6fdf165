// Records of the first of three parties, for one price; and what a call's reply prints.
use crate::line;
use kept_pairs::Pairs;
use record::{Party, Reply};
use refusal::Judgement;
use roll::Roll;
use search::{Bracket, Search};
use session::Answer;

// Nothing is heard, and nobody is in.
pub(crate) fn fresh() -> Party {
    holding(0, Roll::empty())
}

// Nothing is heard. The count of bids may be the roll's own or another one.
pub(crate) fn holding(bids: u64, roll: Roll) -> Party {
    Party {
        n: 3,
        own: 1,
        k: 1,
        bids,
        search: searches(1, 0, 2, 0, 0, 0),
        round: 1,
        sum: 0,
        carry: 0,
        roll,
        demand: 0,
        supply: 0,
        last: 33,
        pairs: Pairs::none(),
    }
}

// Nobody is in, and the second search is on after a first that gave 1 in one probe.
pub(crate) fn second(lo: u64, hi: u64, probes: u64) -> Party {
    let mut q = fresh();
    q.search = searches(2, lo, hi, probes, 1, 1);
    q
}

// Nobody is in, and both searches have ended at index 1, the price, in a probe each.
pub(crate) fn at_price(round: u64) -> Party {
    let mut q = second(0, 1, 2);
    q.round = round;
    q
}

// Nobody is in, and both searches have ended with no price, in a probe of the first.
pub(crate) fn no_price() -> Party {
    let mut q = fresh();
    q.search = searches(2, 0, 1, 1, 0, 1);
    q
}

// Which one is on, its ends, the probes done, what the first gave and its probes.
pub fn searches(which: u64, lo: u64, hi: u64, probes: u64, first: u64, spent: u64) -> Search {
    Search {
        which,
        bracket: Bracket { lo, hi },
        probes,
        first,
        spent,
    }
}

// Bidders 64 and 1,000: the lowest bit of a word, and the last one that a roll may have.
pub(crate) fn two() -> Roll {
    Roll::empty().mark(64).mark(1000)
}

pub fn code(reply: Reply) -> u64 {
    refusal::code(reply.judgement)
}

// The record that an accepted call gives.
pub fn record(reply: Reply) {
    match reply.judgement {
        Ok(()) => party(reply.party),
        Err(_) => line::word(b"refused"),
    }
}

// The same of seven rounds: with the last round of a probe, and the pair shares.
pub fn whole(reply: Reply) {
    record(reply);
    let q = reply.party;
    line::number(q.last);
    line::numbers(&q.pairs.words);
}

// The index and the probes.
pub(crate) fn answer(q: Party) {
    match session::answer(q) {
        Ok(answer) => {
            line::number(answer.price);
            line::number(answer.probes);
        }
        Err(why) => {
            line::word(b"refused");
            line::number(u64::from(why));
        }
    }
}

// The record is judged first, and then whether the session is over.
pub(crate) fn asked(q: Party) {
    line::number(refusal::code(session::answer(q).map(|_| ())));
}

// Ten numbers, the 16 words of its roll, what the ten leave out of its searches, and the totals.
pub(crate) fn party(q: Party) {
    let s = q.search;
    line::numbers(&[
        q.n,
        q.own,
        q.k,
        q.bids,
        s.bracket.lo,
        s.bracket.hi,
        s.probes,
        q.round,
        q.sum,
        q.carry,
    ]);
    line::numbers(&q.roll.words);
    line::numbers(&[s.which, s.first, s.spent, q.demand, q.supply]);
}

// Probe after probe until both searches are over, then the totals at the price, and what is noted.
ghost use Rattle.std.specs.Prelude.{◌≡◌, not, ◌*◌, ◌≤◌, length};
ghost use Rattle.search.specs.Bracket.{middle};
ghost use Rattle.search.specs.Limit.{most_probes};
ghost use Rattle.search.specs.Searches.{finished};
ghost use Rattle.session.specs.Answer.{answer_reply};
ghost use Rattle.auction.specs.Demands.{FleetTold};
ghost use Rattle.standing.proofs.Standing.{FromStart};
ghost use Rattle.listing.specs.Lines.{most_listed};
ghost use Rattle.probing.specs.Follows.{moved_end, verdict_read, priced, Follows};

use crate::probes::probe;
use listing::{Course, PROBES, Probe};
use record::Party;
use search::{Search, finished, middle};
use session::answer;
use total_rounds::open_totals;

// How the auction went, and the record of party 1, whose session is over.
#[derive(Clone, Copy)]
pub struct Ended {
    pub course: Course,
    pub party: Party,
}

// Whether the searches go on.
fn going(q: Party) -> bool
    ensures { result ≡ not (finished q.search) }
{
    !finished(q.search)
}

// The index that is probed next.
fn probed(q: Party) -> u64
    ensures { result ≡ middle q.search.bracket }
{
    middle(q.search.bracket)
}

// The end that the verdict 1 would have moved. Where the first search has ended, its lo is its answer.
fn moved_end(before: Search, after: Search) -> u64
    ensures { result ≡ moved_end before after }
{
    let b = after.bracket;
    if before.which == 2 {
        return b.hi;
    }
    if after.which == 2 {
        return after.first;
    }
    b.lo
}

// The verdict that was heard of a probe.
fn decided(before: Search, after: Search) -> u64
    ensures { result ≡ verdict_read before after }
{
    if moved_end(before, after) == middle(before.bracket) {
        return 1;
    }
    0
}

// The answer that the party gives when asked. It is not refused.
fn price(q: Party) -> u64
    ensures { result ≡ priced (answer_reply q) }
{
    let reply = answer(q);
    match reply {
        Ok(given) => given.price,
        Err(_) => 0,
    }
}

// The searches take no more than nine probes each, so the second test alone ends the loop. The probes
// that are made are counted, since their number is told.
pub fn search(n: u64, k: u64, parties: [Party; 9], totals: &[u64], sheets: &[u64]) -> Ended
    requires { (n ≤ 9) × (k ≤ 256) × (length totals.now ≡ n * (2 * k)) × (length sheets.now ≡ n * (127 * most_probes k)) }
    ensures { (result.course.probes ≤ most_listed)
        × FromStart n k parties totals.now sheets.now (λ a. Follows a result.course × FleetTold a result.party) }
{
    let none = Probe {
        index: 0,
        verdict: 0,
    };
    let mut trail = [none; PROBES];
    let mut here = parties;
    let mut done: usize = 0;
    while (done < PROBES) & going(here[0]) {
        let q = here[0];
        let after = probe(n, k, here, totals, sheets);
        let r = after[0];
        trail[done] = Probe {
            index: probed(q),
            verdict: decided(q.search, r.search),
        };
        here = after;
        done += 1;
    }
    let closed = open_totals(n, k, here, totals, sheets);
    let last = closed[0];
    let answer = price(last);
    let course = Course {
        probes: done as u64,
        trail,
        answer,
        demand: last.demand,
        supply: last.supply,
    };
    Ended {
        course,
        party: last,
    }
}

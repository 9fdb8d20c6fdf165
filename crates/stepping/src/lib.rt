// What a heard round makes of the record.
#![tactic(auto)]

ghost use Rattle.std.specs.Prelude.{◌≡◌, true, cond, ◌+◌, ◌^◌, ◌<◌, ◌≤◌, ltb, eqb, length, drop};
ghost use Rattle.ranges.specs.Lists.{every};
ghost use Rattle.record.specs.Record.{sound};
ghost use Rattle.record.specs.Updates.{in_round, decided, totalled};
ghost use Rattle.round.specs.Round.{Possible};
ghost use Rattle.fields.specs.Byte.{bytes};
ghost use Rattle.comparison.specs.Local.{on_shares};
ghost use Rattle.comparison.specs.Rounds.{first_carry};
ghost use Rattle.message.specs.Message.{sheet_words, bit_share};
ghost use Rattle.stepping.specs.After.{role, after, after_level};

use comparison::{first_carry, next_carry};
use kept_pairs::Pairs;
use message::Sheet;
use record::Party;
use round::Heard;
use search::{Search, clears, next};

// Round 1 gives the first carry, rounds 2 to 32 the next one, the last round of a probe the verdict, rounds
// 34 and 35 the totals.
pub fn after(q: Party, sheet: &[u64], heard: Heard) -> Party
    requires { (sound q ≡ true) × (length sheet.now ≡ sheet_words q) × (every (λ w. ltb w 256) (drop 1 sheet.now) ≡ true)
        × Possible (role q) heard }
    ensures { result ≡ after q sheet.now heard }
{
    let sheet = Sheet { words: sheet };
    match heard {
        Heard::Sum(sum) => in_round(q, 2, sum, begun(q, sum, &sheet)),
        Heard::Factors(d, e) => multiplied(q, &sheet, d, e),
        Heard::Verdict(v) => decided(q, next(q.search, v)),
        Heard::Total(v) => totalled(q, v),
        Heard::Unopened => q,
    }
}

// The carry that round 1 gives: in seven rounds there is none, and the field stays.
fn begun(q: Party, sum: u64, sheet: &Sheet<'_>) -> u64
    requires { 1 < length sheet.now.words.now }
    ensures { result ≡ cond (eqb q.last 7) q.carry (first_carry (on_shares bytes) sum (bit_share sheet.now.words.now 1)) }
{
    if q.last == 7 {
        return q.carry;
    }
    first_carry(sum, sheet.byte_share(1)).0 as u64
}

// After a level of seven rounds: its pairs are kept.
pub fn after_level(q: Party, pairs: Pairs) -> Party
    requires { q.round + 1 < 2 ^ 64 }
    ensures { result ≡ after_level q pairs.words }
{
    Party {
        round: q.round + 1,
        pairs,
        ..q
    }
}

// D and E are opened, so every party makes its share of the product with its shares of the triple.
fn multiplied(q: Party, sheet: &Sheet<'_>, d: u64, e: u64) -> Party
    requires { (127 ≤ length sheet.now.words.now) × Possible q.round (Heard.Factors d e) }
    ensures { result ≡ after q sheet.now.words.now (Heard.Factors d e) }
{
    let i = q.round;
    let carry = next_carry(q.sum, i, d as u8, e as u8, sheet.triple_shares(i));
    in_round(q, i + 1, q.sum, carry.0 as u64)
}

fn in_round(q: Party, round: u64, sum: u64, carry: u64) -> Party
    ensures { result ≡ in_round q round sum carry q.pairs }
{
    Party {
        round,
        sum,
        carry,
        ..q
    }
}

// The searches have moved, and the next probe starts with a round 1 of its own. Where they have ended at a
// price, the totals are next.
fn decided(q: Party, s: Search) -> Party
    ensures { result ≡ decided q s }
{
    Party {
        search: s,
        round: either(clears(s), 34, 1),
        sum: 0,
        carry: 0,
        pairs: Pairs::none(),
        ..q
    }
}

// A record is made without a branch: with one, hearing round 1 took 14 ns more.
fn either(first: bool, a: u64, b: u64) -> u64
    ensures { result ≡ cond «first» a b }
{
    if first { a } else { b }
}

// Round 34 opens total demand, round 35 total supply.
fn totalled(q: Party, total: u64) -> Party
    requires { q.round + 1 < 2 ^ 64 }
    ensures { result ≡ totalled q total }
{
    Party {
        round: q.round + 1,
        demand: either(q.round == 34, total, q.demand),
        supply: either(q.round == 34, q.supply, total),
        ..q
    }
}

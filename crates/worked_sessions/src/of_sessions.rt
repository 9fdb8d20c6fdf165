// Whole sessions over four prices, through every call and every round. A line has the number that a
// first bidder gets who comes again, the index and the verdict of each probe, the highest price once
// the first search has ended, the answer with its probes, the totals at the price, the bidders on the
// roll, and a digest of all that was said: the words depend on the draws, and the verdicts and totals do
// not. `differ` stands where the parties do not agree, and `refused` where the first gives no answer.
// In seven rounds a line has the words of its own, and all else is what it is in 33.
//
// The array that a round gives is bound before it is stored: the checker has no rule for both at once.
ghost use Rattle.std.specs.Prelude.{◌≡◌, ◌*◌, ◌≤◌, ◌<◌, length};
ghost use Rattle.ways.specs.Way.{way_of, sheet_size};

use draws::{draw_bytes, draw_coins};
use fields::AmountShare;
use panel::{add_all, deal_each, open_all};
use panel_rounds::{hear_all, say_all};
use record::Party;
use search::Search;
use session::Answer;
use sharing::threshold;
use ways::{drawn_bytes, sheets_words, width};

const MAX: u64 = u64::MAX;

#[derive(Clone, Copy)]
struct Bid {
    bidder: u64,
    table: [u64; 8],
}

// The last round of a probe, and whether the last party is away in rounds 4 to 6.
#[derive(Clone, Copy)]
struct Kind {
    last: u64,
    away: bool,
}

// A table has 8 amounts, and so has a party's book of totals. A search of four prices takes at most 3
// probes, so a party has 6 sheets, of 127 or 220 words. There is room for nine parties.
pub fn print() {
    report::title(b"session of 3:");
    session(3, of_33(), sample(7, 1000, 64), 2);
    report::title(b"session of 5:");
    session(5, of_33(), sample(1000, 7, 64), 2);
    report::title(b"session of 9:");
    session(9, of_33(), sample(64, 63, 1), 2);
    report::title(b"session of three bids:");
    session(6, of_33(), sample(7, 1000, 64), 3);
    report::title(b"session with no bids:");
    session(4, of_33(), sample(7, 1000, 64), 0);
    report::title(b"session with no price:");
    session(3, of_33(), unsold(), 2);
    balanced();
    in_seven();
}

// Demand equals supply at neighbouring prices: at two of them and at three, inside the list and at
// either end; at one alone, where all six sheets are used; and at all.
fn balanced() {
    report::title(b"session balanced at 2 and 3:");
    trade(of_33(), [9, 5, 5, 1, 0, 0, 0, 0], [0, 0, 0, 0, 1, 5, 5, 9]);
    report::title(b"session balanced at 1 and 2:");
    trade(of_33(), [5, 5, 1, 1, 0, 0, 0, 0], [0, 0, 0, 0, 5, 5, 9, 9]);
    report::title(b"session balanced at 3 and 4:");
    trade(of_33(), [9, 9, 5, 5, 0, 0, 0, 0], [0, 0, 0, 0, 1, 1, 5, 5]);
    report::title(b"session balanced at 1 to 3:");
    trade(of_33(), [5, 5, 5, 1, 0, 0, 0, 0], [0, 0, 0, 0, 5, 5, 5, 9]);
    report::title(b"session balanced at 2 to 4:");
    trade(of_33(), [9, 5, 5, 5, 0, 0, 0, 0], [0, 0, 0, 0, 1, 5, 5, 5]);
    report::title(b"session balanced at 4:");
    trade(of_33(), [9, 9, 9, 5, 0, 0, 0, 0], [0, 0, 0, 0, 1, 1, 1, 5]);
    report::title(b"session balanced at every price:");
    trade(of_33(), [5, 5, 5, 5, 0, 0, 0, 0], [0, 0, 0, 0, 5, 5, 5, 5]);
}

// Some of these sessions in seven rounds. In the second, party 5 drops off after the second level of each probe,
// and is back for the verdict, having heard what the others said.
fn in_seven() {
    let all_there = Kind {
        last: 7,
        away: false,
    };
    let one_away = Kind {
        last: 7,
        away: true,
    };
    report::title(b"session of 3 in seven rounds:");
    session(3, all_there, sample(7, 1000, 64), 2);
    report::title(b"session of 5 in seven rounds, one away:");
    session(5, one_away, sample(1000, 7, 64), 2);
    report::title(b"session with no price in seven rounds:");
    session(3, all_there, unsold(), 2);
    report::title(b"session balanced at 4 in seven rounds:");
    trade(
        all_there,
        [9, 9, 9, 5, 0, 0, 0, 0],
        [0, 0, 0, 0, 1, 1, 1, 5],
    );
}

fn of_33() -> Kind {
    Kind {
        last: 33,
        away: false,
    }
}

// One bidder buys and another sells.
fn trade(kind: Kind, demand: [u64; 8], supply: [u64; 8]) {
    let buys = Bid {
        bidder: 7,
        table: demand,
    };
    let sells = Bid {
        bidder: 1000,
        table: supply,
    };
    session(3, kind, [buys, sells, sells], 2);
}

// With the first of these bids counted twice, a session of two or three would clear at 3.
fn sample(first: u64, second: u64, third: u64) -> [Bid; 3] {
    let buys = Bid {
        bidder: first,
        table: [30, 20, 15, 0, 0, 0, 0, 0],
    };
    let sells = Bid {
        bidder: second,
        table: [0, 0, 0, 0, 5, 15, 18, 40],
    };
    let both = Bid {
        bidder: third,
        table: [2, 2, 2, 2, 0, 10, 10, 10],
    };
    [buys, sells, both]
}

fn unsold() -> [Bid; 3] {
    let sells = Bid {
        bidder: 2,
        table: [0, 0, 0, 0, 1, 1, 1, 1],
    };
    let nothing = Bid {
        bidder: 1,
        table: [0; 8],
    };
    [sells, nothing, nothing]
}

// Room for the totals of nine parties. Opening is what zeroes them.
fn old_totals() -> [u64; 72] {
    [7u64; 72]
}

// Room for six sheets of each of nine parties.
fn no_sheets() -> [u64; 11880] {
    [0u64; 11880]
}

// The first `count` of the bids.
fn session(n: u64, kind: Kind, bids: [Bid; 3], count: usize)
    requires { (3 ≤ n) × (n ≤ 9) × (count ≤ 3) }
{
    let mut totals = old_totals();
    let mut sheets = no_sheets();
    let held = n as usize * 8;
    let lent = n as usize * sheets_words(kind.last, 6);
    hold(
        n,
        kind,
        bids,
        count,
        &mut totals[..held],
        &mut sheets[..lent],
    );
}

fn hold(n: u64, kind: Kind, bids: [Bid; 3], count: usize, totals: &mut [u64], sheets: &mut [u64])
    requires { (3 ≤ n) × (n ≤ 9) × (count ≤ 3) × (length totals.old ≡ n * 8) × (length sheets.old ≡ n * (sheet_size (way_of kind.last) * 6)) }
{
    let opened = open_all(n, 4, kind.last, totals);
    let ready = add_bids(n, opened, totals, bids, count);
    deal_all(n, kind.last, sheets);
    let mut digest = 0;
    let probed = probe_all(n, kind, ready, &totals[..], &sheets[..], &mut digest);
    let done = open_totals(n, kind, probed, &totals[..], &sheets[..], &mut digest);
    answer_all(n as usize, done);
    totals_all(n as usize, done);
    end(done[0], digest);
}

// After each bid the first one comes again, as from a desk whose line has dropped. A party that added
// it twice would differ from the others in its bids and its words.
fn add_bids(
    n: u64,
    parties: [Party; 9],
    totals: &mut [u64],
    bids: [Bid; 3],
    count: usize,
) -> [Party; 9]
    requires { (3 ≤ n) × (n ≤ 9) × (count ≤ 3) × (length totals.old ≡ n * 8) }
{
    let first = bids[0];
    let mut now = parties;
    for (i, bid) in bids[..count].iter().enumerate() {
        let added = add_bid(n, now, totals, *bid, i as u64 + 1);
        again(added[0], first.bidder);
        now = add_bid(n, added, totals, first, 1);
    }
    now
}

// Every party adds its shares of the table, all of them made with the same coins.
fn add_bid(n: u64, parties: [Party; 9], totals: &mut [u64], bid: Bid, seed: u64) -> [Party; 9]
    requires { (3 ≤ n) × (n ≤ 9) × (length totals.old ≡ n * 8) }
{
    let table = bid.table;
    let mut coins = [0u64; 32];
    draw_coins(seed, &mut coins);
    let drawn = 8 * threshold(n) as usize;
    add_all(n, 4, bid.bidder, &table, &coins[..drawn], parties, totals)
}

// The number that a party has for another bid of the bidder, by a call with totals of its own: that
// of the panel's call is not given back.
fn again(q: Party, bidder: u64) {
    let mut totals = [0u64; 8];
    let reply = session::add(q, &mut totals, bidder, &[1; 8]);
    report::word(b"again");
    report::number(refusal::code(reply.judgement));
}

// Every probe has a sheet from draws of its own.
fn deal_all(n: u64, last: u64, sheets: &mut [u64])
    requires { (3 ≤ n) × (n ≤ 9) × (length sheets.old ≡ n * (sheet_size (way_of last) * 6)) }
{
    for probe in 0..6 {
        deal_probe(n, last, probe, sheets);
    }
}

fn deal_probe(n: u64, last: u64, probe: usize, sheets: &mut [u64])
    requires { (3 ≤ n) × (n ≤ 9) × (probe < 6) × (length sheets.old ≡ n * (sheet_size (way_of last) * 6)) }
{
    let t = threshold(n) as usize;
    let mut words = [0u64; 5];
    let drawn = draw_coins(probe as u64 + 11, &mut words);
    words[0] = words[0] % (1 << 58);
    let mut bytes = [0u8; 1000];
    draw_bytes(drawn, &mut bytes);
    let word_count = 1 + t;
    let byte_count = drawn_bytes(last, t);
    let at = sheets_words(last, probe);
    let lent = sheets_words(last, 6);
    deal_each(
        n,
        last,
        &words[..word_count],
        &bytes[..byte_count],
        at,
        lent,
        sheets,
    );
}

// Probes until the first party's searches are over: the others' are over with them, or differ.
fn probe_all(
    n: u64,
    kind: Kind,
    parties: [Party; 9],
    totals: &[u64],
    sheets: &[u64],
    digest: &mut u64,
) -> [Party; 9]
    requires { (1 ≤ n) × (n ≤ 9) × (length totals.now ≡ n * 8) × (length sheets.now ≡ n * (sheet_size (way_of kind.last) * 6)) }
{
    let mut now = parties;
    for _ in 0..6 {
        let first = now[0];
        if !search::finished(first.search) {
            let heard = rounds(n, kind, now, totals, sheets, digest);
            now = heard;
            probed(n as usize, now, first.search);
        }
    }
    now
}

// The index and the verdict; and what the first search gave, where that ends it.
fn probed(n: usize, parties: [Party; 9], before: Search)
    requires { n ≤ 9 }
{
    let index = search::middle(before.bracket);
    report::word(b"index");
    report::number(index);
    report::word(b"verdict");
    let q = parties[0];
    if !all_at(n, parties, q) {
        report::word(b"differ");
        return;
    }
    let after = q.search;
    verdict(before.which, after, index);
    if before.which != after.which {
        report::word(b"highest");
        report::number(after.first);
    }
}

// Whether the probed index has become the first search's lower end, or what it gave, or the second's
// upper end.
fn verdict(which: u64, after: Search, index: u64) {
    let moved = if which == 2 {
        after.bracket.hi
    } else if after.which == 2 {
        after.first
    } else {
        after.bracket.lo
    };
    report::number(u64::from(moved == index));
}

// Whether each stands where q does.
fn all_at(n: usize, parties: [Party; 9], q: Party) -> bool
    requires { n ≤ 9 }
{
    parties[..n].iter().all(|p| stands(*p, q))
}

fn stands(p: Party, q: Party) -> bool {
    same_search(p.search, q.search)
        & (p.round == q.round)
        & (p.bids == q.bids)
        & (p.roll.words == q.roll.words)
        & (p.demand == q.demand)
        & (p.supply == q.supply)
}

// Field by field: a search derives no equality.
fn same_search(s: Search, r: Search) -> bool {
    (s.which == r.which)
        & (s.bracket.lo == r.bracket.lo)
        & (s.bracket.hi == r.bracket.hi)
        & (s.probes == r.probes)
        & (s.first == r.first)
        & (s.spent == r.spent)
}

// A probe's rounds.
fn rounds(
    n: u64,
    kind: Kind,
    parties: [Party; 9],
    totals: &[u64],
    sheets: &[u64],
    digest: &mut u64,
) -> [Party; 9]
    requires { (1 ≤ n) × (n ≤ 9) × (length totals.now ≡ n * 8) × (length sheets.now ≡ n * (sheet_size (way_of kind.last) * 6)) }
{
    let mut now = parties;
    for _ in 0..kind.last {
        let heard = say_and_hear(n, kind, now, totals, sheets, digest);
        now = heard;
    }
    now
}

// The two rounds at the price, where there is one.
fn open_totals(
    n: u64,
    kind: Kind,
    parties: [Party; 9],
    totals: &[u64],
    sheets: &[u64],
    digest: &mut u64,
) -> [Party; 9]
    requires { (1 ≤ n) × (n ≤ 9) × (length totals.now ≡ n * 8) × (length sheets.now ≡ n * (sheet_size (way_of kind.last) * 6)) }
{
    if record::ended(parties[0]) {
        return parties;
    }
    let demanded = say_and_hear(n, kind, parties, totals, sheets, digest);
    say_and_hear(n, kind, demanded, totals, sheets, digest)
}

// There is room for the words of nine parties.
fn say_and_hear(
    n: u64,
    kind: Kind,
    parties: [Party; 9],
    totals: &[u64],
    sheets: &[u64],
    digest: &mut u64,
) -> [Party; 9]
    requires { (1 ≤ n) × (n ≤ 9) × (length totals.now ≡ n * 8) × (length sheets.now ≡ n * (sheet_size (way_of kind.last) * 6)) }
{
    let first = parties[0];
    let said = words_of(first);
    let away = kind.away & (4 <= first.round) & (first.round <= 6);
    let there = who_is_there(n, away);
    let all = n as usize * said;
    let mut messages = [0u64; 288];
    round(
        n,
        kind.last,
        parties,
        totals,
        sheets,
        there,
        said,
        &mut messages[..all],
        digest,
    )
}

// Each says so many words, and all of them hear those who are there.
fn round(
    n: u64,
    last: u64,
    parties: [Party; 9],
    totals: &[u64],
    sheets: &[u64],
    there: usize,
    said: usize,
    messages: &mut [u64],
    digest: &mut u64,
) -> [Party; 9]
    requires { (n ≤ 9) × (length totals.now ≡ n * 8) × (length sheets.now ≡ n * (sheet_size (way_of last) * 6))
        × (there ≤ n) × (length messages.old ≡ n * said) }
{
    let lent = sheets_words(last, 6);
    say_all(n, 4, lent, parties, totals, sheets, said, messages);
    let spoken = there * said;
    silence(messages, spoken);
    let before = *digest;
    *digest = digested(before, &messages[..spoken]);
    let count = n as usize;
    let present = marks(there);
    hear_all(
        n,
        4,
        lent,
        parties,
        totals,
        sheets,
        &messages[..],
        &present[..count],
    )
}

// How many words a party says in the round: there is room for no more than 32.
fn words_of(q: Party) -> usize
    ensures { result ≤ 32 }
{
    let said = width(q.last, q.round);
    if said <= 32 { said } else { 1 }
}

// All parties, or all but the last.
fn who_is_there(n: u64, away: bool) -> usize
    requires { 1 ≤ n }
    ensures { result ≤ n }
{
    let all = n as usize;
    if away { all - 1 } else { all }
}

// In the place of the others stands what nobody could have said.
fn silence(messages: &mut [u64], spoken: usize) {
    for message in messages.iter_mut().skip(spoken) {
        *message = MAX;
    }
}

// Marks of the first ones.
fn marks(there: usize) -> [u8; 9]
    requires { there ≤ 9 }
{
    let mut present = [0u8; 9];
    present[..there].fill(1);
    present
}

// The digest after these words.
fn digested(digest: u64, words: &[u64]) -> u64 {
    let mut after = digest;
    for word in words {
        after = with_word(after, *word);
    }
    after
}

// The digest after one more word, modulo p.
fn with_word(digest: u64, word: u64) -> u64 {
    AmountShare(digest)
        .mul(AmountShare(31))
        .add(AmountShare(word))
        .0
}

fn answer_all(n: usize, parties: [Party; 9])
    requires { n ≤ 9 }
{
    match session::answer(parties[0]) {
        Ok(answer) => {
            report::word(b"clears");
            if all_cleared(n, parties, answer) {
                report::number(answer.price);
                report::word(b"probes");
                report::number(answer.probes);
            } else {
                report::word(b"differ");
            }
        }
        Err(_) => report::word(b"refused"),
    }
}

fn all_cleared(n: usize, parties: [Party; 9], answer: Answer) -> bool
    requires { n ≤ 9 }
{
    parties[..n].iter().all(|q| cleared(*q, answer))
}

fn cleared(q: Party, answer: Answer) -> bool {
    match session::answer(q) {
        Ok(given) => (given.price == answer.price) & (given.probes == answer.probes),
        Err(_) => false,
    }
}

// The totals at the price, where there is one.
fn totals_all(n: usize, parties: [Party; 9])
    requires { n ≤ 9 }
{
    let q = parties[0];
    if !search::clears(q.search) {
        return;
    }
    report::word(b"demand");
    if !all_at(n, parties, q) {
        report::word(b"differ");
        return;
    }
    report::number(q.demand);
    report::word(b"supply");
    report::number(q.supply);
}

// The end of the line: who is in, and the digest.
fn end(q: Party, digest: u64) {
    report::word(b"bidders");
    let roll = q.roll;
    for bidder in 1..=1000 {
        if roll.marked(bidder) {
            report::number(bidder);
        }
    }
    report::word(b"words");
    report::number(digest);
    report::end();
}

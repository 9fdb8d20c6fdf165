// A party's record as the host holds it: 64 words. Ten numbers, then the roll's 16, then which search
// is on, what the first gave and its probes, then total demand and total supply, then the last round of
// a probe and the 32 kept pair shares: what came later stands later, so that the others stay in their places.
#![tactic(auto)]

ghost use Rattle.std.specs.Prelude.{◌≡◌, cond, ◌++◌, length, take, drop};
ghost use Rattle.refusal.specs.Refusal.{code_of};
ghost use Rattle.ranges.specs.Sizes.{long};
ghost use Rattle.kept_pairs.specs.Pairs.{none};
ghost use Rattle.record.specs.Record.{sound};
ghost use Rattle.record.specs.Updates.{in_round};
ghost use Rattle.record_words.specs.Words.{record_size, later_words, words_of, party_of, number_on, code_without, on_record, stored};

use kept_pairs::Pairs;
use record::{Party, Reply, are_sound};
use refusal::{Judgement, Refusal};
use roll::Roll;
use search::{Bracket, Search};

const WORDS: usize = 64;

pub fn is_record(words: &[u64]) -> bool
    ensures { result ≡ long record_size words.now }
{
    words.len() == WORDS
}

// What a call gives that is lent no record: 2, unless what needs none is out of its range.
pub fn without_record(in_range: bool) -> u64
    ensures { result ≡ code_without in_range }
{
    if in_range {
        return u64::from(Refusal::WrongLength);
    }
    u64::from(Refusal::OutOfRange)
}

// Who calls knows the length, so that no word is asked for: so it is small enough to be inlined.
pub fn read(words: &[u64]) -> Party
    requires { length words.now ≡ record_size }
    ensures { result ≡ party_of words.now }
{
    Party {
        n: words[0],
        own: words[1],
        k: words[2],
        bids: words[3],
        search: read_search(words),
        round: words[7],
        sum: words[8],
        carry: words[9],
        roll: read_roll(words),
        demand: words[29],
        supply: words[30],
        last: words[31],
        pairs: read_pairs(words),
    }
}

// Whether the record is sound, judged where it stands, so that it is not copied for it. Where every call judges by
// this, `are_sound` has one caller, and is inlined here with the lengths known.
pub fn is_sound(words: &[u64]) -> bool
    requires { length words.now ≡ record_size }
    ensures { result ≡ sound (party_of words.now) }
{
    are_sound(
        words[0],
        words[1],
        words[2],
        words[3],
        read_search(words),
        words[7],
        words[8],
        words[9],
        &words[10..26],
        words[29],
        words[30],
        words[31],
        &words[32..64],
    )
}

fn read_search(words: &[u64]) -> Search
    requires { length words.now ≡ record_size }
    ensures { result ≡ (party_of words.now).search }
{
    Search {
        which: words[26],
        bracket: Bracket {
            lo: words[4],
            hi: words[5],
        },
        probes: words[6],
        first: words[27],
        spent: words[28],
    }
}

fn read_roll(words: &[u64]) -> Roll
    requires { length words.now ≡ record_size }
    ensures { result ≡ (party_of words.now).roll }
{
    let mut marks = [0; 16];
    marks.copy_from_slice(&words[10..26]);
    Roll { words: marks }
}

fn read_pairs(words: &[u64]) -> Pairs
    requires { length words.now ≡ record_size }
    ensures { result ≡ (party_of words.now).pairs }
{
    let mut shares = [0; 32];
    shares.copy_from_slice(&words[32..64]);
    Pairs { words: shares }
}

// The record that a call gives is written over the one it was lent, unless the call was refused.
// A slice of another length is left alone.
pub fn store(reply: Reply, words: &mut [u64]) -> u64
    ensures { (result ≡ number_on words.old (code_of reply.judgement))
        × (words.new ≡ on_record words.old (stored reply words.old) words.old) }
{
    if !is_record(&words[..]) {
        return u64::from(Refusal::WrongLength);
    }
    let judgement = reply.judgement;
    match judgement {
        Ok(()) => {
            write(reply.party, words);
            0
        }
        Err(why) => why.into(),
    }
}

// What a heard round of single words makes of the record: the roll stays, and so do the pairs unless a verdict
// clears them. Who calls has made it from the record that stands here.
pub fn store_heard(q: Party, cleared: bool, words: &mut [u64])
    requires { (length words.old ≡ record_size)
        × (q.roll ≡ (party_of words.old).roll)
        × (q.pairs ≡ cond cleared none (party_of words.old).pairs) }
    ensures { words.new ≡ words_of q }
{
    write_numbers(q, words);
    write_later(q, words);
    if cleared {
        write_pairs(Pairs::none(), words);
    }
}

// What a heard level makes of the record: a round and the pairs are new.
pub fn store_level(round: u64, pairs: Pairs, words: &mut [u64])
    requires { length words.old ≡ record_size }
    ensures { words.new ≡ words_of (let q = party_of words.old in in_round q round q.sum q.carry pairs) }
{
    words[7] = round;
    write_pairs(pairs, words);
}

pub fn write(q: Party, words: &mut [u64])
    requires { length words.old ≡ record_size }
    ensures { words.new ≡ words_of q }
{
    write_numbers(q, words);
    write_roll(q.roll, words);
    write_later(q, words);
    write_pairs(q.pairs, words);
}

fn write_numbers(q: Party, words: &mut [u64])
    requires { length words.old ≡ record_size }
    ensures { words.new ≡ take 10 (words_of q) ++ drop 10 words.old }
{
    words[0] = q.n;
    words[1] = q.own;
    words[2] = q.k;
    words[3] = q.bids;
    words[4] = q.search.bracket.lo;
    words[5] = q.search.bracket.hi;
    words[6] = q.search.probes;
    words[7] = q.round;
    words[8] = q.sum;
    words[9] = q.carry;
}

fn write_roll(roll: Roll, words: &mut [u64])
    requires { length words.old ≡ record_size }
    ensures { words.new ≡ take 10 words.old ++ roll.words ++ drop 26 words.old }
{
    words[10..26].copy_from_slice(&roll.words);
}

// What the ten numbers and the roll leave out.
fn write_later(q: Party, words: &mut [u64])
    requires { length words.old ≡ record_size }
    ensures { words.new ≡ take 26 words.old ++ later_words q ++ drop 32 words.old }
{
    words[26] = q.search.which;
    words[27] = q.search.first;
    words[28] = q.search.spent;
    words[29] = q.demand;
    words[30] = q.supply;
    words[31] = q.last;
}

fn write_pairs(pairs: Pairs, words: &mut [u64])
    requires { length words.old ≡ record_size }
    ensures { words.new ≡ take 32 words.old ++ pairs.words ++ drop 64 words.old }
{
    words[32..64].copy_from_slice(&pairs.words);
}

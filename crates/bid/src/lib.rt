// Splitting a bid among the parties (the paper's desk): one party's share of every amount, by one call
// for the whole table or by one for each entry.
#![tactic(auto)]

ghost use Rattle.std.specs.Prelude.{◌≡◌, ◌&&◌, ◌∷◌, ◌*◌, ◌≤◌, leb, length, take, drop};
ghost use Rattle.fields.specs.Amount.{amounts};
ghost use Rattle.ranges.specs.Lists.{every};
ghost use Rattle.ranges.specs.Steps.{never_rising, never_falling};
ghost use Rattle.refusal.specs.Judging.{judged};
ghost use Rattle.sharing.specs.Polynomial.{value};
ghost use Rattle.bid.specs.Table.{most};
ghost use Rattle.bid.specs.Split.{faults, split_judgement, bid_shares, split_left};
ghost use Rattle.bid.specs.Entry.{split_entry_judgement, split_entry_left};

use fields::{AmountShare, HALF, P};
use ranges::{all_below, first_bend, on_list};
use refusal::{Judgement, Refusal};
use sharing::threshold;

// Amounts are tenths of an hour, and no amount is larger.
pub const MOST: u64 = 4_194_303;

// Writes a party's shares of the 2k amounts, each made with t coins of its own. Nothing is written
// unless all of the call is accepted.
pub fn split(
    n: u64,
    own: u64,
    k: u64,
    table: &[u64],
    coins: &[u64],
    shares: &mut [u64],
) -> Judgement
    ensures { (result ≡ split_judgement n own k table.now coins.now shares.old)
        × (shares.new ≡ split_left n own k table.now coins.now shares.old) }
{
    judge(n, own, k, table, coins, &shares[..])?;
    write(threshold(n) as usize, own, table, coins, shares);
    Ok(())
}

// Writes a party's share of one entry, made with t coins of its own, and no other place of the lent
// shares. The whole table is judged first.
pub fn split_entry(
    n: u64,
    own: u64,
    k: u64,
    entry: u64,
    table: &[u64],
    coins: &[u64],
    shares: &mut [u64],
) -> Judgement
    ensures { (result ≡ split_entry_judgement n own k entry table.now coins.now shares.old)
        × (shares.new ≡ split_entry_left n own k entry table.now coins.now shares.old) }
{
    judge_entry(n, own, k, entry, table, coins, &shares[..])?;
    let place = entry as usize - 1;
    shares[place] = share(table[place], coins, own);
    Ok(())
}

// The first refusal that applies. The lengths are computed only of an n and a k in their ranges.
fn judge(n: u64, own: u64, k: u64, table: &[u64], coins: &[u64], shares: &[u64]) -> Judgement
    ensures { result ≡ split_judgement n own k table.now coins.now shares.now }
{
    if !on_list(n, own, k) {
        return Err(Refusal::OutOfRange);
    }
    let entries = 2 * k as usize;
    let t = threshold(n) as usize;
    if !((table.len() == entries) & (coins.len() == entries * t) & (shares.len() == entries)) {
        return Err(Refusal::WrongLength);
    }
    judge_lent(k as usize, table, coins)
}

// The same, of one entry and its coins.
fn judge_entry(
    n: u64,
    own: u64,
    k: u64,
    entry: u64,
    table: &[u64],
    coins: &[u64],
    shares: &[u64],
) -> Judgement
    ensures { result ≡ split_entry_judgement n own k entry table.now coins.now shares.now }
{
    if !on_list(n, own, k) {
        return Err(Refusal::OutOfRange);
    }
    if !((1 <= entry) & (entry <= 2 * k)) {
        return Err(Refusal::OutOfRange);
    }
    let entries = 2 * k as usize;
    let t = threshold(n) as usize;
    if !((table.len() == entries) & (coins.len() == t) & (shares.len() == entries)) {
        return Err(Refusal::WrongLength);
    }
    judge_lent(k as usize, table, coins)
}

// The refusals of what the slices hold.
fn judge_lent(half: usize, table: &[u64], coins: &[u64]) -> Judgement
    requires { (1 ≤ half) × (length table.now ≡ 2 * half) }
    ensures { result ≡ judged (faults half table.now coins.now) }
{
    if !all_below(coins, P) {
        return Err(Refusal::CoinOutOfRange);
    }
    let in_order = (first_bend(&table[..half], false) == half)
        & (first_bend(&table[half..], true) == half);
    if !is_small(table, half, in_order) {
        return Err(Refusal::AmountTooLarge);
    }
    if !in_order {
        return Err(Refusal::NotMonotone);
    }
    Ok(())
}

// Where both halves are in order, as `monotone` has it, the largest amounts stand at the table's two
// ends, and it need not be walked through again.
fn is_small(table: &[u64], half: usize, in_order: bool) -> bool
    requires { (1 ≤ half) × (length table.now ≡ 2 * half)
        × (in_order ≡ (never_rising (take half table.now) && never_falling (drop half table.now))) }
    ensures { result ≡ every (λ a. leb a most) table.now }
{
    if in_order {
        return (table[0] <= MOST) & (table[2 * half - 1] <= MOST);
    }
    all_below(table, MOST + 1)
}

// Each amount takes the next t coins.
fn write(t: usize, own: u64, table: &[u64], coins: &[u64], shares: &mut [u64])
    requires { (length coins.now ≡ length table.now * t) × (length shares.old ≡ length table.now)
        × (t ≤ 4) × (own ≤ 9) }
    ensures { shares.new ≡ bid_shares t own table.now coins.now }
{
    let mut at = 0;
    for (i, amount) in table.iter().enumerate() {
        let next = at + t;
        shares[i] = share(*amount, &coins[at..next], own);
        at = next;
    }
}

// Most of an auction's time goes here. There are few coins and the point is small, so the lower and the
// upper halves of the coins, taken apart, need no reduction on the way.
fn share(amount: u64, coins: &[u64], own: u64) -> u64
    requires { (length coins.now ≤ 4) × (own ≤ 9) }
    ensures { result ≡ value amounts (amount ∷ coins.now) own }
{
    let mut low: u64 = 0;
    let mut high: u64 = 0;
    for coin in coins.iter().rev() {
        low = (low + *coin % HALF) * own;
        high = (high + *coin / HALF) * own;
    }
    AmountShare::joined(low + amount % HALF, high + amount / HALF).0
}

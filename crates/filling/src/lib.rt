// What a buyer gets at the price, once the totals there are open.
#![tactic(auto)]

ghost use Rattle.std.specs.Prelude.{◌≡◌, ◌^◌, ◌≤◌, ◌<◌};
ghost use Rattle.bid.specs.Table.{most};
ghost use Rattle.record.specs.Record.{sound};
ghost use Rattle.filling.specs.Fill.{shared, fill_reply};

use bid::MOST;
use record::{Party, sound};
use refusal::Refusal;

// The round when the totals are open.
const OPEN: u64 = 36;

// The tenths of an hour that the buyer gets, and the remainder of the division.
#[derive(Clone, Copy)]
pub struct Hours {
    pub got: u64,
    pub remainder: u64,
}

pub fn fill(q: Party, amount: u64) -> Result<Hours, Refusal>
    ensures { result ≡ fill_reply q amount }
{
    fill_judged(q, sound(q), amount)
}

// The same, of a record that who calls has judged where it stands. The two stay apart: a struct of them would be made for this one
// call, and taken apart in it.
pub fn fill_judged(q: Party, whole: bool, amount: u64) -> Result<Hours, Refusal>
    requires { whole ≡ sound q }
    ensures { result ≡ fill_reply q amount }
{
    if !whole {
        return Err(Refusal::OutOfRange);
    }
    // a sound record has this round only where the searches ended at a price
    if q.round != OPEN {
        return Err(Refusal::NotCleared);
    }
    if MOST < amount {
        return Err(Refusal::AmountTooLarge);
    }
    Ok(share_out(q.demand, q.supply, amount))
}

fn share_out(demand: u64, supply: u64, amount: u64) -> Hours
    requires { (amount ≤ most) × (supply < 2 ^ 32) }
    ensures { result ≡ shared demand supply amount }
{
    if demand == 0 {
        return Hours {
            got: 0,
            remainder: 0,
        };
    }
    let product = amount * supply;
    Hours {
        got: product / demand,
        remainder: product % demand,
    }
}

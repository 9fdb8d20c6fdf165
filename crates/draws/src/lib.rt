// Draws: Marsaglia's xorshift64. What is drawn are the low bits of the next state.
#![tactic(auto)]

ghost use Rattle.std.specs.Prelude.{◌≡◌, ◌+◌, ◌^◌, ◌<◌, length};
ghost use Rattle.draws.specs.Draws.{next, first_state, next_coin, later, drawn_coins, drawn_bytes};

use fields::P;

// The last round of a rehearsed probe: the rehearsal keeps to 33.
pub const LAST: u64 = 33;

// Zero would stay zero.
pub fn first_state(seed: u64) -> u64
    ensures { result ≡ first_state seed }
{
    if seed == 0 { 1 } else { seed }
}

pub fn next(state: u64) -> u64
    ensures { result ≡ next state }
{
    let a = state ^ (state << 13);
    let b = a ^ (a >> 7);
    b ^ (b << 17)
}

// The state that a coefficient is read off: P is skipped, and does not come twice.
fn next_coin(state: u64) -> u64
    ensures { result ≡ next_coin state }
{
    let drawn = next(state);
    if drawn % (1 << 61) == P {
        return next(drawn);
    }
    drawn
}

// Fills a slice with coefficients. The answer is the state after them.
pub fn draw_coins(state: u64, coins: &mut [u64]) -> u64
    ensures { (coins.new ≡ drawn_coins (length coins.old) state)
        × (result ≡ later next_coin (length coins.old) state) }
{
    let mut last = state;
    for coin in coins.iter_mut() {
        last = next_coin(last);
        *coin = last % (1 << 61);
    }
    last
}

// Fills a slice with bytes. One function for this and for coefficients would take the step and what is
// read off a state as closures, and its clauses on them would be longer than both bodies.
pub fn draw_bytes(state: u64, bytes: &mut [u8]) -> u64
    ensures { (bytes.new ≡ drawn_bytes (length bytes.old) state)
        × (result ≡ later next (length bytes.old) state) }
{
    let mut last = state;
    for byte in bytes.iter_mut() {
        last = next(last);
        *byte = (last % 256) as u8;
    }
    last
}

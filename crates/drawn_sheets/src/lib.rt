// The preprocessing: one set of draws per sheet, dealt to each party.
#![tactic(auto)]

ghost use Rattle.std.specs.Prelude.{◌≡◌, ◌∷◌, ◌+◌, ◌-◌, ◌*◌, ◌%◌, ◌^◌, ◌≤◌, length};
ghost use Rattle.sharing.specs.Scheme.{threshold};
ghost use Rattle.search.specs.Limit.{most_probes};
ghost use Rattle.draws.specs.Draws.{next, next_coin, later, drawn_coins, drawn_bytes, after_sheet, all_sheets};
ghost use Rattle.panel.specs.Parties.{All, part};
ghost use Rattle.drawn_sheets.specs.Dealt.{sheet_put, sheets_of};

use draws::{LAST, draw_bytes, draw_coins, next};
use panel::deal_each;
use search::most_probes;
use sharing::threshold;

// The mask, its coefficients, then the bytes. The answer is the state after them.
fn draw_sheet(state: u64, words: &mut [u64], bytes: &mut [u8]) -> u64
    requires { 1 ≤ length words.old }
    ensures { (words.new ≡ next state % 2 ^ 58 ∷ drawn_coins (length words.old - 1) (next state))
        × (bytes.new ≡ drawn_bytes (length bytes.old) (later next_coin (length words.old - 1) (next state)))
        × (result ≡ later next (length bytes.old) (later next_coin (length words.old - 1) (next state))) }
{
    let first = next(state);
    words[0] = first % (1 << 58);
    let second = draw_coins(first, &mut words[1..]);
    draw_bytes(second, bytes)
}

// Room for the bytes of a sheet.
fn no_bytes() -> [u8; 566] {
    [0u8; 566]
}

// Draws the next sheet, and deals it to all parties. The answer is the state after it.
fn deal_next(n: u64, state: u64, at: usize, width: usize, sheets: &mut [u64]) -> u64
    requires { (3 ≤ n) × (n ≤ 9) × (at + 127 ≤ width) × (length sheets.old ≡ n * width) }
    ensures { (result ≡ after_sheet (threshold n) state)
        × All n (λ i. part width i sheets.new ≡ sheet_put (threshold n) state (i + 1) at (part width i sheets.old)) }
{
    let t = threshold(n) as usize;
    let words_drawn = 1 + t;
    let bytes_drawn = 126 * t + 62;
    let mut words = [0u64; 5];
    let mut bytes = no_bytes();
    let after = draw_sheet(state, &mut words[..words_drawn], &mut bytes[..bytes_drawn]);
    deal_each(
        n,
        LAST,
        &words[..words_drawn],
        &bytes[..bytes_drawn],
        at,
        width,
        sheets,
    );
    after
}

// Deals all parties all sheets, as many as a search may take probes.
pub fn deal_all(n: u64, k: u64, state: u64, sheets: &mut [u64])
    requires { (3 ≤ n) × (n ≤ 9) × (k ≤ 256) × (length sheets.old ≡ n * (127 * most_probes k)) }
    ensures { All n (λ i. part (127 * most_probes k) i sheets.new ≡ sheets_of (i + 1) (all_sheets (threshold n) (most_probes k) state)) }
{
    let most = most_probes(k) as usize;
    let width = 127 * most;
    let mut last = state;
    for i in 0..most {
        last = deal_next(n, last, 127 * i, width, sheets);
    }
}

// A round: each party says its words, and all words go to each party's hearing. Each party's sheets are
// `lent` words.
ghost use Rattle.std.specs.Prelude.{◌≡◌, ◌*◌, ◌≤◌, length, get_or};
ghost use Rattle.presence.specs.Presence.{everyone};
ghost use Rattle.search.specs.Limit.{most_probes};
ghost use Rattle.record.specs.Record.{blank};
ghost use Rattle.panel.specs.Parties.{All, part};
ghost use Rattle.panel_rounds.specs.Round.{said_by, heard_by, all_said};

use crate::turns::{hear_one, say_one};
use record::Party;
use search::most_probes;

// Each party says as many words as the round has, `width`.
pub fn say_all(
    n: u64,
    k: u64,
    lent: usize,
    parties: [Party; 9],
    totals: &[u64],
    sheets: &[u64],
    width: usize,
    messages: &mut [u64],
)
    requires { (n ≤ 9) × (k ≤ 256) × (length totals.now ≡ n * (2 * k)) × (length sheets.now ≡ n * lent) × (length messages.old ≡ n * width) }
    ensures { All n (λ i. part width i messages.new ≡ said_by k lent parties totals.now sheets.now i (part width i messages.old)) }
{
    let count = n as usize;
    for i in 0..count {
        let at = i * width;
        let next = at + width;
        let q = parties[i];
        say_one(q, k, lent, i, totals, sheets, &mut messages[at..next]);
    }
}

// All parties hear, also those who were not present.
pub fn hear_all(
    n: u64,
    k: u64,
    lent: usize,
    parties: [Party; 9],
    totals: &[u64],
    sheets: &[u64],
    messages: &[u64],
    present: &[u8],
) -> [Party; 9]
    requires { (n ≤ 9) × (k ≤ 256) × (length totals.now ≡ n * (2 * k)) × (length sheets.now ≡ n * lent) }
    ensures { All n (λ i. get_or result i blank ≡ heard_by k lent parties totals.now sheets.now messages.now present.now i) }
{
    let count = n as usize;
    let mut after = parties;
    for i in 0..count {
        let q = parties[i];
        after[i] = hear_one(q, k, lent, i, totals, sheets, messages, present);
    }
    after
}

// A round of a rehearsal: each party is present, and says one word.
pub fn round(n: u64, k: u64, parties: [Party; 9], totals: &[u64], sheets: &[u64]) -> [Party; 9]
    requires { (n ≤ 9) × (k ≤ 256) × (length totals.now ≡ n * (2 * k)) × (length sheets.now ≡ n * (127 * most_probes k)) }
    ensures { All n (λ i. get_or result i blank ≡ heard_by k (127 * most_probes k) parties totals.now sheets.now (all_said n k parties totals.now sheets.now) (everyone n) i) }
{
    let count = n as usize;
    let lent = 127 * most_probes(k) as usize;
    let everyone = [1u8; 9];
    let mut messages = [0u64; 9];
    say_all(
        n,
        k,
        lent,
        parties,
        totals,
        sheets,
        1,
        &mut messages[..count],
    );
    hear_all(
        n,
        k,
        lent,
        parties,
        totals,
        sheets,
        &messages[..count],
        &everyone[..count],
    )
}

// Rounds 34 and 35 of all parties, in which total demand and total supply at the price are opened.
#![tactic(auto)]

ghost use Rattle.std.specs.Prelude.{◌≡◌, ◌*◌, ◌≤◌, length};
ghost use Rattle.search.specs.Limit.{most_probes};
ghost use Rattle.standing.proofs.Standing.{Closes};

use panel_rounds::round;
use record::{Party, ended};

// Where the searches have ended at no price, the session is over already.
pub fn open_totals(
    n: u64,
    k: u64,
    parties: [Party; 9],
    totals: &[u64],
    sheets: &[u64],
) -> [Party; 9]
    requires { (n ≤ 9) × (k ≤ 256) × (length totals.now ≡ n * (2 * k)) × (length sheets.now ≡ n * (127 * most_probes k)) }
    ensures { Closes n k parties totals.now sheets.now result }
{
    let mut here = parties;
    for _ in 0..2u32 {
        if ended(here[0]) {
            return here;
        }
        here = round(n, k, here, totals, sheets);
    }
    here
}

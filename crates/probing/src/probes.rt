// A probe: 33 rounds of all parties.
ghost use Rattle.std.specs.Prelude.{◌≡◌, ◌*◌, ◌≤◌, length};
ghost use Rattle.search.specs.Limit.{most_probes};
ghost use Rattle.standing.proofs.Standing.{Probes};

use panel_rounds::round;
use record::Party;

// Rounds 1 to 32, then round 33, in which the verdict is heard.
pub(crate) fn probe(
    n: u64,
    k: u64,
    parties: [Party; 9],
    totals: &[u64],
    sheets: &[u64],
) -> [Party; 9]
    requires { (n ≤ 9) × (k ≤ 256) × (length totals.now ≡ n * (2 * k)) × (length sheets.now ≡ n * (127 * most_probes k)) }
    ensures { Probes n k parties totals.now sheets.now result }
{
    let mut after = parties;
    for _ in 0..32u32 {
        let next = round(n, k, after, totals, sheets);
        after = next;
    }
    round(n, k, after, totals, sheets)
}

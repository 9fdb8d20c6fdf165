// All parties at once: their records side by side, their totals and sheets one after another in
// flat slices.
ghost use Rattle.std.specs.Prelude.{◌≡◌, ◌+◌, ◌*◌, ◌≤◌, length, get_or};
ghost use Rattle.record.specs.Record.{blank};
ghost use Rattle.session.specs.Open.{open_reply, open_left};
ghost use Rattle.panel.specs.Parties.{All, part};

use record::{Party, Reply, blank};
use session::open;

// The record that a call gives back.
pub fn returned(reply: Reply) -> Party
    ensures { result ≡ reply.party }
{
    reply.party
}

// Opens the sessions of all parties, with the last round of their probes.
pub fn open_all(n: u64, k: u64, last: u64, totals: &mut [u64]) -> [Party; 9]
    requires { (n ≤ 9) × (k ≤ 256) × (length totals.old ≡ n * (2 * k)) }
    ensures { All n (λ i. (get_or result i blank ≡ (open_reply n (i + 1) k last (part (2 * k) i totals.old)).party)
        × (part (2 * k) i totals.new ≡ open_left n (i + 1) k last (part (2 * k) i totals.old))) }
{
    let width = 2 * k as usize;
    let count = n as usize;
    let nobody = blank();
    let mut parties = [nobody; 9];
    for i in 0..count {
        let at = i * width;
        let next = at + width;
        let reply = open(n, i as u64 + 1, k, last, &mut totals[at..next]);
        parties[i] = returned(reply);
    }
    parties
}

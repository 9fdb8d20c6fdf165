// The entries of the settlement page: each bid of the input is read again, and its buyer's hours are
// asked for.
#![tactic(auto)]

ghost use Rattle.std.specs.Prelude.{◌≡◌, ◌*◌, ◌≤◌, length, drop};
ghost use Rattle.sections.specs.Sections.{tables};
ghost use Rattle.entering.specs.Entries.{entries, hours_told};

use filling::fill;
use lines::read_table;
use record::Party;

// Room for a bid's table: the rehearsal has at most 256 listed prices.
fn no_table() -> [u64; 512] {
    [0u64; 512]
}

fn hours(party: Party, amount: u64) -> u64
    ensures { result ≡ hours_told party amount }
{
    fill(party, amount).map_or(0, |hours| hours.got)
}

// Fills the entries from the bids that begin at `at`, at one of k listed prices, with the record of a
// party whose session is over.
pub fn enter_bids(
    input: &[u8],
    at: usize,
    k: u64,
    bids: u64,
    index: u64,
    party: Party,
    into: &mut [u64],
)
    requires { (1 ≤ index) × (index ≤ k) × (k ≤ 256) × (length into.old ≡ 4 * bids) }
    ensures { into.new ≡ entries (hours_told party) k index (tables k bids (drop at input.now)) }
{
    let mut table = no_table();
    let width = 2 * k as usize;
    enter_all(
        input,
        at,
        k as usize,
        bids as usize,
        index as usize,
        party,
        &mut table[..width],
        into,
    );
}

// The same, with a slice that is lent for a table.
fn enter_all(
    input: &[u8],
    at: usize,
    k: usize,
    bids: usize,
    index: usize,
    party: Party,
    table: &mut [u64],
    into: &mut [u64],
)
    requires { (1 ≤ index) × (index ≤ k) × (k ≤ 256) × (length table.old ≡ 2 * k) × (length into.old ≡ 4 * bids) }
    ensures { into.new ≡ entries (hours_told party) k index (tables k bids (drop at input.now)) }
{
    let mut next = at;
    // by place, since the library promises nothing of what a slice lent as chunks (`chunks_mut`) ends as
    for bid in 0..bids {
        next = read_table(input, next, table);
        let wanted = table[index - 1];
        let sold = table[k + index - 1];
        into[4 * bid..4 * bid + 4].copy_from_slice(&[wanted, hours(party, wanted), sold, sold]);
    }
}

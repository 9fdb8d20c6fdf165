// The current sheet.
ghost use Rattle.std.specs.Prelude.{◌≡◌, ◌+◌, ◌*◌, ◌≤◌, length};
ghost use Rattle.ways.specs.Way.{way_of, sheet_size};
ghost use Rattle.message.specs.Message.{sheet_words};
ghost use Rattle.saying.specs.Say.{current};

use record::Party;
use ways::sheets_words;

// How many words it has. After the last probe none is read.
fn sheet_words(q: Party) -> usize
    ensures { result ≡ sheet_words q }
{
    if q.round <= 33 {
        ways::sheet_words(q.last)
    } else {
        0
    }
}

pub fn current(q: Party, sheets: &[u64]) -> &[u64]
    requires { sheet_size (way_of q.last) * q.search.probes + sheet_words q ≤ length sheets.now }
    ensures { result.now ≡ current q sheets.now }
{
    let from = sheets_words(q.last, q.search.probes as usize);
    let to = from + sheet_words(q);
    &sheets[from..to]
}

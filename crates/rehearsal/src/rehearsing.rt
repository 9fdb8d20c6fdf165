// From the bytes of the input to the bytes of the listing.
ghost use Rattle.listing.specs.Text.{Wrote};
ghost use Rattle.rehearsal.specs.Listing.{listing};

use listing::{ROOM, write_course, write_refused};
use plan::judge;
use running::run;

// Judges the input, runs its auction, and writes the listing at the start of a buffer that is lent
// for it. No listing is longer than 1,627 bytes. The answer is how long it is.
pub fn rehearse(input: &[u8], out: &mut [u8; ROOM]) -> usize
    ensures { Wrote out.old 0 (listing input.now) out.new result }
{
    match judge(input) {
        Err(fault) => write_refused(u64::from(fault.refusal), fault.line, out),
        Ok(shape) => {
            let ended = run(input, shape);
            write_course(input, shape.prices_at, ended.course, out)
        }
    }
}

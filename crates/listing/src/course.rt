// The listing: one line for a refusal, or a line for each probe of both searches, the index that
// clears, the totals there and the rounds.
ghost use Rattle.std.specs.Prelude.{◌≡◌, ◌+◌, ◌*◌, ◌≤◌, ◌<◌, length, drop};
ghost use Rattle.listing.specs.Text.{Wrote};
ghost use Rattle.listing.specs.Lines.{most_listed, longest_line, refused_line, no_price_line, probe_line, probe_lines, clears_line, totals_line, rounds_of, course_trail, course_lines};
ghost use Rattle.lines.specs.Lines.{price_of};

use crate::text::{append, append_field, append_last};
use lines::price_at;

// Two searches of at most nine probes each, since a rehearsal has at most 256 prices.
pub const PROBES: usize = 18;

// What is lent for a listing, which is at most 1,627 bytes long.
pub const ROOM: usize = 2048;

// A probe: the index that was probed, and the verdict on it.
#[derive(Clone, Copy)]
pub struct Probe {
    pub index: u64,
    pub verdict: u64,
}

// How the auction went: so many probes of both searches, which are the first of the trail, the index
// that clears, and total demand and total supply there. As in `price_answer`, an index of 0 tells that
// there is no price; `Follows` of crate `probing` states it so.
#[derive(Clone, Copy)]
pub struct Course {
    pub probes: u64,
    pub trail: [Probe; PROBES],
    pub answer: u64,
    pub demand: u64,
    pub supply: u64,
}

// What a line takes that is printed alone.
const LINE: usize = 55;

// The one line of a refused input. Where less than it may take is lent, nothing is written.
pub fn write_refused(number: u64, line: u64, out: &mut [u8]) -> usize
    ensures { (longest_line ≤ length out.old → Wrote out.old 0 (refused_line number line) out.new result)
        × (length out.old < longest_line → (result ≡ 0) × (out.new ≡ out.old)) }
{
    if out.len() < LINE {
        return 0;
    }
    let given = append_field(out, 0, b"refused ", number);
    append_last(out, given, b" line ", line)
}

// The line that tells that there is no price, likewise.
pub fn write_no_price(out: &mut [u8]) -> usize
    ensures { (longest_line ≤ length out.old → Wrote out.old 0 no_price_line out.new result)
        × (length out.old < longest_line → (result ≡ 0) × (out.new ≡ out.old)) }
{
    if out.len() < LINE {
        return 0;
    }
    put_no_price(out, 0)
}

fn put_no_price(out: &mut [u8], at: usize) -> usize
    requires { at + 14 ≤ length out.old }
    ensures { Wrote out.old at no_price_line out.new result }
{
    append(out, at, b"clears 0 none\n")
}

// The listing of an accepted input. Of more probes than a course holds nothing is written.
pub fn write_course(input: &[u8], prices: usize, course: Course, out: &mut [u8; ROOM]) -> usize
    ensures { (course.probes ≤ most_listed → Wrote out.old 0
        (course_lines (course_trail course.trail course.probes) course.answer
        (price_of course.answer (drop prices input.now)) course.demand course.supply)
        out.new result)
        × (most_listed < course.probes → (result ≡ 0) × (out.new ≡ out.old)) }
{
    if PROBES < course.probes as usize {
        return 0;
    }
    let probes = write_probes(course, out);
    let clears = write_clears(input, prices, course.answer, out, probes);
    let totals = write_totals(course.answer, course.demand, course.supply, out, clears);
    append_last(
        out,
        totals,
        b"rounds ",
        rounds(course.probes, course.answer),
    )
}

// The lines of the probes. Those of the second search have further numbers.
fn write_probes(course: Course, out: &mut [u8]) -> usize
    requires { (course.probes ≤ most_listed) × (83 * most_listed ≤ length out.old) }
    ensures { Wrote out.old 0 (probe_lines 1 (course_trail course.trail course.probes)) out.new result
        × (result ≤ 83 * most_listed) }
{
    let probes = course.probes as usize;
    let mut at = 0;
    for (i, probe) in course.trail[..probes].iter().enumerate() {
        at = write_probe(i as u64 + 1, *probe, out, at);
    }
    at
}

fn write_probe(number: u64, probe: Probe, out: &mut [u8], at: usize) -> usize
    requires { at + 83 ≤ length out.old }
    ensures { Wrote out.old at (probe_line number (probe.index, probe.verdict)) out.new result × (result ≤ at + 83) }
{
    let made = append_field(out, at, b"probe ", number);
    let probed = append_field(out, made, b" index ", probe.index);
    append_last(out, probed, b" verdict ", probe.verdict)
}

// The index that clears and its price. The price of index 1 is the first.
fn write_clears(input: &[u8], prices: usize, answer: u64, out: &mut [u8], at: usize) -> usize
    requires { at + 49 ≤ length out.old }
    ensures { Wrote out.old at (clears_line answer (price_of answer (drop prices input.now))) out.new result
        × (result ≤ at + 49) }
{
    if answer == 0 {
        return put_no_price(out, at);
    }
    let price = price_at(input, prices, answer - 1);
    let place = append_field(out, at, b"clears ", answer);
    append_last(out, place, b" ", price)
}

// Total demand and total supply at the price, where there is one.
fn write_totals(answer: u64, demand: u64, supply: u64, out: &mut [u8], at: usize) -> usize
    requires { at + 56 ≤ length out.old }
    ensures { Wrote out.old at (totals_line answer demand supply) out.new result × (result ≤ at + 56) }
{
    if answer == 0 {
        return at;
    }
    let wanted = append_field(out, at, b"demand ", demand);
    append_last(out, wanted, b" supply ", supply)
}

// Each probe takes 33 rounds, and the totals at a price take two.
fn rounds(probes: u64, answer: u64) -> u64
    requires { probes ≤ most_listed }
    ensures { result ≡ rounds_of probes answer }
{
    let probing = 33 * probes;
    if answer == 0 {
        return probing;
    }
    probing + 2
}

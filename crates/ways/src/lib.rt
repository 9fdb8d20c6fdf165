// The two ways to a verdict: by the last round of a probe, 33 or 7. The way is that number and no enum, since
// `record_words::party_of` reads it from any word, and `record::sound` judges it.
#![tactic(auto)]

ghost use Rattle.std.specs.Prelude.{◌≡◌, ◌*◌, ◌^◌, ◌≤◌, ◌<◌};
ghost use Rattle.ways.specs.Way.{is_way, way_of, triples_of, sheet_size, drawn_size, width};

pub fn is_way(last: u64) -> bool
    ensures { result ≡ is_way last }
{
    (last == 33) | (last == 7)
}

// How many triples a sheet has.
pub fn triples(last: u64) -> usize
    ensures { result ≡ triples_of (way_of last) }
{
    if last == 7 { 62 } else { 31 }
}

// How many words a sheet has.
pub fn sheet_words(last: u64) -> usize
    ensures { result ≡ sheet_size (way_of last) }
{
    if last == 7 { 220 } else { 127 }
}

// How many words so many sheets have.
pub fn sheets_words(last: u64, count: usize) -> usize
    requires { 220 * count < 2 ^ 64 }
    ensures { result ≡ sheet_size (way_of last) * count }
{
    if last == 7 { 220 * count } else { 127 * count }
}

// How many bytes are drawn for a sheet.
pub fn drawn_bytes(last: u64, t: usize) -> usize
    requires { t ≤ 4 }
    ensures { result ≡ drawn_size (way_of last) t }
{
    if last == 7 {
        219 * t + 124
    } else {
        126 * t + 62
    }
}

// How many words a party says in a round.
pub fn width(last: u64, round: u64) -> usize
    ensures { result ≡ width (way_of last) round }
{
    if (last == 7) & ((2 <= round) & (round <= 7)) {
        128 >> round
    } else {
        1
    }
}

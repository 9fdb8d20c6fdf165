// The lines of the input: whole numbers, one a line.
ghost use Rattle.std.specs.Prelude.{◌≡◌, ◌+◌, ◌<◌, drop};
ghost use Rattle.lines.specs.Lines.{grown, with_digit, ended, first_line, line_length};

const NEWLINE: u8 = 10;

// A line of the input: its number, or none where it is misshapen. Where the input has ended there is no
// number either.
pub type Line = Option<u64>;

// What has been read of a line.
#[derive(Clone, Copy)]
pub enum Part {
    Empty,
    Digits(u64),
    Bad,
}

// A line, and where the next one begins.
#[derive(Clone, Copy)]
pub struct LineRead {
    pub line: Line,
    pub next: usize,
}

// The line that begins at `at`. It is read by index, since the answer tells a place, and `at` may lie past the end.
pub fn read_line(input: &[u8], at: usize) -> LineRead
    ensures { (result.line ≡ first_line (drop at input.now)) × (result.next ≡ at + line_length (drop at input.now)) }
{
    let mut part = Part::Empty;
    for i in at..input.len() {
        let b = input[i];
        if b == NEWLINE {
            return LineRead {
                line: ended(part),
                next: i + 1,
            };
        }
        part = grown(part, b);
    }
    LineRead {
        line: None,
        next: at.max(input.len()),
    }
}

// A part of a line, with one byte more.
fn grown(part: Part, b: u8) -> Part
    ensures { result ≡ grown part b }
{
    if b.is_ascii_digit() {
        with_digit(part, (b - 48) as u64)
    } else {
        Part::Bad
    }
}

fn with_digit(part: Part, d: u64) -> Part
    requires { d < 10 }
    ensures { result ≡ with_digit part d }
{
    match part {
        Part::Empty => Part::Digits(d),
        Part::Digits(v) => {
            if v == 0 {
                Part::Bad
            } else if (u64::MAX - d) / 10 < v {
                Part::Bad
            } else {
                Part::Digits(10 * v + d)
            }
        }
        Part::Bad => Part::Bad,
    }
}

// The line, once its newline is read.
fn ended(part: Part) -> Line
    ensures { result ≡ ended part }
{
    match part {
        Part::Digits(v) => Some(v),
        Part::Empty | Part::Bad => None,
    }
}

// Words that are lowered by lines through them, whatever kind of words they are.
ghost use Rattle.std.specs.Prelude.{◌≡◌, ℕ, ◌≤◌, ◌<◌, length, drop};
ghost use Rattle.lowering.specs.Lines.{lowered_by, descended_by, Rising};

// How lines are drawn through words of one kind.
pub trait Lines {
    // The value at 0 of the line through y at r and z at x.
    ghost line: { ℕ → ℕ → ℕ → ℕ → ℕ };

    fn at_zero(&self, r: u64, y: u64, x: u64, z: u64) -> u64
        requires { (r < x) × (x ≤ 9) }
        ensures { result ≡ line r y x z };
}

// The words are lowered t times, each time by the first of those that are left. What is lowered stands after the first t.
// Points and words stay two slices: each step lends the rest of both, so a struct of them would be made anew at each.
pub fn descend<L: Lines>(lines: &L, t: usize, points: &[u64], words: &mut [u64])
    requires { Rising 0 points.now × (length words.old ≡ length points.now) × (t ≤ length points.now) }
    ensures { drop t words.new ≡ descended_by L.line t points.now words.old }
{
    for i in 0..t {
        let next = i + 1;
        lower(
            lines,
            points[i],
            words[i],
            &points[next..],
            &mut words[next..],
        );
    }
}

// Of each word, the value at 0 of the line through it and the word that is given.
pub fn lower<L: Lines>(lines: &L, point: u64, word: u64, points: &[u64], words: &mut [u64])
    requires { Rising point points.now × (length words.old ≡ length points.now) }
    ensures { words.new ≡ lowered_by L.line point word points.now words.old }
{
    // The index stands for a `zip` with the points, after which nothing would be known of what is written.
    for (i, z) in words.iter_mut().enumerate() {
        *z = lines.at_zero(point, word, points[i], *z);
    }
}

// Who was present in a round: n marks, 1 for one who was and 0 for one who was not.
#![tactic(auto)]

ghost use Rattle.std.specs.Prelude.{◌≡◌, cond, Some, None};
ghost use Rattle.presence.specs.Presence.{are_marks, how_many};

mod gathering;

pub use gathering::{Gathered, gather};

// How many of the marks are 1; nothing where one is no mark. The loop leaves there. So the compiler takes them one by
// one, which is quicker for so few.
pub fn count_marks(present: &[u8]) -> Option<u64>
    ensures { result ≡ cond (are_marks present.now) (Some (how_many present.now)) None }
{
    let mut count: u64 = 0;
    for mark in present {
        if 1 < *mark {
            return None;
        }
        count += *mark as u64;
    }
    Some(count)
}

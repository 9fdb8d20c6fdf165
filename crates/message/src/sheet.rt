// The shares of bits and bytes in a sheet.
ghost use Rattle.std.specs.Prelude.{◌≡◌, true, ◌≤◌, ◌<◌, ltb, length, drop, get_or};
ghost use Rattle.ranges.specs.Lists.{every};
ghost use Rattle.message.specs.Message.{triple_share};

use comparison::Triple;
use fields::BitShare;
use level::byte_at;

// A probe's sheet: every word but the mask's share is a byte.
#[derive(Clone, Copy)]
pub struct Sheet<'a> {
    pub words: &'a [u64],
    pub ghost bytes: { every (λ w. ltb w 256) (drop 1 words.now) ≡ true },
}

impl Sheet<'_> {
    // The share of the mask's bit i stands at i.
    pub fn byte_share(&self, at: u64) -> BitShare
        requires { (1 ≤ at) × (at < length self.now.words.now) }
        ensures { result.0 ≡ get_or self.now.words.now at 0 }
    {
        byte_at(self.words, at as usize)
    }

    // The triple of round i: alpha, beta and gamma stand together.
    pub fn triple_shares(&self, i: u64) -> Triple
        requires { (127 ≤ length self.now.words.now) × (2 ≤ i) × (i ≤ 32) }
        ensures alpha { result.alpha.0 ≡ triple_share self.now.words.now i 0 }
        ensures beta { result.beta.0 ≡ triple_share self.now.words.now i 1 }
        ensures gamma { result.gamma.0 ≡ triple_share self.now.words.now i 2 }
    {
        let at = 34 + 3 * (i - 2);
        Triple {
            alpha: self.byte_share(at),
            beta: self.byte_share(at + 1),
            gamma: self.byte_share(at + 2),
        }
    }
}

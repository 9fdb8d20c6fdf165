// Why a call is refused. The list is open at its end: a later refusal is one more case here, and
// otherwise concerns only the calls that give it.
#![tactic(auto)]

ghost use Rattle.std.specs.Prelude.{◌≡◌};
ghost use Rattle.refusal.specs.Refusal.{number_of, code_of};

#[derive(Clone, Copy, Debug, PartialEq, Eq)]
pub enum Refusal {
    OutOfRange,
    WrongLength,
    OutOfTurn,
    // the rehearsal's alone
    TooManyBids,
    CoinOutOfRange,
    AmountTooLarge,
    NotMonotone,
    ShareOutOfRange,
    OwnMessageDiffers,
    Inconsistent,
    SumOutOfRange,
    VerdictNotBit,
    // the rehearsal's and the settlement page's
    Malformed,
    AlreadyEntered,
    TooFewPresent,
    NotCleared,
    PageTooShort,
}

// What judging a call finds, and the reply of a call that only writes to what it is lent.
pub type Judgement = Result<(), Refusal>;

// The number in the paper's list.
impl From<Refusal> for u64 {
    ghost from_gives = { λ r n. n ≡ number_of r };

    fn from(r: Refusal) -> u64 {
        match r {
            Refusal::OutOfRange => 1,
            Refusal::WrongLength => 2,
            Refusal::OutOfTurn => 3,
            Refusal::TooManyBids => 4,
            Refusal::CoinOutOfRange => 5,
            Refusal::AmountTooLarge => 6,
            Refusal::NotMonotone => 7,
            Refusal::ShareOutOfRange => 8,
            Refusal::OwnMessageDiffers => 9,
            Refusal::Inconsistent => 10,
            Refusal::SumOutOfRange => 11,
            Refusal::VerdictNotBit => 12,
            Refusal::Malformed => 13,
            Refusal::AlreadyEntered => 14,
            Refusal::TooFewPresent => 15,
            Refusal::NotCleared => 16,
            Refusal::PageTooShort => 17,
        }
    }
}

// The refusal's number, and 0 for a call that was accepted.
pub fn code(j: Judgement) -> u64
    ensures { result ≡ code_of j }
{
    match j {
        Ok(()) => 0,
        Err(why) => why.into(),
    }
}

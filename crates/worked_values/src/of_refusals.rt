// Each refusal's number, in the order of the paper's list; 0 where nothing is refused.
use refusal::Refusal;

pub(crate) fn print() {
    report::title(b"refusals:");
    report::number(refusal::code(Ok(())));
    for why in [
        Refusal::OutOfRange,
        Refusal::WrongLength,
        Refusal::OutOfTurn,
        Refusal::TooManyBids,
        Refusal::CoinOutOfRange,
        Refusal::AmountTooLarge,
        Refusal::NotMonotone,
        Refusal::ShareOutOfRange,
        Refusal::OwnMessageDiffers,
        Refusal::Inconsistent,
        Refusal::SumOutOfRange,
        Refusal::VerdictNotBit,
        Refusal::Malformed,
        Refusal::AlreadyEntered,
        Refusal::TooFewPresent,
        Refusal::NotCleared,
    ] {
        report::number(refusal::code(Err(why)));
    }
    report::end();
}

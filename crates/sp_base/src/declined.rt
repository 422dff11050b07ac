use crate::refusal::Refusal;
use std::alloc::AllocError;
use std::error::Error;
use std::fmt;

/// Why a request gave nothing: it is refused, or memory is wanting. `R` is what is told of a refusal:
/// the refusal alone, or with the place of the event that is refused.
#[derive(Debug, Drop)]
pub enum Declined<R> {
    Refused(R),
    Memory,
}

impl<R: fmt::Debug> fmt::Display for Declined<R> {
    fn fmt<W: fmt::Write>(&self, f: &mut fmt::Formatter<W>) -> fmt::Result {
        match self {
            Declined::Refused(refusal) => write!(f, "refused: {refusal:?}"),
            Declined::Memory => write!(f, "want of memory"),
        }
    }
}

impl<R: fmt::Debug + Drop> Error for Declined<R> {}

impl<R> From<AllocError> for Declined<R> {
    ghost use Rattle.std.specs.Prelude.{◌≡◌};
    ghost use Rattle.sp_base.specs.declared.declined.Declined.TheVariants.{Memory};

    ghost from_gives = { λ _ e. e ≡ Memory };

    fn from(_: AllocError) -> Self {
        Declined::Memory
    }
}

/// The refusal of one of several events.
#[derive(Debug, Drop)]
pub struct EventRefusal {
    /// The event's place, from 0.
    pub index: u32,
    pub refusal: Refusal,
}

// Event records: what the octets of an event ask for, or why they are no record; and the numbers of refusals.
#![tactic(auto)]

ghost use Rattle.std.specs.Prelude.{◌≡◌};
ghost use Rattle.events.specs.Refusals.{refusal_number};
ghost use Rattle.events.specs.declared.Refusal.TheVariants.{FieldOutOfRange};

use board::OutOfRange;
use thiserror::Error;

pub mod logs;
pub mod records;

// Why an event is refused, in the order of the checks; documents 01 and 02 number them from 1 to 12.
#[derive(Clone, Copy, Debug, PartialEq, Eq, Error)]
pub enum Refusal {
    #[error("the buffer has fewer than 128 octets")]
    BufferTooSmall = 1,
    #[error("the board is not sound")]
    UnsoundBoard,
    #[error("the record is empty, or not as long as its kind")]
    WrongLength,
    #[error("the kind of the record is not listed")]
    UnknownKind,
    #[error("a field is outside its range")]
    FieldOutOfRange,
    #[error("the leg is on the board")]
    LegOnBoard,
    #[error("the reference is in use")]
    ReferenceInUse,
    #[error("no row is empty")]
    NoEmptyRow,
    #[error("no call has the reference")]
    NoSuchCall,
    #[error("the leg is not on the board")]
    NoSuchLeg,
    #[error("the standing of the call does not permit it")]
    NotPermitted,
    #[error("the component is no such invoke")]
    NoSuchInvoke,
}

// The number that a refusal is returned as.
impl From<Refusal> for u8 {
    ghost from_gives = { λ refusal number. number ≡ refusal_number refusal };

    fn from(refusal: Refusal) -> u8 {
        refusal as u8
    }
}

// A field that stands for no direction or auxiliary state.
impl From<OutOfRange> for Refusal {
    ghost from_gives = { λ _ refusal. refusal ≡ FieldOutOfRange };

    fn from(_: OutOfRange) -> Refusal {
        Refusal::FieldOutOfRange
    }
}

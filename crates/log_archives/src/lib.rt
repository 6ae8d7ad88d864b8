// Logs regrouped for the archive, where like octets stand together, and archives undone.
#![tactic(auto)]

ghost use Rattle.std.specs.Prelude.{◌≡◌, length};
ghost use Rattle.log_archives.specs.Contract.{not_regrouped_number};

mod judging;
mod packing;
mod unpacking;

use events::Refusal;
pub use packing::pack;
use thiserror::Error;
pub use unpacking::unpack;

// The most octets of a log that is packed; its archive has four more.
pub const MOST_OCTETS: usize = 65_536;

// A bad record: its number in the log, from 1, and what it is refused for.
#[derive(Clone, Copy, Debug, PartialEq, Eq, Error)]
#[error("record {number}: {refusal}")]
pub struct BadRecord {
    pub number: usize,
    pub refusal: Refusal,
}

// Why a log is not packed, or an archive not unpacked, in the order of the checks.
#[derive(Clone, Copy, Debug, PartialEq, Eq, Error)]
pub enum NotRegrouped {
    #[error("the option octets are missing or bad, or there are too many octets")]
    Unfit,
    #[error("the count or the kinds are cut short")]
    CutShort,
    #[error("record {0}: the kind is not listed")]
    UnknownKind(usize),
    #[error("the bodies are not as long as the kinds say")]
    BodiesDisagree,
    #[error("{0}")]
    Bad(BadRecord),
    #[error("the target is too small")]
    TargetTooSmall,
}

// The number that a refusal is returned as.
impl From<NotRegrouped> for u8 {
    ghost from_gives = { λ refused number. number ≡ not_regrouped_number refused };

    fn from(refused: NotRegrouped) -> u8 {
        match refused {
            NotRegrouped::Unfit => u8::from(Refusal::FieldOutOfRange),
            NotRegrouped::CutShort | NotRegrouped::BodiesDisagree => u8::from(Refusal::WrongLength),
            NotRegrouped::UnknownKind(_) => u8::from(Refusal::UnknownKind),
            NotRegrouped::Bad(bad) => u8::from(bad.refusal),
            NotRegrouped::TargetTooSmall => u8::from(Refusal::BufferTooSmall),
        }
    }
}

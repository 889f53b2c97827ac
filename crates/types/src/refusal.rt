// Why a call is refused.
ghost use Rattle.std.specs.Prelude.{◌≡◌};
ghost use Rattle.types.specs.Refusal.{number_of};

use thiserror::Error;

// Each case has a number, which C callers see.
#[derive(Clone, Copy, Debug, PartialEq, Eq, Error)]
pub enum Refusal {
    #[error("the name table breaks a rule")]
    BadTable,
    #[error("the arena is over a limit or unsound")]
    UnsoundArena,
    #[error("a node is malformed")]
    MalformedNode,
    #[error("a child or a name is out of range")]
    OutOfRange,
    #[error("field names don't rise")]
    UnorderedFields,
    #[error("a root is out of range")]
    NoSuchRoot,
    #[error("out of room")]
    NoRoom,
    #[error("a set has too many members")]
    TooManyMembers,
    #[error("the text is too long")]
    TextTooLong,
    #[error("the sheet is malformed")]
    MalformedSheet,
    #[error("the old sheet was refused")]
    OldSheetRefused,
    #[error("a name is absent from the target")]
    NameAbsent,
    #[error("the fix is malformed")]
    MalformedFix,
    #[error("the type has a variable")]
    HasVariable,
}

impl Refusal {
    pub fn number(self) -> u32
        ensures { result ≡ number_of self }
    {
        match self {
            Refusal::BadTable => 1,
            Refusal::UnsoundArena => 2,
            Refusal::MalformedNode => 3,
            Refusal::OutOfRange => 4,
            Refusal::UnorderedFields => 5,
            Refusal::NoSuchRoot => 6,
            Refusal::NoRoom => 7,
            Refusal::TooManyMembers => 8,
            Refusal::TextTooLong => 9,
            Refusal::MalformedSheet => 10,
            Refusal::OldSheetRefused => 11,
            Refusal::NameAbsent => 12,
            Refusal::MalformedFix => 13,
            Refusal::HasVariable => 14,
        }
    }
}

impl From<Refusal> for u32 {
    ghost from_gives = { λ e n. n ≡ number_of e };

    fn from(e: Refusal) -> u32 {
        e.number()
    }
}

//! What the text of a log is refused for.
use std::alloc::AllocError;
use thiserror::Error;

/// Why a text gives no log.
#[derive(Clone, Copy, Debug, PartialEq, Eq, Error)]
pub enum LogFault {
    /// The text is that of no log. The number is that of its first line, counted from 1, that is outside; a line that is
    /// missing counts as the next one.
    #[error("line {0} is none of a log")]
    BadLog(u64),
    /// Memory ran out.
    #[error("no memory")]
    Memory,
}

impl From<AllocError> for LogFault {
    ghost use Rattle.std.specs.Prelude.{◌≡◌};
    ghost use Rattle.log_text.specs.declared.fault.LogFault.TheVariants.{Memory};

    ghost from_gives = { λ _ fault. fault ≡ Memory };

    fn from(_: AllocError) -> Self {
        LogFault::Memory
    }
}

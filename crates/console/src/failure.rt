ghost use Rattle.std.specs.Prelude.{◌≡◌, MatchResult};
ghost use Rattle.console.specs.declared.failure.Failure.TheVariants.{Memory, System, Told};

use std::alloc::{AllocError, AllocFailed};
use std::io;
use thiserror::Error;

/// What ends a command without its answer.
#[derive(Debug, Drop, Error)]
pub enum Failure {
    /// Something typed, a file, or a refusal by the rules, told in one line.
    #[error("{0}")]
    Told(String),
    /// The system's own error.
    #[error("yarnbrick: {0}")]
    System(io::Error),
    /// Want of memory.
    #[error("yarnbrick: out of memory")]
    Memory,
}

// The three `From` by hand: `#[from]` writes no `from_gives`, and clauses name the failure that a `?` makes.
impl From<AllocError> for Failure {
    ghost from_gives = { λ _ r. r ≡ Memory };

    fn from(_e: AllocError) -> Failure {
        Failure::Memory
    }
}

impl<T: Drop> From<AllocFailed<T>> for Failure {
    ghost from_gives = { λ _ r. r ≡ Memory };

    fn from(_e: AllocFailed<T>) -> Failure {
        Failure::Memory
    }
}

impl From<io::Error> for Failure {
    ghost from_gives = { λ e r. r ≡ System e };

    fn from(e: io::Error) -> Failure {
        Failure::System(e)
    }
}

/// The failure that a line tells.
pub fn told(line: Result<String, AllocError>) -> Failure
    ensures { MatchResult line (λ s. result ≡ Told s) (λ _. result ≡ Memory) }
{
    line.map_or_else(Failure::from, Failure::Told)
}

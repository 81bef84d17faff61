//! Why the words of the command line aren't a command.

use clap::Error;
use clap::error::ErrorKind;
use std::alloc::{AllocError, AllocFailed};
use std::{fmt, io};

/// What `clap` returns instead of a command: a mistake in the words, the help that they ask for, or running out of
/// memory. Its `Display` is `clap`'s text for the user.
#[derive(Debug, Drop)]
pub struct Misuse {
    /// The error of `clap`.
    pub error: Error,
}

impl Misuse {
    ghost use Rattle.std.specs.Prelude.{◌≡◌};
    ghost use Rattle.clap.specs.Words.{kind_of};
    ghost use Rattle.command_line.specs.Misuses.{status_of};

    /// The exit status: 0 for help and for the version, 7 if memory ran out, else 2.
    pub fn status(&self) -> u8
        ensures { result ≡ status_of (kind_of self.now.error) }
    {
        match self.error.kind() {
            ErrorKind::DisplayHelp | ErrorKind::DisplayVersion => 0,
            ErrorKind::OutOfMemory => 7,
            _ => 2,
        }
    }

    /// Prints `clap`'s text: help and version on standard output, all else on standard error. It returns the error of
    /// the stream on which it prints.
    pub fn print<R: Print + Eprint>(&self, rt: &R) -> io::Result<()> {
        self.error.print(rt)
    }
}

impl From<Error> for Misuse {
    ghost use Rattle.std.specs.Prelude.{◌≡◌};

    ghost from_gives = { λ e m. m.error ≡ e };

    fn from(error: Error) -> Misuse {
        Misuse { error }
    }
}

impl From<AllocError> for Misuse {
    ghost use Rattle.std.specs.Prelude.{◌≡◌};
    ghost use Rattle.clap.specs.Words.{kind_of};
    ghost use Rattle.clap.specs.declared.error.kind.ErrorKind.TheVariants.{OutOfMemory};

    ghost from_gives = { λ _ m. kind_of m.error ≡ OutOfMemory };

    fn from(error: AllocError) -> Misuse {
        Misuse {
            error: Error::from(error),
        }
    }
}

impl fmt::Display for Misuse {
    fn fmt<W: fmt::Write>(&self, f: &mut fmt::Formatter<W>) -> fmt::Result {
        fmt::Display::fmt(&self.error, f)
    }
}

//! How the program can end, with the exit status of each outcome, as in the table in bestore(1).
ghost use Rattle.std.specs.Prelude.{◌≡◌};
ghost use Rattle.std.specs.Process.{exit_status};
ghost use Rattle.bestore.specs.Statuses.{status_of};

use std::process::ExitCode;

#[derive(Clone, Copy)]
pub(crate) enum Outcome {
    /// The command reached the end of its input, whatever the replies were, or a strict run reached
    /// the end without a refused line, or a journal was correct, or help or the version was
    /// printed.
    Done,
    /// A strict run ended at a refused line.
    Refused,
    /// A journal is wrong.
    Wrong,
    /// Something couldn't be read or written, or has no journal, or is too long, or memory ran out.
    /// One line on standard error says which.
    Failed,
    /// The command line is invalid, or one of its words isn't valid UTF-8.
    Misused,
}

/// Returns the exit status of an outcome.
pub(crate) fn status_of(outcome: Outcome) -> ExitCode
    ensures { exit_status result ≡ status_of outcome }
{
    let status = match outcome {
        Outcome::Done => 0,
        Outcome::Refused | Outcome::Wrong | Outcome::Failed => 1,
        Outcome::Misused => 2,
    };
    ExitCode::from(status)
}

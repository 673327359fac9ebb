//! What is printed on standard error after a run.
ghost use Rattle.std.specs.Prelude.{◌≡◌, ◌⊎◌};
ghost use Rattle.fz_app.specs.Status.{status_number};
ghost use Rattle.fz_hints.specs.Hint.{Says};
ghost use Rattle.fz.specs.Told.{ended_of};

use fz_app::Status;
use fz_base::{Failed, Text};
use fz_hints::{Ended, Failing, explain};
use std::fs::File;
use std::rt::Files;

/// Prints why a run ended so. It may only read the status, and is given nothing that the run worked with.
pub fn tell<R: Files<File = File> + AllocGlobal + Clone + Drop, T: Text>(
    rt: &R,
    words: &[String],
    status: &Status,
    failing: Failing,
    text: &mut T,
)
    ensures silent { (status_number status.now ≡ 0) ⊎ ((status_number status.now ≡ 1) ⊎ (status_number status.now ≡ 7)) → text.new ≡ text.old }
    ensures said { Says (T.contents text.old) (T.contents text.new) }
{
    explain(rt, words, &ended_of(status), failing, text);
}

// What is explained of a status.
fn ended_of(status: &Status) -> Ended
    ensures { result ≡ ended_of status.now }
{
    match status {
        Status::Done | Status::Different | Status::NoMemory => Ended::Quiet,
        Status::Usage => Ended::Usage,
        Status::Refused(fault) => Ended::Refused(*fault),
        Status::ReadFault => Ended::ReadFault,
        Status::WriteFault => Ended::WriteFault,
        Status::OverLimit { live, asked, limit } => Ended::OverLimit {
            live: *live,
            asked: *asked,
            limit: *limit,
        },
    }
}

/// The first call that failed, if this is what failed before, and such a call answered so now.
pub fn first_failing<T>(before: Failing, call: Failing, answer: &Result<T, Failed>) -> Failing {
    match before {
        Failing::Nothing if answer.is_err() => call,
        _ => before,
    }
}

//! The top call: it prints what is to be said of a run.
ghost use Rattle.std.specs.Prelude.{◌≡◌};
ghost use Rattle.fz_hints.specs.Hint.{Says};
ghost use Rattle.fz_hints.specs.declared.ended.Ended.TheVariants.{Quiet};

use crate::ended::{Ended, Failing};
use crate::faults::{print_read_fault, print_write_fault};
use crate::files::run_of;
use crate::lines::Lines;
use crate::place::print_refusal;
use crate::wrong::print_usage;
use fz_base::Text;
use std::fs::File;
use std::rt::Files;

/// Prints why a run of the program with these words ended so: one or two lines, or a page of help. `failing` is the first call of
/// the file that the run writes that failed.
///
/// The files that the words name are looked at a second time, and nothing of them is changed. If the text cannot be written, or
/// there is no memory, less is printed, or nothing.
#[tactic(auto, using(crate::proofs::HintLemmas::says_nothing))]
pub fn explain<R: Files<File = File> + AllocGlobal + Clone + Drop, T: Text>(
    rt: &R,
    words: &[String],
    ended: &Ended,
    failing: Failing,
    text: &mut T,
)
    ensures silent { ended.now ≡ Quiet → text.new ≡ text.old }
    ensures said { Says (T.contents text.old) (T.contents text.new) }
{
    if let Ended::Quiet = ended {
        return;
    }
    let mut lines = Lines::new();
    print_ended(rt, words, ended, failing, &mut lines);
    say(&lines, text);
}

// Puts the lines to a text. What cannot be printed changes nothing.
fn say<T: Text>(lines: &Lines, text: &mut T)
    ensures { Says (T.contents text.old) (T.contents text.new) }
{
    let _ = text.put(lines.bytes());
}

// The lines of an end.
fn print_ended<R: Files<File = File> + AllocGlobal + Clone + Drop>(
    rt: &R,
    words: &[String],
    ended: &Ended,
    failing: Failing,
    lines: &mut Lines,
) {
    if let Ended::Usage = ended {
        return print_usage(rt.alloc(), words, lines);
    }
    let Some(run) = run_of(words) else {
        return;
    };
    match ended {
        Ended::Quiet | Ended::Usage => {}
        Ended::Refused(fault) => print_refusal(rt, &run, fault, lines),
        Ended::ReadFault => print_read_fault(rt, &run, failing, lines),
        Ended::WriteFault => print_write_fault(rt, &run, failing, lines),
        Ended::OverLimit { live, asked, limit } => {
            print_over_limit(run.read, live.saturating_add(*asked), *limit, lines);
        }
    }
}

// How much memory is needed at least, and how much is allowed.
fn print_over_limit(name: &str, needed: u64, limit: u64, lines: &mut Lines) {
    lines.begin();
    lines.add(&[name, " needs at least "]);
    lines.number(needed);
    lines.add(&[" bytes of buffers, --memory allows "]);
    lines.number(limit);
    lines.end();
    lines.line(&["a larger --memory, smaller tiles (--tile) or fewer --workers may do"]);
}

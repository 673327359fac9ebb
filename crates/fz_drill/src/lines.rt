//! The lines that are printed.
ghost use Rattle.std.specs.Prelude.{◌≡◌, ◌+◌, ◌≤◌, ◌++◌, codes, decimal, length as len};
ghost use Rattle.arrayvec.specs.ArrayString.{array_string_len};
ghost use Rattle.fz_drill.specs.Said.{outcome_text, outcomes_text, same_word};

use crate::outcome::{Outcome, Outcomes};
use arrayvec::ArrayString;
use itoa::Buffer;

/// There is room for four lines.
pub(crate) type Lines = ArrayString<320>;

/// The line of the file, and one for each codec.
pub(crate) fn lines_of(rows: u32, all: &Outcomes) -> Lines
    ensures { result.bytes ≡ outcomes_text rows all.now }
{
    let mut lines = Lines::new();
    lines.push_str("drill ");
    push_number(&mut lines, u64::from(rows));
    lines.push_str(" plain ");
    push_number(&mut lines, all.plain);
    lines.push_str("\n");
    push_outcome(&mut lines, "rice", &all.rice);
    push_outcome(&mut lines, "plio", &all.plio);
    push_outcome(&mut lines, "none", &all.none);
    lines
}

// The line of a codec.
fn push_outcome(lines: &mut Lines, name: &str, outcome: &Outcome)
    requires name { len name.now ≤ 4 }
    requires room { array_string_len lines.old ≤ 240 }
    ensures bytes { lines.new.bytes ≡ lines.old.bytes ++ outcome_text name.now outcome.now }
    ensures len { array_string_len lines.new ≤ array_string_len lines.old + 60 }
{
    lines.push_str(name);
    lines.push_str(" packed ");
    push_number(lines, outcome.packed);
    lines.push_str(" unpack ");
    lines.push_str(verdict(outcome.unpacked));
    lines.push_str(" cut ");
    lines.push_str(verdict(outcome.cut));
    lines.push_str("\n");
}

// Whether the bytes are the same.
fn verdict(same: bool) -> &'static str
    ensures word { result.now ≡ same_word same }
    ensures short { len result.now ≤ 5 }
{
    if same { "same" } else { "other" }
}

// A number in decimal.
fn push_number(lines: &mut Lines, number: u64)
    requires room { array_string_len lines.old ≤ 280 }
    ensures bytes { lines.new.bytes ≡ lines.old.bytes ++ decimal number }
    ensures len { array_string_len lines.new ≤ array_string_len lines.old + 20 }
{
    lines.push_str(Buffer::new().format(number));
}

//! The line that a status prints.
ghost use Rattle.std.specs.Prelude.{ℕ, ◌≡◌, ◌+◌, ◌≤◌, ◌++◌, decimal};
ghost use Rattle.arrayvec.specs.ArrayString.{array_string_len};
ghost use Rattle.fz_app.specs.Lines.{status_line, refusal_text, place_text, strict_text};

use crate::kind_name::kind_name;
use crate::status::Status;
use arrayvec::ArrayString;
use fz_base::{Fault, Place};
use itoa::Buffer;

/// A line has room for four numbers and the words beside them.
pub(crate) type Line = ArrayString<256>;

/// The line of a status; it is empty for Done and Different.
pub(crate) fn line_of(status: &Status) -> Line
    ensures { result.bytes ≡ status_line status.now }
{
    let mut line = Line::new();
    match status {
        Status::Done | Status::Different => {}
        Status::Usage => line.push_str(
            "usage: fz pack, unpack, cut, verify, list, drill, retile or patch\n",
        ),
        Status::Refused(fault) => {
            push_refusal(&mut line, fault);
            line.push_str("\n");
        }
        Status::ReadFault => line.push_str("read fault\n"),
        Status::WriteFault => line.push_str("write fault\n"),
        Status::OverLimit { live, asked, limit } => {
            line.push_str("over limit: live ");
            push_number(&mut line, *live);
            line.push_str(" asked ");
            push_number(&mut line, *asked);
            line.push_str(" limit ");
            push_number(&mut line, *limit);
            line.push_str("\n");
        }
        Status::NoMemory => line.push_str("no memory\n"),
    }
    line
}

// The words of a refusal, without the end of the line.
fn push_refusal(line: &mut Line, fault: &Fault)
    requires { array_string_len line.old ≤ 0 }
    ensures bytes { line.new.bytes ≡ line.old.bytes ++ refusal_text fault.now }
    ensures len { array_string_len line.new ≤ 200 }
{
    line.push_str("refused: ");
    push_number(line, u64::from(fault.kind.number()));
    line.push_str(" ");
    line.push_str(kind_name(fault.kind));
    line.push_str(" hdu ");
    push_number(line, u64::from(fault.hdu));
    line.push_str(" ");
    push_place(line, &fault.at);
}

// A place by its sort and its number.
fn push_place(line: &mut Line, place: &Place)
    requires { array_string_len line.old ≤ 150 }
    ensures bytes { line.new.bytes ≡ line.old.bytes ++ place_text place.now }
    ensures len { array_string_len line.new ≤ array_string_len line.old + 45 }
{
    let (sort, number) = match place {
        Place::Byte(at) => ("byte ", *at),
        Place::Card(index) => ("card ", u64::from(*index)),
        Place::Row(index) => ("row ", u64::from(*index)),
    };
    line.push_str(sort);
    push_number(line, number);
}

// A number in decimal.
fn push_number(line: &mut Line, number: u64)
    requires { array_string_len line.old ≤ 200 }
    ensures bytes { line.new.bytes ≡ line.old.bytes ++ decimal number }
    ensures len { array_string_len line.new ≤ array_string_len line.old + 40 }
{
    line.push_str(Buffer::new().format(number));
}

/// The line that says whether a file is the packed file of the file that it stands for.
pub(crate) fn strict_line(same: bool) -> &'static [u8]
    ensures { result.now ≡ strict_text same }
{
    if same {
        b"strict yes\n"
    } else {
        b"strict no\n"
    }
}

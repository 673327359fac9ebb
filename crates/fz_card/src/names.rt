//! Names that are made of a stem and a number, and the number of such a name.
ghost use Rattle.std.specs.Prelude.{◌≡◌, ◌<◌, ◌≤◌, MatchBool, slice_index};
ghost use Rattle.fz_card.specs.Made.{FitsName, numbered_name};
ghost use Rattle.fz_card.specs.Plain.{ReadsNumeral};
ghost use Rattle.fz_card.specs.Tables.Names.{Numbered};
ghost use Rattle.fz_card.specs.Naming.{number_behind, is_in};
ghost use Rattle.fz_card.specs.Laws.{NumberedNameLaws};

use crate::card::Name;
use crate::line::Line;
use crate::text::without_last_blanks;
use itoa::Buffer;

/// The stem and the decimal digits of `i`, filled with blanks, as `NAXIS1`; both fit into 8 bytes.
pub fn numbered(stem: &[u8], i: u32) -> Name
    requires { FitsName stem.now i }
    ensures { result.bytes ≡ numbered_name stem.now i }
{
    let mut buffer = Buffer::new();
    let mut line = Line::new();
    line.push(stem);
    line.push(buffer.format(i).as_bytes());
    Name {
        bytes: line.bytes(),
    }
}

/// The number of a name that is made of the stem and a number above 0, as 12 of `NAXIS12`, and `None` exactly
/// if it is made of no such number: the digits have no zeros at their front (FITS 4.0, section 4.1.2.1).
pub fn number_behind(name: Name, stem: &[u8]) -> Option<u32>
    ensures { result ≡ number_behind stem.now name.bytes }
{
    let digits = without_last_blanks(name.bytes.strip_prefix(stem)?);
    if begins_above_zero(digits) {
        whole_number(digits)
    } else {
        None
    }
}

/// Whether the name is made of the stem and a number from 1 to the last one.
pub fn is_numbered(name: Name, stem: &[u8], last: u32) -> bool
    ensures { result ≡ is_in (Numbered stem.now last) name.bytes }
{
    number_behind(name, stem).is_some_and(|number| number <= last)
}

/// Whether the first byte is a digit and no zero.
fn begins_above_zero(digits: &[u8]) -> bool
    ensures { MatchBool result
        ((48 < slice_index digits.now 0) × (slice_index digits.now 0 ≤ 57))
        (48 < slice_index digits.now 0 → ¬ (slice_index digits.now 0 ≤ 57)) }
{
    matches!(digits, [b'1'..=b'9', ..])
}

/// The number that the text writes, if it is digits, maybe after a `+`, and it fits.
pub fn whole_number(digits: &[u8]) -> Option<u32>
    ensures { ReadsNumeral digits.now result }
{
    let Ok(text) = str::from_utf8(digits) else {
        return None;
    };
    text.parse().ok()
}

/// A name has a number after a stem exactly if it is made of both. A stem and a number that fit make a name of 8
/// bytes.
pub fn numbers_law()
    ensures { NumberedNameLaws }
{}

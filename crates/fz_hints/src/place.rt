//! What is printed of a refusal: the file, the place in it, and what to do.
use crate::card_again::card_again;
use crate::command::Command;
use crate::files::{Found, Run, found_at};
use crate::lines::Lines;
use crate::sentences::sentence;
use fz_base::{Fault, FileSource, Kind, Place, Source};
use std::fs::File;
use std::rt::Files;

/// Prints what is refused, and why.
pub(crate) fn print_refusal<R: Files<File = File> + AllocGlobal + Clone + Drop>(
    rt: &R,
    run: &Run<'_>,
    fault: &Fault,
    lines: &mut Lines,
) {
    let name = refused_file(run, fault.kind);
    let card = card_of(rt, run, name, fault);
    lines.begin();
    lines.add(&[name, ", HDU "]);
    lines.digits(u64::from(fault.hdu));
    print_place(&fault.at, card.as_ref(), lines);
    lines.add(&[": ", sentence(fault)]);
    lines.end();
    if let Some(card) = card {
        lines.begin();
        lines.add(&["the card is: "]);
        lines.ascii(without_last_blanks(&card));
        lines.end();
    }
    if run.command == Command::Retile {
        lines.line(&["the place may be one in the file that fz unpack makes of it"]);
    }
}

// The file that is refused.
fn refused_file<'a>(run: &Run<'a>, kind: Kind) -> &'a str {
    if run.command == Command::Patch && kind != Kind::BadPatch {
        run.written
    } else {
        run.read
    }
}

// The card at the place of a fault. That of `retile` may be one of a file that is not there.
fn card_of<R: Files<File = File> + AllocGlobal + Clone + Drop>(
    rt: &R,
    run: &Run<'_>,
    name: &str,
    fault: &Fault,
) -> Option<[u8; 80]> {
    let Place::Card(card) = fault.at else {
        return None;
    };
    if run.command == Command::Retile || !matches!(found_at(rt, name), Ok(Found::File)) {
        return None;
    }
    let mut source = FileSource::new(rt.clone().ok()?);
    let length = source.attach(name).ok()?;
    card_again(rt.alloc(), &mut source, length, fault.hdu, card)
}

// A place in an HDU; of a card also its name.
fn print_place(place: &Place, card: Option<&[u8; 80]>, lines: &mut Lines) {
    let (sort, number) = match place {
        Place::Byte(at) => (", byte ", *at),
        Place::Card(index) => (", card ", u64::from(*index)),
        Place::Row(index) => (", row ", u64::from(*index)),
    };
    lines.add(&[sort]);
    lines.digits(number);
    if let Some(card) = card {
        lines.add(&[" ("]);
        lines.ascii(without_last_blanks(&card[..8]));
        lines.add(&[")"]);
    }
}

// Bytes up to the last that is no blank.
fn without_last_blanks(bytes: &[u8]) -> &[u8] {
    let mut left = bytes;
    while let [front @ .., b' '] = left {
        left = front;
    }
    left
}

//! What no clause says: messages, worked rows, real files, and that each call can succeed.
ghost use Rattle.fz_base.specs.Counts.{HasCause, nameless};

use crate::asserts::alike;
use fz_base::{
    Bytes, Failed, Fault, FileSink, FileSource, FixedSource, FreeGate, Gate, Kind, MemSink,
    MemSource, MemText, Meter, Numbers, Place, Short, Sink, Source, StdText, Stop, Text, copy,
    log_law, output_law, seal, write_behind,
};
use std::fmt::Display;
use std::fs::File;
use std::io::{ErrorKind, Write};
use std::test::Fail;
use std::{fs, io};

const FAULT: Result<(), Failed> = Err(Failed::Fault);

#[test]
fn messages_are_the_names(rt: HostRuntime) -> Result<(), Fail> {
    let fault = Fault {
        hdu: 0,
        at: Place::Byte(0),
        kind: Kind::NotFits,
    };
    let (live, asked, limit) = (6, 5, 10);
    let failed = format!(in rt.alloc(); "{} {}", Failed::Fault, Failed::NoMemory)?;
    let short = format!(in rt.alloc();
        "{} {}",
        Short::NoMemory,
        Short::OverLimit { live, asked, limit }
    )?;
    alike(
        &rt,
        (failed.as_str(), short.as_str()),
        ("Fault NoMemory", "NoMemory OverLimit"),
    );
    let faults = format!(in rt.alloc();
        "{} {} {}",
        Stop::Refused(fault),
        Stop::ReadFault,
        Stop::WriteFault
    )?;
    let shorts = format!(in rt.alloc();
        "{} {}",
        Stop::OverLimit { live, asked, limit },
        Stop::NoMemory
    )?;
    alike(
        &rt,
        (faults.as_str(), shorts.as_str()),
        ("Refused ReadFault WriteFault", "OverLimit NoMemory"),
    );
    Ok(())
}

#[test]
fn kinds_have_numbers_and_a_gate_lets_through(rt: HostRuntime) {
    alike(
        &rt,
        (Kind::NotFits.number(), Kind::BadPatch.number()),
        (1, 32),
    );
    FreeGate.pass(0, 0);
}

#[test]
fn meter_keeps_its_limit(rt: HostRuntime) -> Result<(), Fail> {
    let mut meter = Meter::new(rt.alloc(), 12);
    meter.narrow(10);
    let mut six = meter.bytes(6)?;
    let refused = meter.bytes(5).err();
    let (live, asked, limit) = (6, 5, 10);
    let four = meter.bytes(4)?;
    alike(
        &rt,
        (refused, meter.live(), meter.peak(), meter.limit()),
        (Some(Short::OverLimit { live, asked, limit }), 10, 10, 10),
    );
    alike(&rt, (six.len(), six.as_slice()), (6, [0; 6].as_slice()));
    six.as_mut_slice().copy_from_slice(b"SIMPLE");
    alike(&rt, six.as_slice(), b"SIMPLE".as_slice());
    meter.give_bytes(six);
    meter.give_bytes(four);
    let mut two = meter.numbers(2)?;
    two.as_mut_slice().copy_from_slice(&[1, -1]);
    alike(
        &rt,
        (meter.live(), meter.peak(), two.as_slice()),
        (8, 10, [1, -1].as_slice()),
    );
    meter.give_numbers(two);
    let empty = Bytes::empty(rt.alloc()).len() + Numbers::empty(rt.alloc()).len();
    alike(&rt, (meter.live(), empty), (0, 0));
    Ok(())
}

#[test]
fn mem_source_fails_where_it_is_told_to(rt: HostRuntime) -> Result<(), Fail> {
    static CASES: [(
        u32,
        Result<u64, Failed>,
        Result<(), Failed>,
        &[(u64, u64)],
        u64,
    ); 3] = [
        (2, Ok(6), Ok(()), &[(2, 3)], 0),
        (0, Err(Failed::Fault), Ok(()), &[], 1),
        (1, Ok(6), Err(Failed::Fault), &[], 1),
    ];
    for &(failing, attached, answer, reads, faults) in &CASES {
        let bytes = b"SIMPLE".to_vec(rt.alloc())?;
        let mut source = MemSource::new(rt.alloc(), bytes, vec![in rt.alloc(); failing]?);
        let length = source.attach("any");
        if length == Ok(6) {
            let mut into = [0; 3];
            let read = source.read_at(2, &mut into);
            assert!(rt; read == answer && (answer.is_err() || into == *b"MPL"));
        }
        alike(
            &rt,
            (length, source.reads(), source.faults()),
            (attached, reads, faults),
        );
    }
    Ok(())
}

// Any source, of which only its trait is known.
fn attach<S: Source>(source: &mut S) -> Result<u64, Failed>
    ensures cause { HasCause (nameless (S.tally source.old)) (nameless (S.tally source.new)) result }
{
    source.attach("any")
}

#[test]
fn fixed_source_never_fails(rt: HostRuntime) -> Result<(), Fail> {
    let mut source = FixedSource::new(b"SIMPLE".to_vec(rt.alloc())?);
    let Ok(_) = attach(&mut source) else {
        unreachable!()
    };
    let length = source.attach("any")?;
    assert!(rt; length == 6);
    let mut into = [0; 3];
    let Ok(()) = source.read_at(2, &mut into) else {
        unreachable!()
    };
    alike(&rt, into, *b"MPL");
    Ok(())
}

#[test]
fn mem_sink_keeps_what_it_is_told_to(rt: HostRuntime) -> Result<(), Fail> {
    static CASES: [(u32, u32, [Result<(), Failed>; 3], &[u8]); 6] = [
        (9, 0, [Ok(()), Ok(()), Ok(())], b"AB\0\0CDE"),
        (2, 0, [Ok(()), FAULT, Ok(())], b"AB"),
        (2, 1, [Ok(()), FAULT, Ok(())], b"AB\0\0C"),
        (2, 7, [Ok(()), FAULT, Ok(())], b"AB\0\0CDE"),
        (1, 1, [FAULT, Ok(()), Ok(())], b"A\0\0\0CDE"),
        (3, 7, [Ok(()), Ok(()), FAULT], b"AB\0\0CDE"),
    ];
    for &(failing, keep, answers, contents) in &CASES {
        let mut sink = MemSink::new(rt.alloc(), vec![in rt.alloc(); failing]?, keep);
        alike(&rt, sink.contents(), [].as_slice());
        sink.create("any")?;
        let first = sink.write_at(0, b"AB");
        let second = sink.write_at(4, b"CDE");
        let found = [first, second, sink.finish()];
        alike(
            &rt,
            (found, sink.contents(), sink.faults() == 0),
            (answers, contents, failing == 9),
        );
        sink.create("any")?;
        alike(&rt, sink.contents(), [].as_slice());
    }
    Ok(())
}

#[test]
fn output_is_copied_in_pieces_and_sealed(rt: HostRuntime) -> Result<(), Fail> {
    let mut source = MemSource::new(
        rt.alloc(),
        b"SIMPLE".to_vec(rt.alloc())?,
        Vec::new(rt.alloc()),
    );
    source.attach("any")?;
    let mut sink = MemSink::new(rt.alloc(), Vec::new(rt.alloc()), 0);
    sink.create("any")?;
    copy(&mut source, 1, 5, &mut sink, 1, &mut [0; 2])?;
    alike(&rt, source.reads(), [(1, 2), (3, 2), (5, 1)].as_slice());
    write_behind(&mut sink, 6, b" =")?;
    alike(&rt, sink.contents(), b"\0IMPLE =".as_slice());
    seal(&mut sink)?;
    alike(&rt, sink.contents(), b"SIMPLE =".as_slice());
    log_law();
    output_law();
    Ok(())
}

#[test]
fn mem_sink_wants_memory(rt: HostRuntime) -> Result<(), Fail> {
    let mut sink = MemSink::new(rt.alloc(), vec![in rt.alloc(); 0]?, 7);
    alike(&rt, sink.create("any"), Err(Failed::Fault));
    sink.create("any")?;
    // no such place
    let nowhere = sink.write_at(u64::MAX, b"FITS");
    alike(
        &rt,
        (nowhere, sink.contents(), sink.faults()),
        (Err(Failed::NoMemory), [].as_slice(), 1),
    );
    Ok(())
}

#[test]
fn mem_text_grows(rt: HostRuntime) -> Result<(), Fail> {
    let mut text = MemText::new(rt.alloc(), vec![in rt.alloc(); 1]?);
    text.put(b"done")?;
    let lost = text.put(b"lost");
    text.put(b"\n")?;
    alike(
        &rt,
        (lost, text.contents(), text.faults()),
        (Err(Failed::Fault), b"done\n".as_slice(), 1),
    );
    Ok(())
}

#[test]
fn file_source_reads_a_file(rt: HostRuntime) -> Result<(), Fail> {
    let mut source = FileSource::new(rt);
    // no such file
    alike(&rt, source.attach("in.fits"), Err(Failed::Fault));
    // it is a folder
    alike(&rt, source.attach("."), Err(Failed::Fault));
    fs::write(&rt, "in.fits", b"SIMPLE".as_slice())?;
    let length = source.attach("in.fits")?;
    assert!(rt; length == 6);
    let mut into = [0; 3];
    source.read_at(2, &mut into)?;
    alike(&rt, into, *b"MPL");
    fs::write(&rt, "in.fits", b"SIMP".as_slice())?;
    // it ends early
    alike(&rt, source.read_at(2, &mut into), Err(Failed::Fault));
    Ok(())
}

#[test]
fn file_sink_makes_a_file(rt: HostRuntime) -> Result<(), Fail> {
    let mut sink = FileSink::new(rt);
    sink.create("out.fits")?;
    sink.write_at(4, b"CDE")?;
    sink.write_at(0, b"AB")?;
    // no such place
    alike(&rt, sink.write_at(u64::MAX, b"F"), Err(Failed::Fault));
    sink.finish()?;
    let mut other = FileSink::new(rt);
    // it is there already
    alike(&rt, other.create("out.fits"), Err(Failed::Fault));
    alike(
        &rt,
        fs::read(&rt, "out.fits")?.as_slice(),
        b"AB\0\0CDE".as_slice(),
    );
    Ok(())
}

// Prints into a file, or refuses.
#[derive(Drop)]
struct Printer {
    file: File,
    refusal: Option<ErrorKind>,
}

impl Print for Printer {
    fn print<D: Display + Drop>(&self, _value: D) -> io::Result<()> {
        Err(io::Error::from(ErrorKind::Unsupported))
    }

    fn println<D: Display + Drop>(&self, _value: D) -> io::Result<()> {
        Err(io::Error::from(ErrorKind::Unsupported))
    }

    fn write_all(&self, bytes: &[u8]) -> io::Result<()> {
        match self.refusal {
            Some(kind) => Err(io::Error::from(kind)),
            None => (&self.file).write_all(bytes),
        }
    }
}

#[test]
fn std_text_prints(rt: HostRuntime) -> Result<(), Fail> {
    StdText::new(rt).put(b"done\n")?;
    for (refusal, answer, printed) in [
        (None, Ok(()), "done\n"),
        (Some(ErrorKind::WriteZero), Err(Failed::Fault), ""),
        (Some(ErrorKind::OutOfMemory), Err(Failed::NoMemory), ""),
    ] {
        let file = File::create(&rt, "printed")?;
        let mut text = StdText::new(Printer { file, refusal });
        let put = text.put(b"done\n");
        let found = fs::read_to_string(&rt, "printed")?;
        alike(&rt, (put, found.as_str()), (answer, printed));
    }
    Ok(())
}

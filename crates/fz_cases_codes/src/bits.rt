//! Bits worked out by hand.
use crate::asserts::alike;
use fz_bits::{BitReader, BitWriter, Ended, Full, ZeroStop};

#[test]
fn one_byte_is_full(rt: HostRuntime) {
    let mut out = [0u8; 1];
    let mut writer = BitWriter::new(&mut out);
    let puts = [writer.put(5, 3), writer.put(0, 6)];
    let unaries = [writer.unary(4), writer.unary(0)];
    let len = writer.finish();
    let fits = [Ok(()), Err(Full)];
    alike(&rt, (puts, unaries, len, out), (fits, fits, 1, [0xa1]));
}

#[test]
fn words_and_long_runs(rt: HostRuntime) {
    let mut out = [0xeeu8; 14];
    let mut writer = BitWriter::new(&mut out);
    let puts = [
        writer.put(1, 1),
        writer.put(0x8000_0001, 32),
        writer.put(0, 0),
    ];
    let unaries = [writer.unary(66), writer.unary(32)];
    let len = writer.finish();
    alike(
        &rt,
        (puts, unaries, len),
        ([Ok(()); 3], [Ok(()), Err(Full)], 13),
    );
    alike(
        &rt,
        out,
        [0xc0, 0, 0, 0, 0x80, 0, 0, 0, 0, 0, 0, 0, 0x10, 0xee],
    );
}

#[test]
fn long_numbers(rt: HostRuntime) {
    let mut out = [0xeeu8; 17];
    let mut writer = BitWriter::new(&mut out);
    let puts = [
        writer.put_long(0x4000_0000_0000_0001, 63),
        writer.put_long(0x123_4567_89ab_cdef, 57),
        writer.put_long(0, 17),
        writer.put_long(0xff, 8),
    ];
    let len = writer.finish();
    alike(&rt, (puts, len), ([Ok(()), Ok(()), Err(Full), Ok(())], 16));
    let long = [
        0x80, 0, 0, 0, 0, 0, 0, 0x03, 0x23, 0x45, 0x67, 0x89, 0xab, 0xcd, 0xef, 0xff, 0xee,
    ];
    alike(&rt, out, long);
}

/// The zeros of at most so many before a one, and where the reader is then.
fn zeros_to(reader: &mut BitReader<'_>, most: u32) -> (Result<u32, ZeroStop>, u64) {
    let zeros = reader.zeros(most);
    (zeros, reader.place())
}

#[test]
fn zeros_and_ends(rt: HostRuntime) {
    let mut reader = BitReader::new(&[0x08]);
    let too_many = zeros_to(&mut reader, 3);
    let four = zeros_to(&mut reader, 4);
    alike(
        &rt,
        (too_many, four),
        ((Err(ZeroStop::TooMany), 0), (Ok(4), 5)),
    );
    let stops = [reader.zeros(3), reader.zeros(2)];
    let numbers = [reader.get(4), reader.get(3), reader.get(0)];
    alike(
        &rt,
        (stops, numbers, reader.place()),
        (
            [Err(ZeroStop::Ended), Err(ZeroStop::TooMany)],
            [Err(Ended), Ok(0), Ok(0)],
            8,
        ),
    );
}

#[test]
fn words_of_a_code(rt: HostRuntime) {
    let mut reader = BitReader::new(&[0x8a, 0xbc, 0xde, 0xf0, 0x12, 0, 0, 0, 0, 0, 0, 0, 0x34]);
    let words = [reader.get(4), reader.get(32)];
    alike(&rt, words, [Ok(8), Ok(0xabcd_ef01)]);
    let zeros = [
        reader.zeros(1),
        reader.zeros(2),
        reader.zeros(58),
        reader.zeros(59),
    ];
    let stop = Err(ZeroStop::TooMany);
    alike(&rt, zeros, [stop, Ok(2), stop, Ok(59)]);
    let last = reader.get(5);
    alike(
        &rt,
        (last, reader.place(), reader.zeros(9)),
        (Ok(0x14), 104, Err(ZeroStop::Ended)),
    );
}

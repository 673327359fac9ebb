//! Images that are too large to be held: a source that is zeros after its header.
ghost use Rattle.std.specs.Prelude.{ℕ, ◌≡◌, ◌≤◌, ◌^◌, Some, None, if◌then◌else◌};
ghost use Rattle.std.specs.Option.{ForSome};
ghost use Rattle.fz_base.specs.Counts.{uncounted};

use crate::tests::alike::holds;
use crate::tests::files::{fill_block, put_header};
use crate::tests::small::EMPTY_PRIMARY;
use crate::words::command;
use fz_app::run;
use fz_base::{Failed, FreeGate, MemSink, MemText, Meter, Source};
use std::alloc::{AllocError, Global};
use std::test::Fail;
use std::thread::Threads;

/// Bytes, and after them zeros up to a length. Its calls never fail.
#[derive(Drop)]
struct HollowSource {
    front: Vec<u8>,
    len: u64,
    attached: Option<u64>,
    ghost near: { ForSome attached (λ n. n ≤ 2 ^ 62) },
}

impl Source for HollowSource {
    ghost held = { λ _. None };

    ghost ranges = { λ _. None };

    ghost attached = { λ s. s.attached };

    ghost tally = { λ _. uncounted };

    fn attach(&mut self, _name: &str) -> Result<u64, Failed> {
        let len = self.len.min(1 << 62);
        self.attached = Some(len);
        Ok(len)
    }

    fn read_at(&mut self, at: u64, into: &mut [u8]) -> Result<(), Failed> {
        into.fill(0);
        let front = self.front.as_slice();
        if at < front.len() as u64 {
            let front = &front[at as usize..];
            let len = front.len().min(into.len());
            into[..len].copy_from_slice(&front[..len]);
        }
        Ok(())
    }

    ghost agrees = { λ _ _ _. tt };

    ghost near = { λ s n e. s.near n e };

    ghost octets = { λ _. tt };
}

/// What a run left in the text and in the sink.
#[derive(Drop)]
struct Left {
    text: MemText,
    sink: MemSink,
}

/// Runs the words over an image of zeros with these cards and so many bytes of data.
fn outcome_of<R: Threads + Sync + AllocGlobal>(
    rt: &R,
    words: &str,
    cards: &[&str],
    data_len: u64,
) -> Result<Left, AllocError> {
    let alloc = rt.alloc();
    let words = command(alloc, words)?;
    let mut front = Vec::new(alloc);
    put_header(&mut front, cards)?;
    let len = (front.len() as u64).saturating_add(data_len);
    let blocks = len.div_ceil(2880);
    let mut source = HollowSource {
        front,
        len: blocks.saturating_mul(2880),
        attached: None,
    };
    let mut sink = MemSink::new(alloc, Vec::new(alloc), 0);
    let mut text = MemText::new(alloc, Vec::new(alloc));
    let mut meter = Meter::new(alloc, 1 << 40);
    let _status = run(
        rt,
        alloc,
        &words,
        &mut source,
        &mut sink,
        &mut text,
        &FreeGate,
        &mut meter,
    );
    Ok(Left { text, sink })
}

/// An image of one pixel more than a tile may have.
static LONG_ROW: [&str; 4] = [
    "SIMPLE  =                    T",
    "BITPIX  =                    8",
    "NAXIS   =                    1",
    "NAXIS1  =             67108865",
];

// Its one row is too long for a tile, and so is a tile that is asked for with as many pixels.
#[test]
fn tile_past_its_most_pixels_is_refused(rt: HostRuntime) -> Result<(), Fail> {
    for words in [
        "pack --codec=rice IN OUT",
        "pack --tile=67108865 IN OUT",
        "pack --tile=2147483647 IN OUT",
    ] {
        let left = outcome_of(&rt, words, &LONG_ROW, 67_108_865)?;
        let is_refused = left.text.contents() == b"refused: 11 Limit hdu 0 card 2\n".as_slice();
        holds(&rt, is_refused && left.sink.contents().is_empty());
    }
    Ok(())
}

/// An image of 2^31 bytes.
static LARGE: [&str; 4] = [
    "SIMPLE  =                    T",
    "BITPIX  =                   32",
    "NAXIS   =                    1",
    "NAXIS1  =            536870912",
];

/// Its table: the descriptors have 64 bits.
static LARGE_TABLE: [&str; 23] = [
    "XTENSION= 'BINTABLE'",
    "BITPIX  =                    8",
    "NAXIS   =                    2",
    "NAXIS1  =                   32",
    "NAXIS2  =                  512",
    "PCOUNT  =                12800",
    "GCOUNT  =                    1",
    "TFIELDS =                    2",
    "TTYPE1  = 'COMPRESSED_DATA'",
    "TFORM1  = '1QB(25) '",
    "TTYPE2  = 'UNCOMPRESSED_DATA'",
    "TFORM2  = '1QJ(0)  '",
    "ZIMAGE  =                    T",
    "ZCMPTYPE= 'RICE_1  '",
    "ZTILE1  =              1048576",
    "ZNAME1  = 'BLOCKSIZE'",
    "ZVAL1   =                32767",
    "ZNAME2  = 'BYTEPIX '",
    "ZVAL2   =                    4",
    "ZSIMPLE =                    T",
    "ZBITPIX =                   32",
    "ZNAXIS  =                    1",
    "ZNAXIS1 =            536870912",
];

/// Its packed file: the code of a tile is its first pixel and the ids of 33 blocks, of 5 bits each.
fn large_packed(alloc: Global) -> Result<Vec<u8>, AllocError> {
    let mut file = Vec::new(alloc);
    put_header(&mut file, &EMPTY_PRIMARY)?;
    put_header(&mut file, &LARGE_TABLE)?;
    for row in 0..512u64 {
        for number in [25, 25 * row, 0, 0] {
            file.extend_from_slice(&number.to_be_bytes())?;
        }
    }
    file.resize(file.len() + 12800, 0)?;
    fill_block(&mut file, 0)?;
    Ok(file)
}

#[test]
fn image_of_two_gigabytes_has_descriptors_of_64_bits(rt: HostRuntime) -> Result<(), Fail> {
    let words = "pack --tile=1048576 --block=32767 --workers=4 IN OUT";
    let left = outcome_of(&rt, words, &LARGE, 1 << 31)?;
    let packed = large_packed(rt.alloc())?;
    let is_made = left.sink.contents() == packed.as_slice();
    holds(&rt, left.text.contents().is_empty() && is_made);
    Ok(())
}

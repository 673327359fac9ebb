//! Rows of tiles and records that were worked out by hand.
ghost use Rattle.std.specs.Prelude.{◌≡◌, ◌≤◌, length, All, pos};
ghost use Rattle.fz_bits.specs.Numbers.{IsNumber};
ghost use Rattle.fz_tile.specs.Codecs.{CanWrite};

use crate::asserts::alike;
use fz_tile::{
    Codec, Coded, Place2, TileFault, column_law, decode_tile, encode_tile, one_fault_law,
    one_record_law, plain_law, plain_len, read_pixels, read_plain, slice_law, tile_code_law,
    write_pixels, write_plain,
};
use std::process::Abort;

#[test]
fn pixels(rt: HostRuntime) {
    static CASES: [([u8; 2], i32); 8] = [
        ([0x00, 0x00], 0),
        ([0x00, 0x01], 1),
        ([0x00, 0xFF], 255),
        ([0x01, 0x02], 258),
        ([0x7F, 0xFF], 32_767),
        ([0x80, 0x00], -32_768),
        ([0xFF, 0x00], -256),
        ([0xFF, 0xFF], -1),
    ];
    let mut bytes = [0; 16];
    let mut values = [0; 8];
    for (i, (stored, value)) in CASES.iter().enumerate() {
        bytes[2 * i..2 * i + 2].copy_from_slice(stored);
        values[i] = *value;
    }
    let mut numbers = [7; 8];
    read_pixels(&bytes, &mut numbers);
    alike(&rt, numbers, values);
    let mut written = [7; 16];
    write_pixels(&numbers, &mut written);
    alike(&rt, written, bytes);
}

/// RICE_1 in blocks of 32.
const fn rice(bytepix: u32) -> Codec
    ensures { result ≡ Codec.Rice 32 bytepix }
{
    Codec::Rice { block: 32, bytepix }
}

/// Encodes a tile of 16 bits, and compares its place and its bytes.
fn expect_bytes(rt: &impl Abort, codec: Codec, numbers: &[i32], place: Place2, bytes: &[u8])
    requires codec { CanWrite codec (pos 16) }
    requires some { 1 ≤ length numbers.now }
    requires few { length numbers.now ≤ 40 }
    requires pixels { All (IsNumber 16) numbers.now }
{
    let mut out = [0xa5; 400];
    let coded = encode_tile(codec, 16, numbers, &mut out);
    alike(
        rt,
        (coded.place, &out[..coded.len as usize]),
        (place, bytes),
    );
}

#[test]
fn tiles_of_16_bits(rt: HostRuntime) {
    expect_bytes(
        &rt,
        rice(2),
        &[0, 1, 0, 1],
        Place2::Coded,
        &[0x00, 0x00, 0x19, 0x48],
    );
    expect_bytes(
        &rt,
        rice(2),
        &[1000, 1000, 1003],
        Place2::Coded,
        &[0x03, 0xe8, 0x1c, 0x08],
    );
    // The code is 00 00 F0 00 0F FF F0, longer than the plain bytes.
    expect_bytes(
        &rt,
        rice(2),
        &[0, -32768],
        Place2::Stored,
        &[0x00, 0x00, 0x80, 0x00],
    );
    // The list has 22 bytes.
    expect_bytes(
        &rt,
        Codec::Plio,
        &[0, 0, 5, 5, 0],
        Place2::Stored,
        &[0, 0, 0, 0, 0, 5, 0, 5, 0, 0],
    );
    // No list can hold -1.
    expect_bytes(
        &rt,
        Codec::Plio,
        &[3, -1],
        Place2::Stored,
        &[0x00, 0x03, 0xff, 0xff],
    );
    // 20 times 5: nine words against 40 plain bytes.
    expect_bytes(
        &rt,
        Codec::Plio,
        &[5, 5, 5, 5, 5, 5, 5, 5, 5, 5, 5, 5, 5, 5, 5, 5, 5, 5, 5, 5],
        Place2::Coded,
        &[
            0, 0, 0, 7, 0xff, 0x9c, 0, 9, 0, 0, 0, 0, 0, 0, 0x20, 0x04, 0x40, 0x14,
        ],
    );
    expect_bytes(&rt, Codec::Plain, &[258], Place2::Stored, &[0x01, 0x02]);
}

/// A run of pixels of each size, its plain bytes, and its places again.
#[test]
fn runs_of_plain_bytes(rt: HostRuntime) {
    let lens = [
        plain_len(8, 3),
        plain_len(16, 3),
        plain_len(32, 3),
        plain_len(64, 1 << 40),
    ];
    alike(&rt, lens, [3, 6, 12, 1 << 43]);
    let bytes = [0xff, 0xff, 0xff, 0x38, 0x00, 0x00, 0x00, 0x05];
    let mut numbers = [7; 8];
    read_plain(8, &bytes, &mut numbers);
    alike(&rt, numbers, [255, 255, 255, 56, 0, 0, 0, 5]);
    read_plain(16, &bytes, &mut numbers[..4]);
    alike(&rt, &numbers[..4], [-1, -200, 0, 5].as_slice());
    let (mut words, mut longs) = ([7; 2], [7; 2]);
    read_plain(32, &bytes, &mut words);
    // -858993459195 is -200 times 2^32 and 5.
    read_plain(64, &bytes, &mut longs);
    alike(&rt, (words, longs), ([-200, 5], [-200, 5]));
    let (mut octets, mut pairs) = ([0xa5; 2], [0xa5; 4]);
    write_plain(8, &[255, 0], &mut octets);
    write_plain(16, &[-200, 5], &mut pairs);
    let mut out = [0xa5; 8];
    write_plain(32, &[-200, 5], &mut out);
    alike(
        &rt,
        (octets, pairs, out),
        ([0xff, 0x00], [0xff, 0x38, 0x00, 0x05], bytes),
    );
    let none: &mut [i32] = &mut [];
    read_plain(64, &[], none);
}

#[test]
fn tiles_of_8_bits(rt: HostRuntime) {
    let mut out = [0xa5; 88];
    let stored = encode_tile(rice(1), 8, &[7], &mut out);
    let first = out[0];
    let coded = encode_tile(rice(1), 8, &[7, 7, 7], &mut out);
    let (one, two) = (
        Coded {
            place: Place2::Stored,
            len: 1,
        },
        Coded {
            place: Place2::Coded,
            len: 2,
        },
    );
    alike(
        &rt,
        (stored, first, coded, &out[..2]),
        (one, 0x07, two, [0x07, 0x00].as_slice()),
    );
}

#[test]
fn tile_of_32_bits(rt: HostRuntime) {
    let mut out = [0xa5; 96];
    let coded = encode_tile(rice(4), 32, &[5, 5, 5, 5], &mut out);
    alike(
        &rt,
        (coded.place, coded.len, &out[..5]),
        (Place2::Coded, 5, [0x00, 0x00, 0x00, 0x05, 0x00].as_slice()),
    );
}

#[test]
fn tile_of_64_bits(rt: HostRuntime) {
    // 1099511627776 and -1, each as two halves
    let pixels = [256, 0, -1, -1];
    let bytes = [
        0x00, 0x00, 0x01, 0x00, 0x00, 0x00, 0x00, 0x00, 0xff, 0xff, 0xff, 0xff, 0xff, 0xff, 0xff,
        0xff,
    ];
    let mut out = [0xa5; 80];
    let coded = encode_tile(Codec::Plain, 64, &pixels, &mut out);
    alike(
        &rt,
        (coded.place, coded.len, &out[..16]),
        (Place2::Stored, 16, bytes.as_slice()),
    );
    let mut numbers = [7; 4];
    let read = decode_tile(Codec::Plain, 64, Place2::Stored, &bytes, 16, &mut numbers);
    let back = numbers;
    let cut = decode_tile(
        Codec::Plain,
        64,
        Place2::Stored,
        &bytes[..8],
        8,
        &mut numbers,
    );
    alike(
        &rt,
        (read, back, cut),
        (Ok(()), pixels, Err(TileFault::TileSize)),
    );
}

#[test]
fn codes_of_rice(rt: HostRuntime) {
    let mut numbers = [7; 3];
    let code = [0x03, 0xe8, 0x1c, 0x08];
    let read = decode_tile(rice(2), 16, Place2::Coded, &code, 4, &mut numbers);
    let back = numbers;
    let narrow = decode_tile(rice(2), 8, Place2::Coded, &code, 4, &mut numbers);
    alike(
        &rt,
        (read, back, narrow),
        (Ok(()), [1000, 1000, 1003], Err(TileFault::PixelRange)),
    );

    let mut numbers = [7; 4];
    let code = [0x00, 0x00, 0x00, 0x05, 0x00];
    let read = decode_tile(rice(4), 32, Place2::Coded, &code, 5, &mut numbers);
    let fives = numbers;
    let code = [0x00, 0x00, 0x00, 0x05, 0xd8];
    let unlawful = decode_tile(rice(4), 32, Place2::Coded, &code, 5, &mut numbers);
    alike(
        &rt,
        (read, fives, unlawful),
        (Ok(()), [5; 4], Err(TileFault::CodeValue)),
    );
    let code = [0x7f, 0x00, 0x19, 0x48];
    let read = decode_tile(rice(2), 16, Place2::Coded, &code, 4, &mut numbers);
    let back = numbers;
    let short = decode_tile(rice(2), 16, Place2::Coded, &code[..2], 2, &mut numbers);
    alike(
        &rt,
        (read, back, short),
        (
            Ok(()),
            [32512, 32513, 32512, 32513],
            Err(TileFault::CodeShort),
        ),
    );
}

#[test]
fn records_longer_than_what_is_read(rt: HostRuntime) {
    // 1000, 1000, 1003 at 32 bits
    let mut record = [0; 88];
    record[..6].copy_from_slice(&[0x00, 0x00, 0x03, 0xe8, 0x0e, 0x04]);
    let mut numbers = [7; 3];
    let read = decode_tile(rice(4), 16, Place2::Coded, &record, 1_000_006, &mut numbers);
    alike(&rt, (read, numbers), (Ok(()), [1000, 1000, 1003]));
    // id 1, and zeros without an end
    record[4] = 0x08;
    record[5] = 0x00;
    let cut = decode_tile(rice(4), 16, Place2::Coded, &record, 88, &mut numbers);
    let longer = decode_tile(rice(4), 16, Place2::Coded, &record, 89, &mut numbers);
    alike(
        &rt,
        (cut, longer),
        (Err(TileFault::CodeShort), Err(TileFault::CodeValue)),
    );
}

#[test]
fn plain_bytes(rt: HostRuntime) {
    let mut numbers = [7; 1];
    let read = decode_tile(rice(1), 8, Place2::Stored, &[0xc8], 1, &mut numbers);
    alike(&rt, (read, numbers), (Ok(()), [200]));
    let read = decode_tile(
        Codec::Plain,
        16,
        Place2::Coded,
        &[0xff, 0x38],
        2,
        &mut numbers,
    );
    alike(&rt, (read, numbers), (Ok(()), [-200]));
    let bytes = [0xff, 0xff, 0xff, 0x38];
    let read = decode_tile(Codec::Plio, 32, Place2::Stored, &bytes, 4, &mut numbers);
    alike(&rt, (read, numbers), (Ok(()), [-200]));
}

#[test]
fn plain_bytes_of_other_sizes(rt: HostRuntime) {
    let mut numbers = [7; 1];
    let bytes = [0xff, 0xff, 0xff, 0x38];
    let of_octets = decode_tile(Codec::Plain, 8, Place2::Stored, &bytes, 4, &mut numbers);
    let of_pairs = decode_tile(rice(2), 16, Place2::Stored, &bytes, 4, &mut numbers);
    let shorter = decode_tile(
        Codec::Plain,
        32,
        Place2::Coded,
        &bytes[..3],
        3,
        &mut numbers,
    );
    alike(
        &rt,
        [of_octets, of_pairs, shorter],
        [Err(TileFault::TileSize); 3],
    );
}

#[test]
fn lists_of_plio(rt: HostRuntime) {
    let mut numbers = [7; 3];
    let mut list = [0, 0, 0, 7, 0xff, 0x9c, 0, 8, 0, 0, 0, 0, 0, 0, 0x40, 0x02];
    let read = decode_tile(Codec::Plio, 16, Place2::Coded, &list, 16, &mut numbers);
    let back = numbers;
    list[15] = 0x04;
    let past = decode_tile(Codec::Plio, 16, Place2::Coded, &list, 16, &mut numbers);
    alike(
        &rt,
        (read, back, past),
        (Ok(()), [1, 1, 0], Err(TileFault::LineList)),
    );
}

#[test]
fn long_records_of_plio(rt: HostRuntime) {
    // the high value 300, twice
    let mut record = [0; 88];
    record[..18].copy_from_slice(&[
        0, 0, 0, 7, 0xff, 0x9c, 0, 9, 0, 0, 0, 0, 0, 0, 0x21, 0x2b, 0x40, 0x02,
    ]);
    let mut numbers = [7; 3];
    // 1001 is odd, but of the record an even number of bytes is read.
    let read = decode_tile(Codec::Plio, 16, Place2::Coded, &record, 1001, &mut numbers);
    let back = numbers;
    let narrow = decode_tile(Codec::Plio, 8, Place2::Coded, &record, 1001, &mut numbers);
    alike(
        &rt,
        (read, back, narrow),
        (Ok(()), [300, 300, 0], Err(TileFault::PixelRange)),
    );
}

#[test]
fn laws() {
    one_record_law();
    one_fault_law();
    tile_code_law();
    column_law();
    plain_law();
    slice_law();
}

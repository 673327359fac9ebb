//! Rows worked out outside of the crate, and byte lists that are added in pieces.
ghost use Rattle.std.specs.Prelude.{◌≡◌, ◌+◌, ◌<◌, ◌^◌, length};

use crate::asserts::alike;
use crate::random::next_word;
use fz_card::{Card, Name, int_card, text_card};
use fz_sum::{
    Sum, Verdict, blank_checksum_card, characters, checksum_card, checksum_verdict, datasum_card,
    datasum_verdict, sum_of_card, sum_of_text, verdict,
};
use std::process::Abort;

/// The sum of a list that is added at once, at this position.
fn sum_of(at: u64, bytes: &[u8]) -> u32
    requires { length bytes.now < 2 ^ 63 }
{
    let mut sum = Sum::new();
    sum.add(at, bytes);
    sum.value()
}

/// The sum of a list at this position that is cut after so many bytes, if what is after the cut is added first.
fn sum_from_behind(at: u32, bytes: &[u8], len: usize) -> u32
    requires { length bytes.now < 2 ^ 63 }
{
    let (front, rest) = bytes.split_at(len.min(bytes.len()));
    let at = u64::from(at);
    let mut sum = Sum::new();
    sum.add(at + front.len() as u64, rest);
    sum.add(at, front);
    sum.value()
}

#[test]
fn sums(rt: HostRuntime) {
    static CASES: [(u64, &[u8], u32); 13] = [
        (0, &[], 0),
        (0, &[0, 0, 0, 0, 0], 0),
        (0, &[0xff, 0xff, 0xff, 0xff], 4_294_967_295),
        (0, &[0xff, 0xff, 0xff, 0xff, 0, 0, 0, 1], 1),
        (0, &[0, 0, 0, 1, 0xff, 0xff, 0xff, 0xff], 1),
        (0, &[1], 0x0100_0000),
        (0, &[1, 2, 3, 4, 5, 6, 7], 0x0608_0a04),
        (0, &[0x80, 0, 0, 0, 0x80, 0, 0, 0], 1),
        (2, &[1, 2, 3], 0x0300_0102),
        (3, &[0xff, 0xff], 0xff00_00ff),
        (5, &[1], 0x0001_0000),
        (7, &[1, 2, 3, 4, 5], 0x0203_0406),
        (u64::MAX, &[1, 2], 0x0200_0001),
    ];
    for &(at, bytes, sum) in &CASES {
        alike(&rt, sum_of(at, bytes), sum);
    }
}

#[test]
fn sums_from_behind(rt: HostRuntime) {
    static CASES: [(u32, &[u8], usize, u32); 7] = [
        (0, &[1, 2, 3, 4, 5, 6, 7], 3, 0x0608_0a04),
        (0, &[1, 2, 3, 4, 5, 6, 7], 4, 0x0608_0a04),
        (0, &[1, 2, 3, 4, 5, 6, 7], 5, 0x0608_0a04),
        (2, &[1, 2, 3], 1, 0x0300_0102),
        (2, &[1, 2, 3], 2, 0x0300_0102),
        (1, &[0xff, 0xff, 0xff, 0xff, 0xff], 2, 0x00ff_0000),
        (0, &[0xff, 0xff, 0xff, 0xff, 0, 0, 0, 1], 7, 1),
    ];
    for &(at, bytes, len, sum) in &CASES {
        alike(&rt, sum_from_behind(at, bytes, len), sum);
    }
}

#[test]
fn characters_of_sums(rt: HostRuntime) {
    static CASES: [(u32, [u8; 16]); 3] = [
        (868_229_149, *b"hcHjjc9ghcEghc9g"),
        (4_294_967_295, *b"0000000000000000"),
        (0, *b"orrrrooooooooooo"),
    ];
    for &(sum, text) in &CASES {
        alike(&rt, characters(sum), text);
    }
}

/// Compares the front of a card, after which it is blank.
fn expect_card(rt: &impl Abort, card: Card, text: &[u8]) {
    let (front, rest) = card.bytes.split_at(30);
    alike(rt, front, text);
    assert!(rt; rest.iter().all(|byte| *byte == b' '));
}

#[test]
fn cards(rt: HostRuntime) {
    expect_card(&rt, datasum_card(0), b"DATASUM = '0       '          ");
    expect_card(
        &rt,
        datasum_card(546_730_044),
        b"DATASUM = '546730044'         ",
    );
    expect_card(
        &rt,
        datasum_card(4_294_967_295),
        b"DATASUM = '4294967295'        ",
    );
    expect_card(
        &rt,
        checksum_card(868_229_149),
        b"CHECKSUM= 'hcHjjc9ghcEghc9g'  ",
    );
    expect_card(
        &rt,
        blank_checksum_card(),
        b"CHECKSUM= '0000000000000000'  ",
    );
    alike(
        &rt,
        sum_of_card(&datasum_card(546_730_044)),
        Some(546_730_044),
    );
}

#[test]
fn texts(rt: HostRuntime) {
    static CASES: [(&[u8], Option<u32>); 15] = [
        (b"0", Some(0)),
        (b"         0", Some(0)),
        (b"0000000546730044", Some(546_730_044)),
        (
            b"00000000000000000000000000000000000000000004294967295",
            Some(4_294_967_295),
        ),
        (b"4294967295", Some(4_294_967_295)),
        (b"4294967296", None),
        (b"99999999999", None),
        (b"12a", None),
        (b"-1", None),
        (b"+1", None),
        (b"1 2", None),
        (b"1 ", None),
        (b"\t1", None),
        (b" ", None),
        (b"", None),
    ];
    for &(text, sum) in &CASES {
        alike(&rt, sum_of_text(text), sum);
    }
}

#[test]
fn verdicts(rt: HostRuntime) {
    let padded = text_card(Name::DATASUM, b"         0");
    let empty = text_card(Name::DATASUM, b"");
    let number = int_card(Name::DATASUM, 0);
    let odd = text_card(Name::DATASUM, b"12a");
    let cases: [(Option<&Card>, bool, Verdict); 9] = [
        (None, true, Verdict::Absent),
        (None, false, Verdict::Absent),
        (Some(&empty), true, Verdict::Absent),
        (Some(&empty), false, Verdict::Absent),
        (Some(&number), true, Verdict::Absent),
        (Some(&number), false, Verdict::Absent),
        (Some(&padded), true, Verdict::Right),
        (Some(&padded), false, Verdict::Wrong),
        (Some(&odd), false, Verdict::Wrong),
    ];
    for (card, right, answer) in cases {
        alike(&rt, verdict(card, right), answer);
    }
    let sums = [
        sum_of_card(&padded),
        sum_of_card(&empty),
        sum_of_card(&number),
        sum_of_card(&odd),
    ];
    alike(&rt, sums, [Some(0), None, None, None]);
}

#[test]
fn verdicts_by_headers(rt: HostRuntime) {
    let mut buf = [b' '; 320];
    let cards = [blank_checksum_card(), datasum_card(7), datasum_card(8)];
    for (i, card) in cards.into_iter().enumerate() {
        buf[80 * i..80 * (i + 1)].copy_from_slice(&card.bytes);
    }
    static CASES: [(u32, u32, Verdict, Verdict); 5] = [
        (0, u32::MAX, Verdict::Absent, Verdict::Absent),
        (1, 7, Verdict::Absent, Verdict::Wrong),
        (2, 7, Verdict::Right, Verdict::Wrong),
        (4, 7, Verdict::Right, Verdict::Wrong),
        (4, u32::MAX, Verdict::Wrong, Verdict::Right),
    ];
    for &(cards, sum, datasum, checksum) in &CASES {
        let found = (
            datasum_verdict(&buf, cards, sum),
            checksum_verdict(&buf, cards, sum),
        );
        alike(&rt, found, (datasum, checksum));
    }
    alike(&rt, datasum_verdict(&buf, 4, 8), Verdict::Wrong);
}

/// Random bytes from a seed.
fn fill(bytes: &mut [u8], seed: u32) {
    let mut word = seed;
    for byte in bytes.iter_mut() {
        word = next_word(word);
        *byte = word.to_be_bytes()[1];
    }
}

/// Adds a list whole, or cuts it at a random place and adds one part and then the other in the same way.
fn add_in_pieces(sum: &mut Sum, at: u64, bytes: &[u8], word: u32)
    requires count { sum.old.count + length bytes.now < 2 ^ 63 }
    requires place { at + length bytes.now < 2 ^ 63 }
    ensures { sum.new.count ≡ sum.old.count + length bytes.now }
{
    if bytes.len() < 2 || word & 7 == 0 {
        sum.add(at, bytes);
        return;
    }
    let len = 1 + (word >> 8) as usize % (bytes.len() - 1);
    let (front, rest) = bytes.split_at(len);
    let behind = at + len as u64;
    if word & 8 == 0 {
        add_in_pieces(sum, at, front, next_word(word));
        add_in_pieces(sum, behind, rest, next_word(word ^ 0x5bd1_e995));
    } else {
        add_in_pieces(sum, behind, rest, next_word(word));
        add_in_pieces(sum, at, front, next_word(word ^ 0x5bd1_e995));
    }
}

#[test]
fn pieces(rt: HostRuntime) {
    let mut bytes = [0u8; 256];
    let mut word = 2_463_534_242;
    for _ in 0..1000 {
        word = next_word(word);
        fill(&mut bytes, word);
        let list = &bytes[..(word >> 24) as usize];
        let at = u64::from(word & 0xff);
        let mut whole = Sum::new();
        whole.add(at, list);
        let mut cut = Sum::new();
        add_in_pieces(&mut cut, at, list, word);
        alike(&rt, cut.value(), whole.value());
    }
}

#[test]
fn all_ones(rt: HostRuntime) {
    let mut hdu = [0u8; 5760];
    for (i, seed) in [1, 77, 4_000_000_000].into_iter().enumerate() {
        fill(&mut hdu, seed);
        let at = 80 * (5 + i);
        hdu[at..at + 80].copy_from_slice(&blank_checksum_card().bytes);
        let sum = sum_of(0, &hdu);
        hdu[at..at + 80].copy_from_slice(&checksum_card(sum).bytes);
        alike(&rt, sum_of(0, &hdu), u32::MAX);
    }
}

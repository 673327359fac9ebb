//! Rows of shifted decimals.
use crate::asserts::alike;
use fz_card::{Card, shift};

/// The card CRPIX1 with this text in its value field.
fn crpix(field: &[u8]) -> Card {
    let mut bytes = [b' '; 80];
    bytes[..10].copy_from_slice(b"CRPIX1  = ");
    let len = field.len().min(70);
    bytes[10..10 + len].copy_from_slice(&field[..len]);
    Card { bytes }
}

#[test]
fn shifted(rt: HostRuntime) {
    static CASES: [(&[u8], u32, Option<&[u8]>); 24] = [
        (b"1024.5", 32, Some(b"               992.5")),
        (b"1.0245E+03", 32, Some(b"               992.5")),
        (b"10", 12, Some(b"                  -2")),
        (b"0.25", 1, Some(b"               -0.75")),
        (b"-.5", 1, Some(b"                -1.5")),
        (b"1E3", 1000, Some(b"                   0")),
        (b"5.0D-1", 2, Some(b"               -1.50")),
        (b"1234567890123456789", 1, None),
        (b"1.0E+10", 1, None),
        (b"'10'", 1, None),
        (
            b"              3.0 / pixel",
            1,
            Some(b"                 2.0"),
        ),
        (b"+2.", 1, Some(b"                   1")),
        (b"-0.0", 0, Some(b"                 0.0")),
        (b"1E009", 1, Some(b"           999999999")),
        (b"1E0009", 1, None),
        (b"1E", 1, None),
        (b"E1", 1, None),
        (b".", 1, None),
        (b"1.2.3", 1, None),
        (b".-5", 1, None),
        (b"1e3", 1, None),
        (b"", 1, None),
        (
            b".000000000000000001E-9",
            4_294_967_295,
            Some(b"-4294967294.999999999999999999999999999"),
        ),
        (
            b"999999999999999999E9",
            1,
            Some(b"999999999999999998999999999"),
        ),
    ];
    for &(field, by, text) in &CASES {
        alike(
            &rt,
            shift(&crpix(field), by),
            text.map(|text: &[u8]| crpix(text)),
        );
    }
}

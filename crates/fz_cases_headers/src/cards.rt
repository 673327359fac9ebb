//! One table of cases for each public call.
use crate::asserts::alike;
use fz_card::{
    Card, FIELD_LEN, Line, Name, first_of_name, int_card, integer, is_numbered, logical_card,
    number_behind, number_card, numbered, text_card, whole_number, without_first_blanks,
};

/// A card that begins with this text and is blank after it.
pub(crate) fn card(text: &[u8]) -> Card {
    let mut bytes = [b' '; 80];
    let len = text.len().min(80);
    bytes[..len].copy_from_slice(&text[..len]);
    Card { bytes }
}

#[test]
fn names(rt: HostRuntime) {
    static CASES: [(&[u8], Name); 4] = [
        (b"SIMPLE  =                    T", Name::SIMPLE),
        (b"ZDITHER0=                    1", Name::ZDITHER0),
        (b"END", Name::END),
        (
            b"NAXIS1  =",
            Name {
                bytes: *b"NAXIS1  ",
            },
        ),
    ];
    for &(text, name) in &CASES {
        alike(&rt, card(text).name(), name);
    }
    assert!(rt; card(b"ENDS").name() != Name::END);
}

#[test]
fn first_cards(rt: HostRuntime) {
    let first = card(b"DATASUM = '1'");
    let other = card(b"CHECKSUM= '2'");
    let second = card(b"DATASUM = '3'");
    let mut buf = [b' '; 320];
    for (i, made) in [other, first, second].into_iter().enumerate() {
        buf[80 * i..80 * (i + 1)].copy_from_slice(&made.bytes);
    }
    alike(&rt, first_of_name(&buf, 4, Name::DATASUM), Some(first));
    alike(&rt, first_of_name(&buf, 1, Name::DATASUM), None);
    alike(&rt, first_of_name(&buf, 4, Name::END), None);
}

#[test]
fn integers(rt: HostRuntime) {
    static CASES: [(&[u8], Option<i64>); 34] = [
        (b"BITPIX  =                   16", Some(16)),
        (b"BITPIX  =                  -32 / bits", Some(-32)),
        (b"NAXIS   = 2", Some(2)),
        (b"NAXIS   =  2/axes", Some(2)),
        (b"NAXIS   = 016", Some(16)),
        (b"NAXIS   = -0", Some(0)),
        (b"NAXIS   = +7", Some(7)),
        (b"NAXIS   = 2 /", Some(2)),
        (b"NAXIS   = 2 / 3 / 4", Some(2)),
        (
            b"NAXIS   = 999999999999999999",
            Some(999_999_999_999_999_999),
        ),
        (
            b"NAXIS   = -999999999999999999",
            Some(-999_999_999_999_999_999),
        ),
        (b"NAXIS   = 000000000000000001", Some(1)),
        (
            b"NAXIS   =                                                                     12",
            Some(12),
        ),
        (b"NAXIS   = 1000000000000000000", None),
        (b"NAXIS   = 0000000000000000001", None),
        (b"NAXIS   = -1000000000000000000", None),
        (b"NAXIS   = \t2", None),
        (b"NAXIS   = 2\t", None),
        (b"NAXIS   =2", None),
        (b"NAXIS    = 2", None),
        (b"NAXIS     2", None),
        (b"NAXIS   =\t2", None),
        (b"NAXIS   = 2 3", None),
        (b"NAXIS   = + 2", None),
        (b"NAXIS   = 2.", None),
        (b"NAXIS   = 2E1", None),
        (b"NAXIS   = T", None),
        (b"NAXIS   = '2'", None),
        (b"NAXIS   = +", None),
        (b"NAXIS   = -+2", None),
        (b"NAXIS   = ", None),
        (b"NAXIS   = / 2", None),
        (b"NAXIS   = 2\x00", None),
        (b"NAXIS   = \xb2", None),
    ];
    for &(text, value) in &CASES {
        alike(&rt, card(text).int(), value);
    }
}

#[test]
fn integer_texts(rt: HostRuntime) {
    static CASES: [(&[u8], Option<i64>); 6] = [
        (b"-0032", Some(-32)),
        (b"+999999999999999999", Some(999_999_999_999_999_999)),
        (b"1000000000000000000", None),
        (b" 1", None),
        (b"1.", None),
        (b"", None),
    ];
    for &(text, value) in &CASES {
        alike(&rt, integer(text), value);
    }
}

#[test]
fn lines(rt: HostRuntime) {
    let mut line: Line<8> = Line::new();
    alike(&rt, line.bytes(), *b"        ");
    line.push(b"10");
    line.push_blanks(1);
    line.push(b"m");
    alike(
        &rt,
        (line.text(), line.bytes()),
        (b"10 m".as_slice(), *b"10 m    "),
    );
}

#[test]
fn logicals(rt: HostRuntime) {
    static CASES: [(&[u8], Option<bool>); 13] = [
        (b"SIMPLE  =                    T", Some(true)),
        (b"SIMPLE  =                    T / conforms", Some(true)),
        (b"EXTEND  =                    F", Some(false)),
        (b"EXTEND  = F/", Some(false)),
        (b"SIMPLE  =                    T F", None),
        (b"SIMPLE  = TRUE", None),
        (b"SIMPLE  = t", None),
        (b"SIMPLE  = 'T'", None),
        (b"SIMPLE  = 1", None),
        (b"SIMPLE  = ", None),
        (b"SIMPLE  =T", None),
        (b"SIMPLE    T", None),
        (b"SIMPLE  = \tT", None),
    ];
    for &(text, value) in &CASES {
        alike(&rt, card(text).logical(), value);
    }
}

#[test]
fn number_cards(rt: HostRuntime) {
    let cases: [(Card, &[u8]); 6] = [
        (
            number_card(Name::BZERO, b"-0.75"),
            b"BZERO   =                -0.75",
        ),
        (
            number_card(Name::BZERO, b"-123456789012345678901234567.1234567890"),
            b"BZERO   = -123456789012345678901234567.1234567890",
        ),
        (int_card(Name::NAXIS, 2), b"NAXIS   =                    2"),
        (
            int_card(Name::BITPIX, -64),
            b"BITPIX  =                  -64",
        ),
        (
            int_card(Name::PCOUNT, 999_999_999_999_999_999),
            b"PCOUNT  =   999999999999999999",
        ),
        (
            int_card(Name::GCOUNT, -999_999_999_999_999_999),
            b"GCOUNT  =  -999999999999999999",
        ),
    ];
    for (made, text) in cases {
        alike(&rt, made, card(text));
    }
}

#[test]
fn logical_cards(rt: HostRuntime) {
    let cases: [(Card, &[u8]); 2] = [
        (
            logical_card(Name::SIMPLE, true),
            b"SIMPLE  =                    T",
        ),
        (
            logical_card(Name::EXTEND, false),
            b"EXTEND  =                    F",
        ),
    ];
    for (made, text) in cases {
        alike(&rt, made, card(text));
    }
}

#[test]
fn text_cards(rt: HostRuntime) {
    let cases: [(Card, &[u8]); 4] = [
        (text_card(Name::XTENSION, b"IMAGE"), b"XTENSION= 'IMAGE   '"),
        (
            text_card(Name::XTENSION, b"BINTABLE"),
            b"XTENSION= 'BINTABLE'",
        ),
        (
            text_card(Name::ZCMPTYPE, b"NOCOMPRESS"),
            b"ZCMPTYPE= 'NOCOMPRESS'",
        ),
        (text_card(Name::EXTNAME, b""), b"EXTNAME = '        '"),
    ];
    for (made, text) in cases {
        alike(&rt, made, card(text));
    }
}

#[test]
fn numbered_names(rt: HostRuntime) {
    let cases: [(Name, &[u8; 8]); 5] = [
        (numbered(b"NAXIS", 1), b"NAXIS1  "),
        (numbered(b"ZNAXIS", 10), b"ZNAXIS10"),
        (numbered(b"TFORM", 999), b"TFORM999"),
        (numbered(b"", 12345678), b"12345678"),
        (numbered(b"ZVAL", 0), b"ZVAL0   "),
    ];
    for (name, bytes) in cases {
        alike(&rt, name, Name { bytes: *bytes });
    }
}

#[test]
fn numbers_of_names(rt: HostRuntime) {
    static CASES: [(&[u8], &[u8], Option<u32>); 10] = [
        (b"NAXIS12", b"NAXIS", Some(12)),
        (b"TFORM999", b"TFORM", Some(999)),
        (b"12345678", b"", Some(12_345_678)),
        (b"NAXIS", b"NAXIS", None),
        (b"NAXIS0", b"NAXIS", None),
        (b"NAXIS01", b"NAXIS", None),
        (b"NAXIS+1", b"NAXIS", None),
        (b"NAXIS1A", b"NAXIS", None),
        (b"NAXIS 1", b"NAXIS", None),
        (b"ZNAXIS1", b"NAXIS", None),
    ];
    for &(text, stem, number) in &CASES {
        let name = card(text).name();
        let found = (
            number_behind(name, stem),
            is_numbered(name, stem, 999),
            is_numbered(name, stem, 11),
        );
        let is_short = number.is_some_and(|number| number <= 999);
        alike(&rt, found, (number, is_short, false));
    }
}

#[test]
fn value_texts(rt: HostRuntime) {
    static CASES: [(&[u8], Option<&[u8]>); 6] = [
        (b"CRPIX1  =               1024.5 / pixel", Some(b"1024.5")),
        (b"CRPIX1  = 1.0245E+03/", Some(b"1.0245E+03")),
        (b"CRPIX1  = 1 2", Some(b"1 2")),
        (b"CRPIX1  = / none", Some(b"")),
        (b"CRPIX1  =1", None),
        (b"CRPIX1", None),
    ];
    for &(text, value) in &CASES {
        alike(&rt, card(text).value_text(), value);
    }
    let numbers = [whole_number(b"4294967295"), whole_number(b"4294967296")];
    alike(
        &rt,
        (without_first_blanks(b"  1 "), numbers),
        (b"1 ".as_slice(), [Some(u32::MAX), None]),
    );
}

#[test]
fn texts(rt: HostRuntime) {
    static CASES: [(&[u8], Option<&[u8]>); 21] = [
        (
            b"XTENSION= 'IMAGE   '           / extension",
            Some(b"IMAGE"),
        ),
        (b"EXTNAME = 'it''s '", Some(b"it's")),
        (b"EXTNAME = ''", Some(b"")),
        (b"EXTNAME = '    '", Some(b"")),
        (b"EXTNAME = '  a'", Some(b"  a")),
        (b"EXTNAME =      'far' ", Some(b"far")),
        (b"EXTNAME = 'a/b'/c", Some(b"a/b")),
        (b"EXTNAME = ''''", Some(b"'")),
        (b"EXTNAME = ''''''", Some(b"''")),
        (b"EXTNAME = 'a '' '", Some(b"a '")),
        (b"EXTNAME = '\t'", Some(b"\t")),
        (
            b"EXTNAME = '12345678901234567890123456789012345678901234567890123456789012345678'",
            Some(b"12345678901234567890123456789012345678901234567890123456789012345678"),
        ),
        (b"EXTNAME = 'open", None),
        (b"EXTNAME = 'open''", None),
        (b"EXTNAME = 'a' b", None),
        (b"EXTNAME = 'a'b", None),
        (b"EXTNAME = 'a'\t", None),
        (b"EXTNAME = T", None),
        (b"EXTNAME = ", None),
        (b"EXTNAME = / 'a'", None),
        (b"EXTNAME   'a'", None),
    ];
    for &(text, value) in &CASES {
        let mut into = [0u8; FIELD_LEN];
        let len = card(text).text(&mut into);
        alike(&rt, len.map(|len: usize| &into[..len]), value);
        let has = (
            card(text).has_text(value.unwrap_or(b"")),
            card(text).has_text(b"IMAGE "),
        );
        alike(&rt, has, (value.is_some(), false));
    }
}

#[test]
fn zeros(rt: HostRuntime) {
    static CASES: [(&[u8], Option<bool>); 33] = [
        (b"BZERO   = 0", Some(true)),
        (b"BZERO   =                    0 / offset", Some(true)),
        (b"BZERO   = -0.", Some(true)),
        (b"BZERO   = +0", Some(true)),
        (b"BZERO   = .00", Some(true)),
        (b"BZERO   = 000.000/", Some(true)),
        (b"BZERO   = 0E5", Some(true)),
        (b"BZERO   = 0.0D+10", Some(true)),
        (b"BZERO   = 0.E-99999999999999999999", Some(true)),
        (b"BZERO   = 1", Some(false)),
        (b"BZERO   = 32768", Some(false)),
        (b"BZERO   = '0'", Some(false)),
        (b"BZERO   = ''", Some(false)),
        (b"BZERO   = T", Some(false)),
        (b"BZERO   = 0.0.0", Some(false)),
        (b"BZERO   = 0E", Some(false)),
        (b"BZERO   = 0E+", Some(false)),
        (b"BZERO   = 0e5", Some(false)),
        (b"BZERO   = 0E5.", Some(false)),
        (b"BZERO   = 0F5", Some(false)),
        (b"BZERO   = .", Some(false)),
        (b"BZERO   = -", Some(false)),
        (b"BZERO   = E5", Some(false)),
        (b"BZERO   = .E5", Some(false)),
        (b"BZERO   = - 0", Some(false)),
        (b"BZERO   = 0 0", Some(false)),
        (b"BZERO   = 0.01", Some(false)),
        (b"BZERO   = \t", Some(false)),
        (b"BZERO   = ", None),
        (b"BZERO   =           / nothing", None),
        (b"BZERO   =0", None),
        (b"BZERO     0", None),
        (b"BZERO", None),
    ];
    for &(text, value) in &CASES {
        alike(&rt, card(text).zero(), value);
    }
}

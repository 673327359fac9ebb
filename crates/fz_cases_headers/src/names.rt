//! Rows of the tables of names.
ghost use Rattle.std.specs.Prelude.{◌≡◌, false, codes};
ghost use Rattle.fz_card.specs.Naming.{is_dropped, is_reserved};

use crate::asserts::alike;
use crate::cards::card;
use fz_card::{Name, is_dropped, is_reserved, renamed, restored};

/// The name that is this text with blanks after it.
fn name(text: &[u8]) -> Name {
    card(text).name()
}

#[test]
fn names_of_both_headers(rt: HostRuntime) {
    static PAIRS: [(&[u8], &[u8]); 12] = [
        (b"SIMPLE", b"ZSIMPLE"),
        (b"XTENSION", b"ZTENSION"),
        (b"BITPIX", b"ZBITPIX"),
        (b"NAXIS", b"ZNAXIS"),
        (b"NAXIS1", b"ZNAXIS1"),
        (b"NAXIS9", b"ZNAXIS9"),
        (b"EXTEND", b"ZEXTEND"),
        (b"BLOCKED", b"ZBLOCKED"),
        (b"PCOUNT", b"ZPCOUNT"),
        (b"GCOUNT", b"ZGCOUNT"),
        (b"CHECKSUM", b"ZHECKSUM"),
        (b"DATASUM", b"ZDATASUM"),
    ];
    for &(plain, packed) in &PAIRS {
        let (plain, packed) = (name(plain), name(packed));
        let there = (renamed(plain), renamed(packed));
        let back = (restored(packed), restored(plain));
        alike(
            &rt,
            (there, back),
            ((Some(packed), None), (Some(plain), None)),
        );
    }
}

#[test]
fn names_alone(rt: HostRuntime) {
    static CASES: [(&[u8], bool, bool); 35] = [
        (b"NAXIS0", false, false),
        (b"NAXIS01", false, false),
        (b"NAXIS10", true, false),
        (b"NAXIS999", true, false),
        (b"NAXIS+1", false, false),
        (b"NAXIS1A", false, false),
        (b"NAXIS 1", false, false),
        (b"NAXISA", false, false),
        (b"ZNAXIS0", false, false),
        (b"ZNAXIS10", false, true),
        (b"ZNAXIS99", false, true),
        (b"ZNAXIS01", false, false),
        (b"TFIELDS", true, true),
        (b"TTYPE1", true, true),
        (b"TFORM999", true, true),
        (b"TFORM", false, false),
        (b"TFORM0", false, false),
        (b"THEAP", true, true),
        (b"ZIMAGE", true, true),
        (b"ZCMPTYPE", true, true),
        (b"ZTILE3", true, true),
        (b"ZTILE0", false, false),
        (b"ZNAME2", true, true),
        (b"ZVAL999", true, true),
        (b"ZVAL1000", false, false),
        (b"ZBLANK", true, true),
        (b"ZQUANTIZ", true, true),
        (b"ZDITHER0", true, true),
        (b"ZMASKCMP", true, true),
        (b"ZTABLE", false, true),
        (b"ZSCALE", false, true),
        (b"ZZERO", false, true),
        (b"TUNIT1", false, false),
        (b"", false, false),
        (b"EXTNAME", false, false),
    ];
    for &(text, dropped, reserved) in &CASES {
        let name = name(text);
        let is = (is_dropped(name), is_reserved(name));
        let other = (renamed(name), restored(name));
        alike(&rt, (is, other), ((dropped, reserved), (None, None)));
    }
    assert!(rt; is_dropped(Name::CHECKSUM) && !is_reserved(Name::CHECKSUM));
    assert!(rt; !is_dropped(Name::ZHECKSUM) && is_reserved(Name::ZHECKSUM));
}

/// Numbers above the last one of their stem, with which the names have nine bytes, more than a `Name` holds.
fn nine_bytes()
    ensures reserved { is_reserved (codes "ZNAXIS100") ≡ false }
    ensures dropped { is_dropped (codes "TFORM1000") ≡ false }
{}

#[test]
fn names_of_nine_bytes(_rt: HostRuntime) {
    nine_bytes();
}

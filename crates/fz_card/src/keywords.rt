//! The names that the standard gives a meaning (FITS 4.0, sections 4.4, 7.3 and 10).
ghost use Rattle.std.specs.Prelude.{◌≡◌, [], ◌∷◌, map, codes};
ghost use Rattle.fz_card.specs.Layout.{padded};

use crate::card::Name;

impl Name {
    pub const SIMPLE: Name = Name {
        bytes: *b"SIMPLE  ",
    };

    pub const XTENSION: Name = Name {
        bytes: *b"XTENSION",
    };

    pub const BITPIX: Name = Name {
        bytes: *b"BITPIX  ",
    };

    pub const NAXIS: Name = Name {
        bytes: *b"NAXIS   ",
    };

    pub const EXTEND: Name = Name {
        bytes: *b"EXTEND  ",
    };

    pub const BLOCKED: Name = Name {
        bytes: *b"BLOCKED ",
    };

    pub const GROUPS: Name = Name {
        bytes: *b"GROUPS  ",
    };

    pub const PCOUNT: Name = Name {
        bytes: *b"PCOUNT  ",
    };

    pub const GCOUNT: Name = Name {
        bytes: *b"GCOUNT  ",
    };

    pub const BZERO: Name = Name {
        bytes: *b"BZERO   ",
    };

    pub const EXTNAME: Name = Name {
        bytes: *b"EXTNAME ",
    };

    pub const INHERIT: Name = Name {
        bytes: *b"INHERIT ",
    };

    pub const CHECKSUM: Name = Name {
        bytes: *b"CHECKSUM",
    };

    pub const DATASUM: Name = Name {
        bytes: *b"DATASUM ",
    };

    pub const END: Name = Name {
        bytes: *b"END     ",
    };

    pub const TFIELDS: Name = Name {
        bytes: *b"TFIELDS ",
    };

    pub const THEAP: Name = Name {
        bytes: *b"THEAP   ",
    };

    pub const ZIMAGE: Name = Name {
        bytes: *b"ZIMAGE  ",
    };

    pub const ZTABLE: Name = Name {
        bytes: *b"ZTABLE  ",
    };

    pub const ZCMPTYPE: Name = Name {
        bytes: *b"ZCMPTYPE",
    };

    pub const ZBITPIX: Name = Name {
        bytes: *b"ZBITPIX ",
    };

    pub const ZNAXIS: Name = Name {
        bytes: *b"ZNAXIS  ",
    };

    pub const ZSIMPLE: Name = Name {
        bytes: *b"ZSIMPLE ",
    };

    pub const ZTENSION: Name = Name {
        bytes: *b"ZTENSION",
    };

    pub const ZEXTEND: Name = Name {
        bytes: *b"ZEXTEND ",
    };

    pub const ZBLOCKED: Name = Name {
        bytes: *b"ZBLOCKED",
    };

    pub const ZPCOUNT: Name = Name {
        bytes: *b"ZPCOUNT ",
    };

    pub const ZGCOUNT: Name = Name {
        bytes: *b"ZGCOUNT ",
    };

    pub const ZHECKSUM: Name = Name {
        bytes: *b"ZHECKSUM",
    };

    pub const ZDATASUM: Name = Name {
        bytes: *b"ZDATASUM",
    };

    pub const ZBLANK: Name = Name {
        bytes: *b"ZBLANK  ",
    };

    pub const ZQUANTIZ: Name = Name {
        bytes: *b"ZQUANTIZ",
    };

    pub const ZDITHER0: Name = Name {
        bytes: *b"ZDITHER0",
    };

    pub const ZMASKCMP: Name = Name {
        bytes: *b"ZMASKCMP",
    };

    pub const ZSCALE: Name = Name {
        bytes: *b"ZSCALE  ",
    };

    pub const ZZERO: Name = Name {
        bytes: *b"ZZERO   ",
    };
}

/// Each name stands for the word that it is called by, with blanks after it.
pub fn keywords_law()
    ensures { (
        Name.SIMPLE.bytes ∷ Name.XTENSION.bytes ∷ Name.BITPIX.bytes ∷ Name.NAXIS.bytes ∷
        Name.EXTEND.bytes ∷ Name.BLOCKED.bytes ∷ Name.GROUPS.bytes ∷ Name.PCOUNT.bytes ∷
        Name.GCOUNT.bytes ∷ Name.BZERO.bytes ∷ Name.EXTNAME.bytes ∷ Name.INHERIT.bytes ∷
        Name.CHECKSUM.bytes ∷ Name.DATASUM.bytes ∷ Name.END.bytes ∷ Name.TFIELDS.bytes ∷ Name.THEAP.bytes ∷
        Name.ZIMAGE.bytes ∷ Name.ZTABLE.bytes ∷ Name.ZCMPTYPE.bytes ∷ Name.ZBITPIX.bytes ∷
        Name.ZNAXIS.bytes ∷ Name.ZSIMPLE.bytes ∷ Name.ZTENSION.bytes ∷ Name.ZEXTEND.bytes ∷
        Name.ZBLOCKED.bytes ∷ Name.ZPCOUNT.bytes ∷ Name.ZGCOUNT.bytes ∷ Name.ZHECKSUM.bytes ∷
        Name.ZDATASUM.bytes ∷ Name.ZBLANK.bytes ∷ Name.ZQUANTIZ.bytes ∷ Name.ZDITHER0.bytes ∷
        Name.ZMASKCMP.bytes ∷ Name.ZSCALE.bytes ∷ Name.ZZERO.bytes ∷ []
        ) ≡ map (λ word. padded (codes word)) (
        "SIMPLE" ∷ "XTENSION" ∷ "BITPIX" ∷ "NAXIS" ∷ "EXTEND" ∷ "BLOCKED" ∷ "GROUPS" ∷
        "PCOUNT" ∷ "GCOUNT" ∷ "BZERO" ∷ "EXTNAME" ∷ "INHERIT" ∷ "CHECKSUM" ∷ "DATASUM" ∷ "END" ∷
        "TFIELDS" ∷ "THEAP" ∷ "ZIMAGE" ∷ "ZTABLE" ∷ "ZCMPTYPE" ∷ "ZBITPIX" ∷ "ZNAXIS" ∷
        "ZSIMPLE" ∷ "ZTENSION" ∷ "ZEXTEND" ∷ "ZBLOCKED" ∷ "ZPCOUNT" ∷ "ZGCOUNT" ∷
        "ZHECKSUM" ∷ "ZDATASUM" ∷ "ZBLANK" ∷ "ZQUANTIZ" ∷ "ZDITHER0" ∷ "ZMASKCMP" ∷
        "ZSCALE" ∷ "ZZERO" ∷ []
        ) }
{}

//! The tables of names: what the names of an image are called in a packed header, which names a packed
//! header drops when the image is restored, and which an image to be packed may not have.
ghost use Rattle.std.specs.Prelude.{◌≡◌, ◌↔◌, List, ℕ, IsTrue, Some, None, IfSome, IfNone, bytes_eq, if◌then◌else◌};
ghost use Rattle.std.specs.Option.{option_map};
ghost use Rattle.fz_card.specs.Made.{FitsName};
ghost use Rattle.fz_card.specs.Tables.{own_names, packed_names, foreign_names, IsRenamed, IsDropped, IsReserved};
ghost use Rattle.fz_card.specs.Tables.Renaming.{Stems};
ghost use Rattle.fz_card.specs.Naming.{renamed_by, is_in_some, packed_name, plain_name, is_dropped, is_reserved};
ghost use Rattle.fz_card.specs.Laws.{NameTableLaws};

use crate::card::Name;
use crate::names::{is_numbered, number_behind, numbered};

/// The first of the options that is some.
macro_rules! first_of {
    ($last:expr) => { $last };
    ($first:expr, $($rest:expr),+) => { $first.or(first_of!($($rest),+)) };
}

/// The lines of the table of both names, and the stems with the last number after them.
macro_rules! renamings {
    ($line:ident, $name:ident) => {
        first_of!(
            $line!($name, SIMPLE, ZSIMPLE),
            $line!($name, XTENSION, ZTENSION),
            $line!($name, BITPIX, ZBITPIX),
            $line!($name, NAXIS, ZNAXIS),
            $line!($name, EXTEND, ZEXTEND),
            $line!($name, BLOCKED, ZBLOCKED),
            $line!($name, PCOUNT, ZPCOUNT),
            $line!($name, GCOUNT, ZGCOUNT),
            $line!($name, CHECKSUM, ZHECKSUM),
            $line!($name, DATASUM, ZDATASUM),
            $line!($name, b"NAXIS", b"ZNAXIS", 9)
        )
    };
}

/// A line of the table, read from left to right.
macro_rules! to_packed {
    ($name:ident, $plain:ident, $packed:ident) => {
        renamed_word($name, Name::$plain, Name::$packed)
    };
    ($name:ident, $plain:literal, $packed:literal, $last:literal) => {
        renumbered($name, $plain, $packed, $last)
    };
}

/// A line of the table, read from right to left.
macro_rules! to_plain {
    ($name:ident, $plain:ident, $packed:ident) => {
        renamed_word($name, Name::$packed, Name::$plain)
    };
    ($name:ident, $plain:literal, $packed:literal, $last:literal) => {
        renumbered($name, $packed, $plain, $last)
    };
}

/// Whether the name is in some line of a list: a word, or a stem with the last number after it.
macro_rules! is_any_of {
    ($name:ident; $word:ident) => {
        $name == Name::$word
    };
    ($name:ident; $stem:literal $last:literal) => {
        is_numbered($name, $stem, $last)
    };
    ($name:ident; $word:ident, $($rest:tt)+) => {
        $name == Name::$word || is_any_of!($name; $($rest)+)
    };
    ($name:ident; $stem:literal $last:literal, $($rest:tt)+) => {
        is_numbered($name, $stem, $last) || is_any_of!($name; $($rest)+)
    };
}

/// The name in a packed header of a name of an image, if it is another (FITS 4.0, section 10.1.1).
pub fn renamed(name: Name) -> Option<Name>
    ensures value { IfSome result (λ b. IsRenamed name.bytes b.bytes) }
    ensures none { IfNone result ((b : List ℕ) → ¬ (IsRenamed name.bytes b)) }
    ensures function { option_map (λ b. b.bytes) result ≡ packed_name name.bytes }
{
    renamings!(to_packed, name)
}

/// The name in an image of a name of a packed header, if it is another.
pub fn restored(name: Name) -> Option<Name>
    ensures value { IfSome result (λ a. IsRenamed a.bytes name.bytes) }
    ensures none { IfNone result ((a : List ℕ) → ¬ (IsRenamed a name.bytes)) }
    ensures function { option_map (λ a. a.bytes) result ≡ plain_name name.bytes }
{
    renamings!(to_plain, name)
}

/// Whether a card of this name in a packed header is the table's only, and not the image's.
pub fn is_dropped(name: Name) -> bool
    ensures value { IsTrue result ↔ IsDropped name.bytes }
    ensures function { result ≡ is_dropped name.bytes }
{
    is_own(name) || is_packed(name)
}

/// Whether an image to be packed may not have a card of this name, since it would be taken for one of a
/// packed header.
pub fn is_reserved(name: Name) -> bool
    ensures value { IsTrue result ↔ IsReserved name.bytes }
    ensures function { result ≡ is_reserved name.bytes }
{
    restored(name).is_some() || (is_packed(name) || is_foreign(name))
}

/// Whether the name says how a table itself is built, or is one of its sums.
#[tactic(auto, unfolding(crate::specs::Tables::own_names))]
fn is_own(name: Name) -> bool
    ensures { result ≡ is_in_some own_names name.bytes }
{
    is_any_of!(name;
        XTENSION,
        BITPIX,
        NAXIS,
        b"NAXIS" 999,
        PCOUNT,
        GCOUNT,
        CHECKSUM,
        DATASUM)
}

/// Whether the name is only in a packed header.
#[tactic(auto, unfolding(crate::specs::Tables::packed_names))]
fn is_packed(name: Name) -> bool
    ensures { result ≡ is_in_some packed_names name.bytes }
{
    is_any_of!(name;
        TFIELDS,
        b"TTYPE" 999,
        b"TFORM" 999,
        THEAP,
        ZIMAGE,
        ZCMPTYPE,
        b"ZTILE" 999,
        b"ZNAME" 999,
        b"ZVAL" 999,
        ZBLANK,
        ZQUANTIZ,
        ZDITHER0,
        ZMASKCMP)
}

/// Whether the name says something of a table that is packed in another way, or is one of an axis of a packed image.
#[tactic(auto, unfolding(crate::specs::Tables::foreign_names))]
fn is_foreign(name: Name) -> bool
    ensures { result ≡ is_in_some foreign_names name.bytes }
{
    is_any_of!(name; ZTABLE, ZSCALE, ZZERO, b"ZNAXIS" 99)
}

/// The word `to`, if the name is the word `from`.
fn renamed_word(name: Name, from: Name, to: Name) -> Option<Name>
    ensures { option_map (λ n. n.bytes) result
        ≡ (if bytes_eq name.bytes from.bytes then Some to.bytes else None) }
{
    if name == from { Some(to) } else { None }
}

/// The stem `to` with the number after the stem `from`, if it is not above the last one.
fn renumbered(name: Name, from: &[u8], to: &[u8], last: u32) -> Option<Name>
    requires { FitsName to.now last }
    ensures { option_map (λ n. n.bytes) result ≡ renamed_by (Stems from.now to.now last) name.bytes }
{
    match number_behind(name, from) {
        Some(number) if number <= last => Some(numbered(to, number)),
        _ => None,
    }
}

/// The functions that definitions compute with give the names of the tables, and the two ways through the table of
/// both names undo each other. A name of an image is not dropped under its other name; one that has no other name is
/// neither restored nor dropped, unless it is reserved or an axis above the ninth.
pub fn names_law()
    ensures { NameTableLaws }
{}

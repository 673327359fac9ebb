//! Names that occur once in a header.
ghost use Rattle.std.specs.Prelude.{◌≡◌, ◌+◌, ◌*◌, ◌<◌, ◌≤◌, ◌&&◌, bytes_eq, length as len};
ghost use Rattle.std.specs.List.{list_any};
ghost use Rattle.fz_card.specs.Layout.{card_name};
ghost use Rattle.fz_card.specs.Naming.{is_in_some};
ghost use Rattle.fz_block.specs.Cards.{card_at};
ghost use Rattle.fz_head.specs.Once.{once_names, name_in};
ghost use Rattle.fz_head.specs.Repeats.{first_repeat, array_names, compression_names, image_names, table_names};
ghost use Rattle.fz_head.specs.Written.{first_cards};

use fz_block::card;
use fz_card::{Name, is_numbered};

/// The headers in which some names occur once: that of an image, and that of a packed table.
#[derive(Clone, Copy)]
pub enum Once {
    Image,
    Table,
}

/// The index of the first of so many cards that repeats the name of an earlier one.
pub fn first_repeat(buf: &[u8], cards: u32, of: Once) -> Option<u32>
    requires { 80 * cards ≤ len buf.now }
    ensures { result ≡ first_repeat (once_names of) (name_in of) (first_cards buf.now cards) }
{
    for i in 0..cards {
        if repeats(buf, i, of) {
            return Some(i);
        }
    }
    None
}

// Whether the card of this index repeats the name of an earlier one.
fn repeats(buf: &[u8], i: u32, of: Once) -> bool
    requires { 80 * (i + 1) ≤ len buf.now }
    ensures { result ≡ (is_in_some (once_names of) (card_name (card_at buf.now i))
        && list_any (λ c. bytes_eq (name_in of (card_name c)) (name_in of (card_name (card_at buf.now i)))) (first_cards buf.now i)) }
{
    let name = card(buf, i).name();
    stands_once(name, of) && is_among(buf, i, name, of)
}

// Whether one of so many cards has this name.
fn is_among(buf: &[u8], cards: u32, name: Name, of: Once) -> bool
    requires { 80 * cards ≤ len buf.now }
    ensures { result ≡ list_any (λ c. bytes_eq (name_in of (card_name c)) (name_in of name.bytes)) (first_cards buf.now cards) }
{
    let wanted = counted(name, of);
    for i in 0..cards {
        if counted(card(buf, i).name(), of) == wanted {
            return true;
        }
    }
    false
}

// The name as which a name counts: in a packed header ZTENSION and ZSIMPLE are one.
fn counted(name: Name, of: Once) -> Name
    ensures { result.bytes ≡ name_in of name.bytes }
{
    match of {
        Once::Table if name == Name::ZTENSION => Name::ZSIMPLE,
        _ => name,
    }
}

// Whether the name occurs once in such a header.
fn stands_once(name: Name, of: Once) -> bool
    ensures { result ≡ is_in_some (once_names of) name.bytes }
{
    match of {
        Once::Image => is_image_name(name),
        Once::Table => is_packed_name(name),
    }
}

// Whether the name occurs once in the header of an image.
fn is_image_name(name: Name) -> bool
    ensures { result ≡ is_in_some image_names name.bytes }
{
    name == Name::SIMPLE
        || name == Name::XTENSION
        || name == Name::BITPIX
        || name == Name::NAXIS
        || is_numbered(name, b"NAXIS", 999)
        || name == Name::PCOUNT
        || name == Name::GCOUNT
}

// Whether the name occurs once in a packed header.
#[tactic(auto, using(crate::proofs::Positions::names_after_names))]
fn is_packed_name(name: Name) -> bool
    ensures { result ≡ is_in_some table_names name.bytes }
{
    is_array_name(name) || is_compression_name(name)
}

// Whether the name occurs once in the header of a table.
fn is_array_name(name: Name) -> bool
    ensures { result ≡ is_in_some array_names name.bytes }
{
    name == Name::XTENSION
        || name == Name::BITPIX
        || name == Name::NAXIS
        || is_numbered(name, b"NAXIS", 999)
        || name == Name::PCOUNT
        || name == Name::GCOUNT
        || name == Name::TFIELDS
        || is_numbered(name, b"TTYPE", 999)
        || is_numbered(name, b"TFORM", 999)
        || name == Name::THEAP
}

// Whether the name says something of the packed image, and occurs once.
fn is_compression_name(name: Name) -> bool
    ensures { result ≡ is_in_some compression_names name.bytes }
{
    name == Name::ZIMAGE
        || name == Name::ZCMPTYPE
        || name == Name::ZBITPIX
        || name == Name::ZNAXIS
        || is_numbered(name, b"ZNAXIS", 99)
        || is_numbered(name, b"ZTILE", 999)
        || is_numbered(name, b"ZNAME", 999)
        || is_numbered(name, b"ZVAL", 999)
        || name == Name::ZSIMPLE
        || name == Name::ZTENSION
        || name == Name::ZPCOUNT
        || name == Name::ZGCOUNT
}

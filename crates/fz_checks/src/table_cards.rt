//! The checks of the cards of a binary table.
ghost use Rattle.std.specs.Prelude.{◌≡◌, ◌≤◌, None, Some};
ghost use Rattle.fz_base.specs.Refusal.{IsFirstOf};
ghost use Rattle.fz_block.specs.Facts.{IsHeaderOf};
ghost use Rattle.fz_block.specs.declared.header.Sort.TheVariants.{BinTable};
ghost use Rattle.fz_head.specs.TableChecks.{table_card_checks};

use fz_base::{Fault, Kind};
use fz_block::{Header, refuse_at};
use fz_card::Name;
use fz_head::{Once, first_repeat, first_set, is_packed};

/// Checks the cards of a binary table: it is no compressed table (else CompressedTable at ZTABLE), and in
/// a packed header no name that may occur only once occurs twice (Duplicate).
pub fn table_check(buf: &[u8], header: &Header) -> Result<(), Fault>
    requires header { IsHeaderOf buf.now header.now }
    requires table { header.now.sort ≡ BinTable }
    ensures { IsFirstOf (table_card_checks header.now buf.now) result }
{
    refuse_at(
        header,
        first_set(buf, header.cards, &Name::ZTABLE),
        Kind::CompressedTable,
    )?;
    if !is_packed(buf, header) {
        return Ok(());
    }
    refuse_at(
        header,
        first_repeat(buf, header.cards, Once::Table),
        Kind::Duplicate,
    )
}

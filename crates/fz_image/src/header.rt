//! The header of the table.
ghost use Rattle.std.specs.Prelude.{ℕ, ◌≡◌, ◌+◌, ◌*◌, ◌<◌, ◌≤◌, ◌^◌, true, codes, [], List, take, length as len};
ghost use Rattle.fz_block.specs.Cards.{card_at};
ghost use Rattle.fz_block.specs.Checks.{is_set};
ghost use Rattle.fz_block.specs.Facts.{IsHeaderOf};
ghost use Rattle.fz_block.specs.Hdus.{cards_of, header_bytes};
ghost use Rattle.fz_files.specs.Packed.{packed_data, table_header, with_sums};
ghost use Rattle.fz_head.specs.Conditions.{AreShort, IsPackPlan};
ghost use Rattle.fz_head.specs.PackedHeader.{packed_header, packed_with};
ghost use Rattle.fz_head.specs.declared.totals.Totals.{Totals};
ghost use Rattle.fz_sum.specs.Cards.{with_card};
ghost use Rattle.fz_tile.specs.TileCode.{TileCode};
ghost use Rattle.fz_image.specs.Layout.{IsLayout};
ghost use Rattle.fz_image.specs.Image.{sum_cards_put};
ghost use Rattle.fz_image.specs.Progress.{no_progress, with_tiles};
ghost use Rattle.fz_image.specs.Tiles.{AreCodesFrom};
ghost use Rattle.fz_image.specs.declared.layout.Layout.{Layout as LayoutOf};

use crate::progress::Progress;
use fz_block::{Header, cards_law};
use fz_card::{CARD_LEN, Card};
use fz_head::{
    Plan, card_in_place_law, parameter_count, sizes_law, sum_cards_law, to_packed, whole_cards_law,
};
use fz_sum::{Sum, checksum_card, datasum_card, sum_law};

/// Makes the header of a table that was written, and answers its length in bytes.
pub fn make_header(
    buf: &[u8],
    header: &Header,
    plan: &Plan,
    sums: bool,
    progress: Progress,
    made: &mut [u8],
) -> usize
    requires header { IsHeaderOf buf.now header.now }
    requires simple { header.now.hdu ≡ 0 → is_set (codes "SIMPLE") (card_at buf.now 0) ≡ true }
    requires plan { IsPackPlan buf.now header.now sums plan.now }
    requires codes { (l : LayoutOf) × (codes : List TileCode) × IsLayout l × (l.plan ≡ plan.now) × AreCodesFrom l 0 codes
        × (len codes ≡ l.tiles) × (progress ≡ with_tiles l no_progress codes) }
    requires room { len buf.now + 2880 ≤ len made.old }
    ensures header { (l : LayoutOf) (codes : List TileCode) → IsLayout l → l.plan ≡ plan.now → AreCodesFrom l 0 codes
        → len codes ≡ l.tiles → progress ≡ with_tiles l no_progress codes
        → take result made.new ≡ header_bytes (with_sums sums (table_header plan.now (cards_of buf.now) codes) (packed_data plan.now codes)) }
    ensures long { (n : ℕ) → ((s : Totals) → s.sums ≡ sums → AreShort s
        → n ≡ len (header_bytes (packed_header (cards_of buf.now) plan.now s))) → result ≡ n }
    ensures within { result ≤ len made.new }
    ensures len { len made.new ≡ len made.old }
{
    sizes_law();
    sum_cards_law();
    whole_cards_law();
    cards_law();
    card_in_place_law();
    sum_law();
    let len = to_packed(buf, header, plan, &progress.totals(sums), made);
    if sums {
        put_sums(
            cards_before_sums(header, plan),
            progress.sum,
            &mut made[..len],
        );
    }
    len
}

// How many cards are before those of sums.
fn cards_before_sums(header: &Header, plan: &Plan) -> u32
    requires axes { plan.now.shape.n ≤ 9 }
    requires cards { header.now.cards < 9216 }
    ensures { (cards : List (List ℕ)) (s : Totals) → len cards ≡ header.now.cards → result ≡ len (packed_with cards plan.now s []) }
{
    14 + plan.shape.n + parameter_count(plan.codec) + header.cards
}

// Puts the sum of the data into its card, and then the characters of the sum of the HDU into the next one.
fn put_sums(at: u32, total: Sum, header: &mut [u8])
    requires short { len header.old ≤ 737280 }
    requires summed { total.count + len header.old < 2 ^ 63 }
    requires near { 80 * (at + 2) ≤ len header.old }
    ensures { header.new ≡ sum_cards_put at total.total header.old }
{
    let mut sum = total;
    put_card(at, &datasum_card(sum.value()), header);
    sum.add(0, header);
    put_card(at + 1, &checksum_card(sum.value()), header);
}

// Puts a card in place of that of the index.
fn put_card(i: u32, card: &Card, header: &mut [u8])
    requires { 80 * (i + 1) ≤ len header.old }
    ensures { header.new ≡ with_card i card.now.bytes header.old }
{
    let at = CARD_LEN * i as usize;
    header[at..at + CARD_LEN].copy_from_slice(&card.bytes);
}

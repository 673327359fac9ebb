//! The header of an image, restored from that of its table.
ghost use Rattle.std.specs.Prelude.{ℕ, ◌≡◌, ◌+◌, ◌*◌, ◌<◌, ◌≤◌, ◌^◌, true, false, codes, Ok, Some, take, length as len, IfSome, IsNone};
ghost use Rattle.fz_block.specs.Cards.{card_at};
ghost use Rattle.fz_block.specs.Checks.{header_of, is_set};
ghost use Rattle.fz_checks.specs.JobChecks.{plan_to_pack as plan_to_pack_of};
ghost use Rattle.fz_block.specs.Facts.{IsHeaderOf};
ghost use Rattle.fz_block.specs.Header.{next_start_of};
ghost use Rattle.fz_block.specs.Hdus.{cards_of};
ghost use Rattle.fz_block.specs.declared.header.Header.{Header as HeaderOf};
ghost use Rattle.fz_head.specs.Conditions.{IsPackPlan, IsPackedPlan};
ghost use Rattle.fz_head.specs.Planned.{AreOptions};
ghost use Rattle.fz_strict.specs.Origins.{IsRestored, restored_bytes};

use crate::origin::{MAX_PLACE, Origin};
use crate::plans::is_plan;
use fz_block::{Header, buffered_header, card, cards_law};
use fz_card::Name;
use fz_checks::plan_to_pack;
use fz_head::{PackOptions, Plan, to_plain, whole_cards_law};

/// Restores the header of a packed image, and answers its facts, if an image with this header can follow these HDUs and
/// `pack` packs it by the same plan.
pub(crate) fn restore(
    buf: &[u8],
    header: &Header,
    plan: &Plan,
    options: &PackOptions,
    origin: &Origin,
    plain: &mut [u8],
) -> Option<Header>
    requires header { IsHeaderOf buf.now header.now }
    requires plan { IsPackedPlan buf.now header.now plan.now }
    requires options { AreOptions options.now }
    requires end { origin.now.end ≤ 2 ^ 62 }
    requires room { len buf.now + 2880 ≤ len plain.old }
    ensures restored { IfSome result (IsRestored options.now origin.now (cards_of buf.now) plan.now) }
    ensures none { IsNone result → (h : HeaderOf) → ¬ (IsRestored options.now origin.now (cards_of buf.now) plan.now h) }
    ensures bytes { IfSome result (λ h. take (2880 * h.blocks) plain.new ≡ restored_bytes (cards_of buf.now)) }
    ensures header { IfSome result (λ h. IsHeaderOf (take (2880 * h.blocks) plain.new) h) }
    ensures within { IfSome result (λ h. 2880 * h.blocks ≤ len plain.new) }
    ensures fits { IfSome result (λ h. 2880 * h.blocks ≤ len buf.now) }
    ensures place { IfSome result (λ h. (next_start_of h ≤ 2 ^ 62) × (h.start ≡ origin.now.end) × (h.hdu ≡ origin.now.hdus)) }
    ensures plan { IfSome result (λ h. IsPackPlan (take (2880 * h.blocks) plain.new) h options.now.sums plan.now) }
    ensures len { len plain.new ≡ len plain.old }
{
    cards_law();
    whole_cards_law();
    let len = to_plain(buf, header, plan, plain);
    image_header(&plain[..len], plan, options, origin)
}

// The facts of a header that was restored, if an image with it can follow these HDUs and is packed by this plan.
fn image_header(buf: &[u8], plan: &Plan, options: &PackOptions, origin: &Origin) -> Option<Header>
    requires blocks { (n : ℕ) × (0 < n) × (n ≤ 256) × (len buf.now ≡ 2880 * n) }
    requires options { AreOptions options.now }
    requires end { origin.now.end ≤ 2 ^ 62 }
    ensures within { IfSome result (λ h. origin.now.end + len buf.now ≤ 2 ^ 62) }
    ensures found { IfSome result (λ h. header_of origin.now.hdus origin.now.end (2 ^ 62) buf.now ≡ Ok h) }
    ensures packs { IfSome result (λ h. plan_to_pack_of options.now h buf.now ≡ Ok (Some plan.now)) }
    ensures simple { IfSome result (λ h. origin.now.hdus ≡ 0 → is_set (codes "SIMPLE") (card_at buf.now 0) ≡ true) }
    ensures none { IsNone result → origin.now.end + len buf.now ≤ 2 ^ 62
        → (origin.now.hdus ≡ 0 → is_set (codes "SIMPLE") (card_at buf.now 0) ≡ true)
        → (h : HeaderOf) → header_of origin.now.hdus origin.now.end (2 ^ 62) buf.now ≡ Ok h
        → ¬ (plan_to_pack_of options.now h buf.now ≡ Ok (Some plan.now)) }
    ensures header { IfSome result (IsHeaderOf buf.now) }
    ensures place { IfSome result (λ h. (next_start_of h ≤ 2 ^ 62) × (h.start ≡ origin.now.end) × (h.hdu ≡ origin.now.hdus)) }
    ensures plan { IfSome result (λ h. IsPackPlan buf.now h options.now.sums plan.now) }
{
    if origin.end + buf.len() as u64 > MAX_PLACE {
        return None;
    }
    if lacks_simple(buf, origin.hdus) {
        return None;
    }
    let Ok(header) = buffered_header(buf, MAX_PLACE, origin.hdus, origin.end) else {
        return None;
    };
    match plan_to_pack(buf, &header, options) {
        Ok(Some(made)) if is_plan(&made, plan) => Some(header),
        _ => None,
    }
}

// Whether a header is that of HDU 0, and does not begin with SIMPLE and the value T.
fn lacks_simple(buf: &[u8], hdu: u32) -> bool
    requires { 80 ≤ len buf.now }
    ensures not_so { result ≡ false → hdu ≡ 0 → is_set (codes "SIMPLE") (card_at buf.now 0) ≡ true }
    ensures so { result ≡ true → (hdu ≡ 0) × (is_set (codes "SIMPLE") (card_at buf.now 0) ≡ false) }
{
    hdu == 0 && !begins_with_simple(buf)
}

// Whether a header begins with SIMPLE and the value T.
fn begins_with_simple(buf: &[u8]) -> bool
    requires { 80 ≤ len buf.now }
    ensures { result ≡ is_set (codes "SIMPLE") (card_at buf.now 0) }
{
    let first = card(buf, 0);
    first.bytes[..8] == Name::SIMPLE.bytes[..] && first.logical().unwrap_or(false)
}

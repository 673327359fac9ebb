//! What packed headers are for all plans and totals: the way there and back, the cards of sums, and sizes.
ghost use Rattle.std.specs.Prelude.{◌≡◌, ℕ, suc, ◌+◌, ◌*◌, ◌<◌, ◌≤◌, ◌^◌, All, Bool, List, [], ◌∷◌, ◌++◌, Ok, length, slice_index};
ghost use Rattle.fz_block.specs.declared.header.Header.{Header};
ghost use Rattle.fz_block.specs.Facts.{IsHeaderOf, facts_of};
ghost use Rattle.fz_block.specs.Header.{whole_blocks_of};
ghost use Rattle.fz_block.specs.Hdus.{IsCardBeforeEnd, IsHeader, cards_of, header_bytes};
ghost use Rattle.fz_grid.specs.declared.region.Region.{Region};
ghost use Rattle.fz_sum.specs.Cards.{checksum_card, datasum_card, with_card};
ghost use Rattle.fz_head.specs.declared.options.PackOptions.{PackOptions};
ghost use Rattle.fz_head.specs.declared.plan.Plan.{Plan};
ghost use Rattle.fz_head.specs.declared.totals.Totals.{Totals};
ghost use Rattle.fz_head.specs.PackChecks.{pack_answer};
ghost use Rattle.fz_head.specs.PackedHeader.{packed_header, packed_with, sum_cards};
ghost use Rattle.fz_head.specs.Accepted.{IsAccepted};
ghost use Rattle.fz_head.specs.Conditions.{IsPackedPlan};
ghost use Rattle.fz_head.specs.PlainHeader.{axis_count, cutout_header, plain_header};
ghost use Rattle.fz_head.specs.SumCards.{AreDropped, AreSumCards, IsSumCard};
ghost use Rattle.fz_head.specs.ThereAndBack.{HasCards, IsPacking, MayBePacked};

use fz_block::cards_law;
use fz_card::card_laws;

/// The header of an image comes back, card for card, from its packed header, whatever the plan for its
/// shape and whatever the totals; and whatever the cards of sums at its end, of which each is dropped.
pub fn there_and_back_law()
    ensures blank { (header : List ℕ) (h : Header) (p : Plan) (s : Totals) → MayBePacked header h → p.shape ≡ h.axes →
        plain_header (packed_header (cards_of header) p s) ≡ cards_of header }
    ensures sums { (header : List ℕ) (h : Header) (p : Plan) (s : Totals) (sums : List (List ℕ)) → MayBePacked header h
        → p.shape ≡ h.axes → AreDropped sums →
        plain_header (packed_with (cards_of header) p s sums) ≡ cards_of header }
{
    card_laws();
}

/// Cards of sums as they are made, blank and not, are cards of sums, and these are dropped; in a packed
/// header they come last.
pub fn sum_cards_law()
    ensures datasum { (sum : ℕ) → sum < 2 ^ 32 → IsSumCard (datasum_card sum) }
    ensures checksum { (sum : ℕ) → IsSumCard (checksum_card sum) }
    ensures blank { (sums : Bool) → AreSumCards (sum_cards sums) }
    ensures dropped { (sums : List (List ℕ)) → AreSumCards sums → AreDropped sums }
    ensures last { (cards : List (List ℕ)) (p : Plan) (s : Totals) (sums : List (List ℕ))
        → packed_with cards p s sums ≡ packed_with cards p s [] ++ sums }
{
    card_laws();
}

/// How many cards a packed header has does not depend on the lengths and counts in it; and with sums as
/// the options ask for them, it has at most 256 blocks with END, 36 cards in each. The header of the image that a
/// packed header stands for is no longer than it, and neither is that of a part of the image.
pub fn sizes_law()
    ensures totals { (cards : List (List ℕ)) (p : Plan) (s t : Totals) → s.sums ≡ t.sums
        → length (packed_header cards p s) ≡ length (packed_header cards p t) }
    ensures few { (o : PackOptions) (h : Header) (header : List ℕ) (p : Plan) (s : Totals) → pack_answer o h header ≡ Ok p → s.sums ≡ o.sums
        → length (packed_header (cards_of header) p s) < 9216 }
    ensures packing { (header : List ℕ) (h : Header) (p : Plan) (s : Totals) (sums : List (List ℕ)) → IsPacking header h p s sums
        → length (packed_with (cards_of header) p s sums) < 9216 }
    ensures plain { (header : List ℕ) (h : Header) (p : Plan) → IsHeaderOf header h → IsPackedPlan header h p
        → whole_blocks_of (80 * (length (plain_header (cards_of header)) + 1)) ≤ length header }
    ensures cutout { (header : List ℕ) (h : Header) (p : Plan) (region : Region) → IsHeaderOf header h → IsPackedPlan header h p
        → region.n ≡ axis_count (cards_of header)
        → whole_blocks_of (80 * (length (cutout_header (cards_of header) region) + 1)) ≤ length header }
{}

/// Each card of a header that was read, and of one that is made, has 80 bytes, and none is END; so that
/// `fz_block::cards_law` speaks of the bytes of these headers.
pub fn whole_cards_law()
    ensures read { (header : List ℕ) → IsHeader header → All IsCardBeforeEnd (cards_of header) }
    ensures packed { (header : List ℕ) (h : Header) (p : Plan) (s : Totals) (sums : List (List ℕ)) → IsPacking header h p s sums
        → All IsCardBeforeEnd (packed_with (cards_of header) p s sums) }
    ensures plain { (cards : List (List ℕ)) → All IsCardBeforeEnd cards → All IsCardBeforeEnd (plain_header cards) }
    ensures cutout { (cards : List (List ℕ)) (region : Region) → All IsCardBeforeEnd cards → region.n ≤ 9
        → ((i : ℕ) → i < region.n → slice_index region.len i < 10 ^ 18)
        → All IsCardBeforeEnd (cutout_header cards region) }
{
    card_laws();
}

/// A card in place of another one of a header's bytes, as DATASUM in place of the blank one, makes the bytes
/// of the header with that card.
pub fn card_in_place_law()
    ensures { (before : List (List ℕ)) (card other : List ℕ) (behind : List (List ℕ)) → All IsCardBeforeEnd before
        → length card ≡ 80 → length other ≡ 80
        → with_card (length before) other (header_bytes (before ++ card ∷ behind)) ≡ header_bytes (before ++ other ∷ behind) }
{}

/// What is packed is accepted: a header that is made of that of an image by a plan and totals, with any cards of
/// sums, is a packed one after the first HDU, no check of it refuses, and it stands for the same plan and for
/// the table of the plan. So are the bytes that are written of its cards, and any others with these cards.
pub fn accepted_law()
    ensures bytes { (header : List ℕ) (h : Header) (p : Plan) (s : Totals) (sums : List (List ℕ)) (k start : ℕ) (bytes : List ℕ)
        → IsPacking header h p s sums
        → bytes ≡ header_bytes (packed_with (cards_of header) p s sums) → IsAccepted p s bytes (facts_of (suc k) start bytes) }
    ensures cards { (header : List ℕ) (h : Header) (p : Plan) (s : Totals) (sums : List (List ℕ)) (k start : ℕ) (bytes : List ℕ)
        → IsPacking header h p s sums
        → HasCards bytes (packed_with (cards_of header) p s sums) → IsAccepted p s bytes (facts_of (suc k) start bytes) }
{
    card_laws();
    cards_law();
}

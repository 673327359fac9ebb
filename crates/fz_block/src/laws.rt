//! What the definitions of headers and of HDUs promise together.
ghost use Rattle.std.specs.Prelude.{◌≡◌, All, Bool, true, false, ℕ, Some, None, ◌+◌, ◌*◌, ◌/◌, ◌^◌, ◌≤◌};
ghost use Rattle.std.specs.Prelude.{◌<◌, Ok, List, [], ◌∷◌, ◌++◌, length, take, drop, map, codes};
ghost use Rattle.std.specs.List.{flat_map, position, range_with_len};
ghost use Rattle.std.specs.Option.{option_map};
ghost use Rattle.std.specs.Result.{result_map_both};
ghost use Rattle.fz_base.specs.Refusal.{first_refusal};
ghost use Rattle.fz_base.specs.declared.fault.Fault.{Fault};
ghost use Rattle.fz_block.specs.Again.{hdu_again_at};
ghost use Rattle.fz_block.specs.Cards.{card_at, first_among, first_card};
ghost use Rattle.fz_block.specs.Checks.{Judge, is_set, fault_as, header_blocks_of, header_of, hdu_at, hdu_end, walk_of, headers_of};
ghost use Rattle.fz_block.specs.Facts.{IsHeaderOf, begun_at, facts_as};
ghost use Rattle.fz_block.specs.Hdus.{Hdu, hdu_bytes, IsHeader, IsHdu, AreHdusOf, IsCardBeforeEnd, HasBlankFill, cards_of, header_bytes, size_at};
ghost use Rattle.fz_block.specs.Header.{whole_blocks_of, data_start_of, next_start_of};
ghost use Rattle.fz_block.specs.Mandatory.{mandatory_checks};
ghost use Rattle.fz_block.specs.Walk.{hdu_of, StandsAt, PassesAt, PassFrom, facts_from, AreHeadersBetween};
ghost use Rattle.fz_block.specs.Walk.{AreHeadersFrom, stops, RefusesNone, stop_after};
ghost use Rattle.fz_block.specs.declared.header.Header.{Header};

/// A header that is at its place in a file, with its data and their fill in the file, is the header
/// of an HDU: the data begin after the header, and the next HDU begins after the data with their fill.
pub fn hdu_law()
    ensures hdu { (file header : List ℕ) (h : Header) → IsHeaderOf header h → take (length header) (drop h.start file) ≡ header
        → next_start_of h ≤ length file → ((hdu_of file h).header ≡ header) × IsHdu h.hdu (hdu_of file h) }
    ensures places { (file header : List ℕ) (h : Header) → IsHeaderOf header h → next_start_of h ≤ length file
        → (data_start_of h ≡ h.start + length header) × (next_start_of h ≡ data_start_of h + length (hdu_of file h).payload) }
{}

/// The bytes of a header and its cards determine each other, if blanks follow END; and the first card
/// with a property is that of the bytes and that of the list.
pub fn cards_law()
    ensures bytes { (header : List ℕ) → IsHeader header → HasBlankFill header → header_bytes (cards_of header) ≡ header }
    ensures cards { (cards : List (List ℕ)) → All IsCardBeforeEnd cards → cards_of (header_bytes cards) ≡ cards }
    ensures header { (cards : List (List ℕ)) → All IsCardBeforeEnd cards → IsHeader (header_bytes cards)
        × HasBlankFill (header_bytes cards)
        × (length (header_bytes cards) ≡ whole_blocks_of (80 * (length cards + 1))) }
    ensures first { (has : List ℕ → Bool) (header : List ℕ) → first_card has header ≡ position has (cards_of header) }
{}

/// The first of so many cards that has a property: it has it, and none before it has.
pub fn first_card_law()
    ensures found { (has : List ℕ → Bool) (n i : ℕ) (cards : List ℕ) → i < n → has (card_at cards i) ≡ true
        → ((k : ℕ) → k < i → has (card_at cards k) ≡ false) → first_among has n cards ≡ Some i }
    ensures none { (has : List ℕ → Bool) (n : ℕ) (cards : List ℕ) → ((k : ℕ) → k < n → has (card_at cards k) ≡ false)
        → first_among has n cards ≡ None }
{}

/// Checks of one place after another, of which those of the first places reject nothing: nor do those of one place
/// more, if its own do not; and if its own reject, so do those of all places, for the same fault.
pub fn refusals_law()
    ensures passed { (checks : ℕ → List (Bool × Fault)) (from i next : ℕ) → from + i ≡ next
        → first_refusal (flat_map checks (range_with_len from i)) ≡ None → first_refusal (checks next) ≡ None
        → first_refusal (flat_map checks (range_with_len from (i + 1))) ≡ None }
    ensures stopped { (checks : ℕ → List (Bool × Fault)) (from i n next : ℕ) (fault : Fault) → from + i ≡ next → i < n
        → first_refusal (flat_map checks (range_with_len from i)) ≡ None → first_refusal (checks next) ≡ Some fault
        → first_refusal (flat_map checks (range_with_len from n)) ≡ Some fault }
{}

/// All facts of a header but the byte at which it begins are those of its bytes: they are the same at another place,
/// if its HDU ends within the file there too.
pub fn start_law()
    ensures facts { (header : List ℕ) (h : Header) (start : ℕ) → IsHeaderOf header h → IsHeaderOf header (begun_at start h) }
    ensures checks { (k start len : ℕ) (header : List ℕ) (h : Header) (start' len' : ℕ) → header_of k start len header ≡ Ok h
        → hdu_end k start' header ≤ len' → hdu_end k start' header ≤ 2 ^ 62 → header_of k start' len' header ≡ Ok (begun_at start' h) }
{}

/// The facts and the checks of an extension do not depend on its number, which is at least 1: as another
/// HDU of the file it has the same facts but for the number, and the same check refuses it, or none.
pub fn number_law()
    ensures facts { (header : List ℕ) (h : Header) (k : ℕ) → IsHeaderOf header h → 0 < h.hdu → 0 < k → IsHeaderOf header (facts_as k h) }
    ensures mandatory { (j k : ℕ) (header : List ℕ) → 0 < j → 0 < k
        → first_refusal (mandatory_checks k header) ≡ option_map (fault_as k) (first_refusal (mandatory_checks j header)) }
    ensures checks { (j k start len : ℕ) (header : List ℕ) → 0 < j → 0 < k
        → header_of k start len header ≡ result_map_both (facts_as k) (fault_as k) (header_of j start len header) }
{}

/// A header that is in a file is found there: the search ends with its last block, and the checks
/// are made of its bytes.
pub fn found_law()
    ensures blocks { (k start : ℕ) (file header : List ℕ) → StandsAt k start file header → header_blocks_of k start file ≡ Ok (length header / 2880) }
    ensures header { (k start : ℕ) (file header : List ℕ) → StandsAt k start file header
        → hdu_at k start file ≡ header_of k start (length file) header }
{}

/// A header that the checks of every job find at a place: it is the header of that HDU there, it has the blocks
/// that the search finds, and if it begins the file its axes are as many as card 2 of the file says. A walk
/// finds each of its headers so.
pub fn hdu_at_law()
    ensures facts { (k start : ℕ) (file : List ℕ) (h : Header) → hdu_at k start file ≡ Ok h
        → (h.hdu ≡ k) × (h.start ≡ start) × IsHeaderOf (hdu_of file h).header h }
    ensures blocks { (k start : ℕ) (file : List ℕ) (h : Header) → hdu_at k start file ≡ Ok h → header_blocks_of k start file ≡ Ok h.blocks }
    ensures axes { (file : List ℕ) (h : Header) → hdu_at 0 0 file ≡ Ok h → h.axes.n ≡ size_at file 2 }
    ensures walk { (judge : Judge) (most : ℕ) (file : List ℕ) (hs : List Header) → walk_of judge most file ≡ Ok hs
        → All (λ h. hdu_at h.hdu h.start file ≡ Ok h) hs }
{}

/// A header that is read once more into a buffer with room for it is the one of the first reading: it is
/// answered if it passes the checks, and no other is.
pub fn again_law()
    ensures room { (room k start : ℕ) (file : List ℕ) (h : Header) → hdu_at k start file ≡ Ok h → 2880 * h.blocks ≤ room
        → hdu_again_at room k start file ≡ Ok h }
    ensures found { (room k start : ℕ) (file : List ℕ) (h : Header) → hdu_again_at room k start file ≡ Ok h
        → (hdu_at k start file ≡ Ok h) × (2880 * h.blocks ≤ room) }
{}

/// A walk over HDUs, which makes the checks of every job and then those of a job for one HDU after
/// another, and may stop: it passes what the checks of every job pass up to there, finds the first HDUs
/// of the file, and all of them if it does not stop.
pub fn walk_law()
    ensures headers { (judge : Judge) (most : ℕ) (file : List ℕ) (hs : List Header) → walk_of judge most file ≡ Ok hs
        → (0 < length hs) × (length hs ≤ most) × RefusesNone judge hs
        × ((end : ℕ) × (end ≤ length file) × AreHeadersBetween 0 0 end file hs) }
    ensures up_to { (judge : Judge) (most : ℕ) (file : List ℕ) (hs : List Header) → walk_of judge most file ≡ Ok hs
        → walk_of (stop_after (length hs)) most file ≡ Ok hs }
    ensures begins { (judge : Judge) (most : ℕ) (file : List ℕ) (hs : List Header) (ks : List Hdu)
        → walk_of judge most file ≡ Ok hs → AreHdusOf file ks → take (length hs) ks ≡ map (hdu_of file) hs }
    ensures whole { (judge : Judge) (most : ℕ) (file : List ℕ) (hs : List Header) → walk_of judge most file ≡ Ok hs
        → stops judge hs ≡ false → headers_of most file ≡ Ok hs }
{}

/// What a walk says of the HDUs that it finds: each passes the checks of every job at its place, the
/// file begins with the card SIMPLE and the value T, and the walk stops at no HDU but the last.
pub fn found_hdus_law()
    ensures pass { (judge : Judge) (most : ℕ) (file : List ℕ) (hs : List Header) → walk_of judge most file ≡ Ok hs
        → PassFrom 0 0 (length file) (map (hdu_of file) hs) }
    ensures simple { (judge : Judge) (most : ℕ) (file : List ℕ) (hs : List Header) → walk_of judge most file ≡ Ok hs
        → is_set (codes "SIMPLE") (card_at file 0) ≡ true }
    ensures last { (judge : Judge) (most : ℕ) (file : List ℕ) (hs : List Header) (h : Header)
        → walk_of judge most file ≡ Ok (hs ++ h ∷ []) → stops judge hs ≡ false }
{}

/// HDUs that pass the checks of every job, one after another, are those that a walk finds in the file
/// of their bytes; and a job that refuses none of them, and does not stop, finds them too.
pub fn passing_law()
    ensures parts { (start len : ℕ) (hs : List Hdu) → PassFrom 0 start len hs → AreHdusOf (flat_map hdu_bytes hs) hs }
    ensures walk { (most : ℕ) (file : List ℕ) (hs : List Hdu) → flat_map hdu_bytes hs ≡ file → 0 < length hs
        → length hs ≤ most → PassFrom 0 0 (length file) hs
        → (headers_of most file ≡ Ok (facts_from 0 0 hs)) × (map (hdu_of file) (facts_from 0 0 hs) ≡ hs) }
    ensures judged { (judge : Judge) (most : ℕ) (file : List ℕ) (hs : List Header) → headers_of most file ≡ Ok hs
        → RefusesNone judge hs → stops judge hs ≡ false → walk_of judge most file ≡ Ok hs }
    ensures stopped { (judge : Judge) (most : ℕ) (file : List ℕ) (hs later : List Header) (h : Header)
        → headers_of most file ≡ Ok (hs ++ h ∷ later) → RefusesNone judge hs → stops judge hs ≡ false
        → judge h ≡ Ok true → walk_of judge most file ≡ Ok (hs ++ h ∷ []) }
    ensures moved { (k start len start' len' : ℕ) (h : Hdu) → PassesAt k start len h
        → start' + length (hdu_bytes h) ≤ len' → start' + length (hdu_bytes h) ≤ 2 ^ 62 → PassesAt k start' len' h }
    ensures numbered { (j k start len : ℕ) (h : Hdu) → PassesAt j start len h → 0 < j → 0 < k → k < 65536 → PassesAt k start len h }
{}

/// The checks of all headers, one after another, find the HDUs of a file, and a file has at most one list
/// of HDUs.
pub fn hdu_list_law()
    ensures walk { (most : ℕ) (file : List ℕ) (hs : List Header) → headers_of most file ≡ Ok hs → AreHdusOf file (map (hdu_of file) hs) }
    ensures headers { (most : ℕ) (file : List ℕ) (hs : List Header) → headers_of most file ≡ Ok hs
        → (0 < length hs) × (length hs ≤ most) × AreHeadersFrom 0 0 file hs }
    ensures one { (file : List ℕ) (hs ks : List Hdu) → AreHdusOf file hs → AreHdusOf file ks → hs ≡ ks }
    ensures converse { (most : ℕ) (file : List ℕ) (hs : List Header) (ks : List Hdu) → headers_of most file ≡ Ok hs
        → AreHdusOf file ks → ks ≡ map (hdu_of file) hs }
{}

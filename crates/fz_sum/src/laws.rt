//! Laws of sums, of their characters and of their cards.
ghost use Rattle.std.specs.Prelude.{◌≡◌, ℕ, ◌+◌, ◌*◌, ◌-◌, ◌%◌, ◌<◌, ◌≤◌, ◌≢◌, ◌^◌, ◌↔◌, IsTrue};
ghost use Rattle.std.specs.Prelude.{List, ◌++◌, length, take, drop, replicate, slice_index};
ghost use Rattle.std.specs.Int.{w32, to_be_bytes};
ghost use Rattle.std.specs.List.{concat, list_all};
ghost use Rattle.std.specs.List.Sorted.{IsPermutation};
ghost use Rattle.fz_sum.specs.Sums.{word_total, carried, ones_sum};
ghost use Rattle.fz_sum.specs.Pieces.{Added, nothing, Piece, total_at, after, after_all, placed};
ghost use Rattle.std.specs.Char.{is_ascii_alphanumeric};
ghost use Rattle.fz_sum.specs.Characters.{byte_characters, characters, AreByteCharacters};
ghost use Rattle.fz_sum.specs.Cards.{datasum_card, checksum_card, blank_checksum_card, with_card};
ghost use Rattle.fz_sum.specs.Texts.{CardGivesSum};

use fz_card::made_cards_law;

/// A list that is added in parts, each at its place and in any order, is as the list added at once. If it begins
/// with a word its total is that of its words, and its value is its sum. A total at a place is that at any other
/// place that lies whole words away, and the total of joined lists is that of both. Zeros add nothing, so the sum of
/// data is that of the data with their fill. A sum has 32 bits.
pub fn sum_law()
    ensures pieces { (added : Added) (at : ℕ) (parts : List (List ℕ)) (pieces : List Piece) → IsPermutation (placed at parts) pieces
        → after_all added pieces ≡ after added at (concat parts) }
    ensures value { (at : ℕ) (parts : List (List ℕ)) (pieces : List Piece) → at % 4 ≡ 0 → IsPermutation (placed at parts) pieces
        → carried (after_all nothing pieces).total ≡ ones_sum (concat parts) }
    ensures whole { (at : ℕ) (bytes : List ℕ) → at % 4 ≡ 0 → total_at at bytes ≡ word_total bytes }
    ensures words { (at n : ℕ) (bytes : List ℕ) → total_at (at + 4 * n) bytes ≡ total_at at bytes }
    ensures joined { (at : ℕ) (a b : List ℕ) → total_at at (a ++ b) ≡ total_at at a + total_at (at + length a) b }
    ensures zeros { (at n : ℕ) → total_at at (replicate n 0) ≡ 0 }
    ensures filled { (bytes : List ℕ) (n : ℕ) → ones_sum (bytes ++ replicate n 0) ≡ ones_sum bytes }
    ensures fits { (bytes : List ℕ) → ones_sum bytes < 2 ^ 32 }
{}

/// The characters of a byte are those of the rule, and no others: four quarters and the rest, evened in two pairs by
/// the least number that leaves no punctuation. Character j of byte i of a sum's complement is at place
/// `4j + i + 1`, and the last of all at place 0. All sixteen characters of a sum are letters or digits.
pub fn characters_law()
    ensures rule { (byte : ℕ) (text : List ℕ) → byte < 256 → AreByteCharacters byte text ↔ (text ≡ byte_characters byte) }
    ensures places { (sum i j : ℕ) → i < 4 → j < 4 → slice_index (characters sum) ((4 * j + i + 1) % 16)
        ≡ slice_index (byte_characters (slice_index (to_be_bytes w32 (2 ^ 32 - 1 - sum)) i)) j }
    ensures letters { (sum : ℕ) → IsTrue (list_all is_ascii_alphanumeric (characters sum)) }
{}

/// The card with the characters of the sum, in place of the blank one, makes the sum of an HDU 4294967295: its bytes
/// are those before the card, whole cards, the card, and those after it.
pub fn all_ones_law()
    ensures parts { (before behind : List ℕ) → length before % 80 ≡ 0
        → ones_sum (before ++ (checksum_card (ones_sum (before ++ (blank_checksum_card ++ behind))) ++ behind)) ≡ 4294967295 }
    ensures card { (i : ℕ) (bytes : List ℕ) → take 80 (drop (80 * i) bytes) ≡ blank_checksum_card
        → ones_sum (with_card i (checksum_card (ones_sum bytes)) bytes) ≡ 4294967295 }
{}

/// A card DATASUM that is made of a sum gives that sum.
pub fn datasum_law()
    ensures { (sum : ℕ) → sum < 2 ^ 32 → CardGivesSum (datasum_card sum) sum }
{
    made_cards_law();
}

/// A card that is put in place of another is there, all other cards and the number of bytes stay.
pub fn with_card_law()
    ensures there { (i : ℕ) (card bytes : List ℕ) → length card ≡ 80 → 80 * (i + 1) ≤ length bytes
        → take 80 (drop (80 * i) (with_card i card bytes)) ≡ card }
    ensures others { (i j : ℕ) (card bytes : List ℕ) → length card ≡ 80 → 80 * (i + 1) ≤ length bytes → i ≢ j
        → take 80 (drop (80 * j) (with_card i card bytes)) ≡ take 80 (drop (80 * j) bytes) }
    ensures long { (i : ℕ) (card bytes : List ℕ) → length card ≡ 80 → 80 * (i + 1) ≤ length bytes
        → length (with_card i card bytes) ≡ length bytes }
{}

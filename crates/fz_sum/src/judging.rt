//! The verdicts on the sums of an HDU.
ghost use Rattle.std.specs.Prelude.{◌≡◌, ℕ, ◌*◌, ◌≤◌, ◌↔◌, if◌then◌else◌, List, ◌++◌, length};
ghost use Rattle.std.specs.Option.{option_map, option_and_then};
ghost use Rattle.fz_sum.specs.declared.verdicts.Verdict.TheVariants.{Absent, Right, Wrong};
ghost use Rattle.fz_card.specs.Reading.{text_of};
ghost use Rattle.fz_card.specs.CardLists.{cards_in};
ghost use Rattle.fz_sum.specs.Sums.{ones_sum};
ghost use Rattle.fz_sum.specs.Texts.{sum_of_card as sum_said};
ghost use Rattle.fz_sum.specs.Verdicts.{IsDatasumVerdict, IsChecksumVerdict, IsVerdict, verdict_of, is_some_text, is_sum as is_sum_of};
ghost use Rattle.fz_sum.specs.Verdicts.{datasum_verdict as datasum_verdict_of, checksum_verdict as checksum_verdict_of};
ghost use Rattle.fz_sum.specs.declared.verdicts.Verdict.{Verdict};

use crate::text::sum_of_card;
use crate::verdicts::Verdict;
use fz_card::{Card, FIELD_LEN, Name, card_laws, first_of_name, first_of_name_law, text_law};

/// The sum of an HDU whose CHECKSUM is right: all ones.
const ALL_ONES: u32 = 4_294_967_295;

/// The verdict on the sum of the data of an HDU, by the first of so many cards of its header that is named
/// DATASUM: `sum` is the sum of the data with their fill (FITS 4.0, section 4.4.2.7).
pub fn datasum_verdict(buf: &[u8], cards: u32, sum: u32) -> Verdict
    requires { 80 * cards ≤ length buf.now }
    ensures value { (payload : List ℕ) → sum ≡ ones_sum payload → IsDatasumVerdict (cards_in cards buf.now) payload result }
    ensures function { (payload : List ℕ) → sum ≡ ones_sum payload → result ≡ datasum_verdict_of (cards_in cards buf.now) payload }
{
    verdicts_law();
    let card = first_of_name(buf, cards, Name::DATASUM);
    verdict(card.as_ref(), gives(card.as_ref(), sum))
}

/// The verdict on the sum of an HDU, given by the first of so many cards of its header that is named CHECKSUM: `sum`
/// is the sum of the whole header and of the data with their fill (FITS 4.0, section 4.4.2.7).
pub fn checksum_verdict(buf: &[u8], cards: u32, sum: u32) -> Verdict
    requires { 80 * cards ≤ length buf.now }
    ensures value { (header payload : List ℕ) → sum ≡ ones_sum (header ++ payload)
        → IsChecksumVerdict (cards_in cards buf.now) header payload result }
    ensures function { (header payload : List ℕ) → sum ≡ ones_sum (header ++ payload)
        → result ≡ checksum_verdict_of (cards_in cards buf.now) header payload }
{
    verdicts_law();
    let card = first_of_name(buf, cards, Name::CHECKSUM);
    verdict(card.as_ref(), sum == ALL_ONES)
}

/// Whether the text of the card, if there is one, gives this sum.
fn gives(card: Option<&Card>, sum: u32) -> bool
    ensures { result ≡ is_sum_of (option_and_then sum_said (option_map (λ c. c.now.bytes) card.entry)) sum }
{
    match card {
        Some(card) => is_sum(sum_of_card(card), sum),
        None => false,
    }
}

/// Whether the number, if there is one, is this sum.
fn is_sum(given: Option<u32>, sum: u32) -> bool
    ensures { result ≡ is_sum_of given sum }
{
    match given {
        Some(given) => given == sum,
        None => false,
    }
}

/// The verdict on the first card of that name, if there is one; `right` says whether the sum is as it says:
/// that the sum of the data is the one that DATASUM gives, or that the sum of the HDU is 4294967295.
pub fn verdict(card: Option<&Card>, right: bool) -> Verdict
    ensures value { IsVerdict (option_map (λ c. c.now.bytes) card.entry) right result }
    ensures function { result ≡ verdict_of (option_map (λ c. c.now.bytes) card.entry) right }
{
    text_law();
    judged(is_told(card), right)
}

/// The verdict on a sum that is given or not.
fn judged(told: bool, right: bool) -> Verdict
    ensures { result ≡ (if told then (if right then Right else Wrong) else Absent) }
{
    match (told, right) {
        (false, _) => Verdict::Absent,
        (true, true) => Verdict::Right,
        (true, false) => Verdict::Wrong,
    }
}

/// Whether there is a card and it gives a sum.
fn is_told(card: Option<&Card>) -> bool
    ensures { result ≡ is_some_text (option_and_then text_of (option_map (λ c. c.now.bytes) card.entry)) }
{
    match card {
        Some(card) => tells_sum(card),
        None => false,
    }
}

/// Whether the value of the card is a text that is not empty.
fn tells_sum(card: &Card) -> bool
    ensures { result ≡ is_some_text (text_of card.now.bytes) }
{
    let mut text = [b' '; FIELD_LEN];
    card.text(&mut text).is_some_and(|len| len > 0)
}

/// Cards and data have one verdict on each sum, which the functions give.
pub fn verdicts_law()
    ensures datasum { (cards : List (List ℕ)) (payload : List ℕ) (v : Verdict) → IsDatasumVerdict cards payload v
        ↔ (datasum_verdict_of cards payload ≡ v) }
    ensures checksum { (cards : List (List ℕ)) (header payload : List ℕ) (v : Verdict)
        → IsChecksumVerdict cards header payload v ↔ (checksum_verdict_of cards header payload ≡ v) }
{
    first_of_name_law();
    card_laws();
}

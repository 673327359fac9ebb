//! A text that is cut at a character.
ghost use Rattle.std.specs.Prelude.{◌≡◌, ◌<◌};
ghost use Rattle.std.specs.Option.{option_copied};
ghost use Rattle.fz_words.specs.Cut.{before_byte, behind_byte};

/// What is before the first of this character, and what is after it: all, and None, if there is none.
pub(crate) fn cut(text: &str, at: char) -> (&str, Option<&str>)
    requires ascii { at < 128 }
    ensures before { result.0.now ≡ before_byte at text.now }
    ensures behind { option_copied result.1 ≡ behind_byte at text.now }
{
    match text.split_once(at) {
        Some((before, behind)) => (before, Some(behind)),
        None => (text, None),
    }
}

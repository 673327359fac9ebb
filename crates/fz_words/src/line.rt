//! The words after the command: options with their values, and operands.
ghost use Rattle.std.specs.Prelude.{◌≡◌, List, length, slice_get};
ghost use Rattle.std.specs.List.{after_first, before_first, list_all, position};
ghost use Rattle.std.specs.Option.{option_copied};
ghost use Rattle.std.specs.Result.{result_ok};
ghost use Rattle.fz_words.specs.Jobs.{line_of, value_of};
ghost use Rattle.fz_words.specs.Parts.{is_inside, is_mark, texts_of};
ghost use Rattle.fz_words.specs.Seen.{seen_line, seen_value};

use crate::part::{awaited, part_of};
use crate::request::Usage;
use crate::table::{Command, OptionName};

/// The words after a command.
#[derive(Clone, Copy)]
pub(crate) struct Line<'a> {
    command: Command,
    /// The words before the first `--`.
    words: &'a [String],
    /// The words after it, each an operand.
    others: &'a [String],
}

impl<'a> Line<'a> {
    /// The words after this command.
    pub(crate) fn of(command: Command, words: &'a [String]) -> Line<'a>
        ensures { seen_line result ≡ line_of command (texts_of words.now) }
    {
        match mark_in(words) {
            Some(mark) => Line {
                command,
                words: &words[..mark],
                others: &words[mark + 1..],
            },
            None => Line {
                command,
                words,
                others: &[],
            },
        }
    }

    /// Whether each word is an option of the command, its value or an operand.
    pub(crate) fn is_inside(&self) -> bool
        ensures { result ≡ list_all is_inside (seen_line self.now).parts }
    {
        let mut before = "";
        for word in self.words {
            let word = word.as_str();
            if !part_of(self.command, before, word).is_inside() {
                return false;
            }
            before = word;
        }
        awaited(self.command, before).is_none()
    }

    /// The value of an option that is given at most once: None if it is not given.
    pub(crate) fn value(&self, option: OptionName) -> Result<Option<&'a str>, Usage>
        ensures { seen_value result ≡ value_of option (seen_line self.now) }
    {
        let mut found = None;
        let mut before = "";
        for word in self.words {
            let word = word.as_str();
            if let Some(value) = part_of(self.command, before, word).value_of(option) {
                if found.is_some() {
                    return Err(Usage);
                }
                found = Some(value);
            }
            before = word;
        }
        Ok(found)
    }

    /// The operand of this number, counted from 0.
    pub(crate) fn operand(&self, number: usize) -> Option<&'a str>
        ensures { option_copied result ≡ slice_get (seen_line self.now).operands number }
    {
        let mut left = number;
        let mut before = "";
        for word in self.words {
            let word = word.as_str();
            if let Some(operand) = part_of(self.command, before, word).operand() {
                if left == 0 {
                    return Some(operand);
                }
                left -= 1;
            }
            before = word;
        }
        Some(self.others.get(left)?.as_str())
    }
}

// The place of the first word `--`.
fn mark_in(words: &[String]) -> Option<usize>
    ensures { result ≡ position is_mark (texts_of words.now) }
{
    words.iter().position(|word| word.as_str() == "--")
}

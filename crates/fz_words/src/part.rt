//! What a word is by the word before it.
ghost use Rattle.std.specs.Prelude.{◌≡◌};
ghost use Rattle.std.specs.Option.{option_copied};
ghost use Rattle.fz_words.specs.Parts.{awaited, begins_with_hyphen, had_by, is_inside, is_option, operand_in, part_of, spelled_option, value_in};
ghost use Rattle.fz_words.specs.Seen.{seen_part};
ghost use Rattle.fz_words.specs.Table.{option_named};

use crate::cut::cut;
use crate::table::{Command, OptionName};

/// What a word before the first `--` is.
#[derive(Clone, Copy)]
pub(crate) enum Part<'a> {
    /// An option with its value, or the value; an option that has none is given with the empty value.
    Given(OptionName, &'a str),
    /// An option whose value is the next word.
    Awaiting(OptionName),
    Operand(&'a str),
    /// No word of the command.
    Outside,
}

impl<'a> Part<'a> {
    /// Whether the word is one of the command.
    pub(crate) fn is_inside(self) -> bool
        ensures { result ≡ is_inside (seen_part self.entry) }
    {
        !matches!(self, Part::Outside)
    }

    /// The word, if it is an operand.
    pub(crate) fn operand(self) -> Option<&'a str>
        ensures { option_copied result ≡ operand_in (seen_part self.entry) }
    {
        match self {
            Part::Operand(word) => Some(word),
            _ => None,
        }
    }

    /// The value that this part gives the option.
    pub(crate) fn value_of(self, option: OptionName) -> Option<&'a str>
        ensures { option_copied result ≡ value_in option (seen_part self.entry) }
    {
        match self {
            Part::Given(given, value) if given == option => Some(value),
            _ => None,
        }
    }
}

/// What the word is, after the word before it.
pub(crate) fn part_of<'a>(command: Command, before: &str, word: &'a str) -> Part<'a>
    ensures { seen_part result ≡ part_of command before.now word.now }
{
    match awaited(command, before) {
        Some(_) if begins_with_hyphen(word) => Part::Outside,
        Some(option) => Part::Given(option, word),
        None if is_option(word) => spelled_option(command, word),
        None => Part::Operand(word),
    }
}

/// The option whose value is the word after this one.
pub(crate) fn awaited(command: Command, word: &str) -> Option<OptionName>
    ensures { result ≡ awaited command word.now }
{
    match spelled_option(command, word) {
        Part::Awaiting(option) => Some(option),
        _ => None,
    }
}

// What a word is that names an option.
fn spelled_option(command: Command, word: &str) -> Part<'_>
    ensures { seen_part result ≡ spelled_option command word.now }
{
    let (name, value) = cut(word, '=');
    let Some(option) = option_of(command, name) else {
        return Part::Outside;
    };
    match value {
        None if option.takes_value() => Part::Awaiting(option),
        None => Part::Given(option, ""),
        Some(value) if option.takes_value() => Part::Given(option, value),
        Some(_) => Part::Outside,
    }
}

// The option of the command that has this name.
fn option_of(command: Command, name: &str) -> Option<OptionName>
    ensures { result ≡ had_by command (option_named name.now) }
{
    let option = OptionName::named(name)?;
    if command.has(option) {
        Some(option)
    } else {
        None
    }
}

fn begins_with_hyphen(word: &str) -> bool
    ensures { result ≡ begins_with_hyphen word.now }
{
    matches!(word.as_bytes(), [b'-', ..])
}

// Whether the word begins with a hyphen and is longer than that.
fn is_option(word: &str) -> bool
    ensures { result ≡ is_option word.now }
{
    matches!(word.as_bytes(), [b'-', _, ..])
}

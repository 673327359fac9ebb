//! The first thing that is wrong with words that ask for nothing.
ghost use Rattle.std.specs.Prelude.{◌≡◌, ◌<◌, ◌↔◌, false, true, length as len, IfSome, IsNone, IsSome};
ghost use Rattle.fz_words.specs.Parts.{texts_of};
ghost use Rattle.fz_hints.specs.Asked.{asks};

use crate::asking::do_ask;
use crate::command::Command;
use crate::setting::Setting;
use crate::walk::mistake_after;
use std::alloc::Global;

/// What is wrong.
#[derive(Clone, Copy, Debug, PartialEq, Eq)]
pub(crate) enum Wrong {
    /// The first word is no command.
    NoCommand,
    /// There is no option of this name.
    NoOption,
    /// The command does not have this option.
    OtherOption(Setting),
    /// The option was given before.
    Twice(Setting),
    /// The option is given without its value.
    NoValue(Setting),
    /// The option has no value and is given with one.
    WithValue(Setting),
    /// The option may not have this value.
    Value(Setting),
    /// A name is empty.
    EmptyName,
    /// There is a name too many.
    NameTooMany,
    /// It is no number of rows.
    Rows,
    /// There are fewer names than the command has.
    TooFewNames,
    /// The option is not there, and the command does not go without it.
    Missing(Setting),
    /// A block is given for a codec that has none.
    BlockOfOtherCodec,
    /// There was no memory to find out.
    Unclear,
}

/// Which word is wrong, by its place among the words, and what is wrong with it. If there is no such place, something is missing.
#[derive(Clone, Copy, Debug, PartialEq, Eq)]
pub(crate) struct Mistake {
    pub(crate) at: Option<usize>,
    pub(crate) wrong: Wrong,
}

impl Mistake {
    /// This is wrong with this word.
    pub(crate) fn of(at: usize, wrong: Wrong) -> Mistake
        ensures { result.at ≡ Some at }
    {
        Mistake {
            at: Some(at),
            wrong,
        }
    }
}

/// The first thing that is wrong with the words, if they ask for nothing.
pub(crate) fn first_mistake(alloc: Global, words: &[String]) -> Option<Mistake>
    ensures exact { IsSome result ↔ (asks (texts_of words.now) ≡ false) }
    ensures word { IfSome result (λ m. IfSome m.at (λ at. at < len words.now)) }
{
    if do_ask(words) {
        return None;
    }
    Some(mistake_in(alloc, words))
}

// The first thing that is wrong with words that ask for nothing.
fn mistake_in(alloc: Global, words: &[String]) -> Mistake
    ensures { IfSome result.at (λ at. at < len words.now) }
{
    let command = match words {
        [first, ..] => Command::named(first.as_str()),
        [] => None,
    };
    let Some(command) = command else {
        return no_command(words);
    };
    mistake_after(alloc, command, words)
}

// The first word is no command, if there is one.
fn no_command(words: &[String]) -> Mistake
    ensures { IfSome result.at (λ at. at < len words.now) }
{
    Mistake {
        at: if words.is_empty() { None } else { Some(0) },
        wrong: Wrong::NoCommand,
    }
}

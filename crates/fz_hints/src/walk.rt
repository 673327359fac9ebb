//! The words after a command, one after another, up to the first that is wrong.
ghost use Rattle.std.specs.Prelude.{◌≡◌, ◌≤◌, ◌<◌, length as len, IfErr, IfSome};

use crate::asking::{may_be, may_drill};
use crate::command::Command;
use crate::mistake::{Mistake, Wrong};
use crate::setting::Setting;
use std::alloc::Global;

/// The first thing that is wrong with the words after a command.
pub(crate) fn mistake_after(alloc: Global, command: Command, words: &[String]) -> Mistake
    requires { 0 < len words.now }
    ensures { IfSome result.at (λ at. at < len words.now) }
{
    match walk(alloc, command, words) {
        Ok(names) => Mistake {
            at: None,
            wrong: missing(command, words, names),
        },
        Err(mistake) => mistake,
    }
}

// What was seen of the words so far.
#[derive(Clone, Copy)]
struct Seen {
    /// The option whose value is the next word.
    awaited: Option<Setting>,
    /// Whether there was a `--`, after which all words are names.
    is_behind_mark: bool,
    /// How many names there were.
    names: usize,
}

// Goes over all words, and answers how many names there are.
fn walk(alloc: Global, command: Command, words: &[String]) -> Result<usize, Mistake>
    requires { 0 < len words.now }
    ensures { IfErr result (λ m. IfSome m.at (λ at. at < len words.now)) }
{
    let mut seen = Seen {
        awaited: None,
        is_behind_mark: false,
        names: 0,
    };
    for at in 1..words.len() {
        if let Some(wrong) = wrong_at(alloc, command, words, at, &mut seen) {
            return Err(Mistake::of(at, wrong));
        }
    }
    match seen.awaited {
        Some(setting) => Err(Mistake::of(words.len() - 1, Wrong::NoValue(setting))),
        None => Ok(seen.names),
    }
}

// What is wrong with a word, by those before it.
fn wrong_at(
    alloc: Global,
    command: Command,
    words: &[String],
    at: usize,
    seen: &mut Seen,
) -> Option<Wrong>
    requires { (1 ≤ at) × (at < len words.now) }
{
    let word = words[at].as_str();
    if seen.is_behind_mark {
        return wrong_name(alloc, command, word, seen);
    }
    if let Some(setting) = seen.awaited {
        seen.awaited = None;
        return if is_option(word) {
            Some(Wrong::NoValue(setting))
        } else {
            wrong_value(alloc, command, setting, word)
        };
    }
    if word == "--" {
        seen.is_behind_mark = true;
        return None;
    }
    if is_option(word) {
        return wrong_option(alloc, command, &words[1..at], word, seen);
    }
    wrong_name(alloc, command, word, seen)
}

// What is wrong with a name.
fn wrong_name(alloc: Global, command: Command, word: &str, seen: &mut Seen) -> Option<Wrong> {
    if seen.names == command.names() {
        return Some(Wrong::NameTooMany);
    }
    seen.names = seen.names.saturating_add(1);
    if word.is_empty() {
        return Some(Wrong::EmptyName);
    }
    if command == Command::Drill {
        return wrong_rows(alloc, word);
    }
    None
}

// What is wrong with a number of rows. Without memory to ask that, nothing is.
fn wrong_rows(alloc: Global, word: &str) -> Option<Wrong> {
    match may_drill(alloc, word) {
        Ok(false) => Some(Wrong::Rows),
        _ => None,
    }
}

// What is wrong with a word that begins with a hyphen, after these words.
fn wrong_option(
    alloc: Global,
    command: Command,
    before: &[String],
    word: &str,
    seen: &mut Seen,
) -> Option<Wrong> {
    let (name, value) = parts_of(word);
    let Some(setting) = Setting::named(name) else {
        return Some(Wrong::NoOption);
    };
    if !command.has(setting) {
        return Some(Wrong::OtherOption(setting));
    }
    if is_given(before, setting) {
        return Some(Wrong::Twice(setting));
    }
    match value {
        None if setting.takes_value() => {
            seen.awaited = Some(setting);
            None
        }
        None => None,
        Some(value) if setting.takes_value() => wrong_value(alloc, command, setting, value),
        Some(_) => Some(Wrong::WithValue(setting)),
    }
}

// What is wrong with a value of an option. Without memory to ask that, nothing is.
fn wrong_value(alloc: Global, command: Command, setting: Setting, value: &str) -> Option<Wrong> {
    if value.is_empty() {
        return Some(Wrong::NoValue(setting));
    }
    match may_be(alloc, command, setting, value) {
        Ok(false) => Some(Wrong::Value(setting)),
        _ => None,
    }
}

// What is wrong if no word is by itself.
fn missing(command: Command, words: &[String], names: usize) -> Wrong {
    if names < command.names() {
        return Wrong::TooFewNames;
    }
    match command.needs() {
        Some(needed) if !is_given(words, needed) => Wrong::Missing(needed),
        _ if is_given(words, Setting::Block) => Wrong::BlockOfOtherCodec,
        _ => Wrong::Unclear,
    }
}

// Whether one of the words names the option.
fn is_given(words: &[String], setting: Setting) -> bool {
    words
        .iter()
        .any(|word| parts_of(word.as_str()).0 == setting.name())
}

/// What is before the first `=` of a word, and what is after it, if there is one.
pub(crate) fn parts_of(word: &str) -> (&str, Option<&str>) {
    match word.split_once('=') {
        Some((name, value)) => (name, Some(value)),
        None => (word, None),
    }
}

// Whether a word begins with a hyphen and is longer.
fn is_option(word: &str) -> bool {
    matches!(word.as_bytes(), [b'-', _, ..])
}

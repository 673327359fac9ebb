//! What is printed of wrong words.
ghost use Rattle.std.specs.Prelude.{◌<◌, length as len, IfSome};

use crate::command::Command;
use crate::lines::Lines;
use crate::mistake::{Mistake, Wrong, first_mistake};
use crate::pages::{page_in, print_page};
use crate::setting::Setting;
use crate::walk::parts_of;
use std::alloc::Global;

/// Prints the page that the words ask for, or what is wrong with them.
pub(crate) fn print_usage(alloc: Global, words: &[String], lines: &mut Lines) {
    if let Some(page) = page_in(words) {
        return print_page(page, lines);
    }
    let Some(mistake) = first_mistake(alloc, words) else {
        return;
    };
    let [first, ..] = words else {
        return;
    };
    let first = first.as_str();
    print_mistake(first, word_at(words, &mistake), mistake.wrong, lines);
    match Command::named(first) {
        Some(command) => lines.line(&["see fz ", command.word(), " --help"]),
        None => lines.line(&["see fz --help"]),
    }
}

// The word that is wrong, or nothing if something is missing.
fn word_at<'a>(words: &'a [String], mistake: &Mistake) -> &'a str
    requires { IfSome mistake.now.at (λ at. at < len words.now) }
{
    match mistake.at {
        Some(at) => words[at].as_str(),
        None => "",
    }
}

// One line: what is wrong with this word after this command.
fn print_mistake(command: &str, word: &str, wrong: Wrong, lines: &mut Lines) {
    match wrong {
        Wrong::NoCommand => lines.line(&[word, " is no command"]),
        Wrong::NoOption => lines.line(&[word, " is no option"]),
        Wrong::OtherOption(setting) => print_pair(
            command,
            " has no option ",
            setting.name(),
            lines,
        ),
        Wrong::Twice(setting) => lines.line(&[setting.name(), " is given twice"]),
        Wrong::NoValue(setting) => print_written(setting.name(), " needs a value", setting, lines),
        Wrong::WithValue(setting) => print_pair(
            word,
            ": no value belongs to ",
            setting.name(),
            lines,
        ),
        Wrong::Value(setting) => print_value(setting, word, lines),
        Wrong::EmptyName => lines.line(&["a name is empty"]),
        Wrong::NameTooMany => print_names(command, word, " is a name too many", lines),
        Wrong::Rows => lines.line(&[word, " is no number of rows from 1 to 16,384"]),
        Wrong::TooFewNames => print_names(command, "a name", " is missing", lines),
        Wrong::Missing(setting) => print_written(command, " needs an option", setting, lines),
        Wrong::BlockOfOtherCodec => lines.line(&["--block is only for --codec rice"]),
        Wrong::Unclear => lines.line(&["there was no memory to find out what is wrong"]),
    }
}

// Two words with what is said of them between.
fn print_pair(first: &str, what: &str, second: &str, lines: &mut Lines) {
    lines.begin();
    lines.add(&[first]);
    lines.add(&[what]);
    lines.add(&[second]);
    lines.end();
}

// What has to be written with an option.
fn print_written(subject: &str, what: &str, setting: Setting, lines: &mut Lines) {
    lines.begin();
    lines.add(&[subject]);
    lines.add(&[what]);
    lines.add(&[" (write ", setting.name(), " ", setting.example(), ")"]);
    lines.end();
}

// Why an option may not have a value.
fn print_value(setting: Setting, word: &str, lines: &mut Lines) {
    lines.begin();
    lines.add(&[setting.name(), ": "]);
    lines.add(&[value_in(setting, word)]);
    lines.add(&[" ", setting.wrong(), " (write ", setting.example(), ")"]);
    lines.end();
}

// The value of an option in a word: what is after its name, or the whole word.
fn value_in<'a>(setting: Setting, word: &'a str) -> &'a str {
    match parts_of(word) {
        (name, Some(value)) if name == setting.name() => value,
        _ => word,
    }
}

// That the command has other names.
fn print_names(command: &str, subject: &str, what: &str, lines: &mut Lines) {
    lines.begin();
    lines.add(&[subject]);
    lines.add(&[what]);
    lines.add(&[": ", command, " takes "]);
    if let Some(command) = Command::named(command) {
        lines.add(&[command.operands()]);
    }
    lines.end();
}

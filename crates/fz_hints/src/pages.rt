//! The pages of help.
use crate::command::Command;
use crate::lines::Lines;

/// The version of the program, as in the file VERSION of the repository.
const VERSION: &str = "1.0.0";

/// Which sources these are: the commit that was released, which `tools/stamp` writes here, or `between releases`.
const SOURCES: &str = "between releases";

/// A page that words ask for.
#[derive(Clone, Copy, Debug, PartialEq, Eq)]
pub(crate) enum Page {
    /// The commands with their options.
    Commands,
    /// One command.
    Of(Command),
    /// The version.
    Version,
}

/// The page that words ask for which ask for no job, if they do: no words, `help`, `--help` or `-h`, the same with a command, or
/// a command with `--help` or `-h`.
pub(crate) fn page_in(words: &[String]) -> Option<Page> {
    let [first, others @ ..] = words else {
        return Some(Page::Commands);
    };
    let first = first.as_str();
    if first == "help" || is_help(first) {
        return Some(page_named(others));
    }
    if first == "--version" || first == "-V" {
        return Some(Page::Version);
    }
    let command = Command::named(first)?;
    if asks_for_help(others) {
        Some(Page::Of(command))
    } else {
        None
    }
}

// The page of the command that is the first of these words, or of all.
fn page_named(words: &[String]) -> Page {
    let [first, ..] = words else {
        return Page::Commands;
    };
    match Command::named(first.as_str()) {
        Some(command) => Page::Of(command),
        None => Page::Commands,
    }
}

// Whether there is `--help` or `-h` before the first `--`, after which words are names.
fn asks_for_help(words: &[String]) -> bool {
    for word in words {
        let word = word.as_str();
        if word == "--" {
            return false;
        }
        if is_help(word) {
            return true;
        }
    }
    false
}

fn is_help(word: &str) -> bool {
    word == "--help" || word == "-h"
}

/// Prints a page.
pub(crate) fn print_page(page: Page, lines: &mut Lines) {
    match page {
        Page::Commands => print_commands(lines),
        Page::Of(command) => print_command(command, lines),
        Page::Version => {
            print_version(lines);
            lines.page("\n");
        }
    }
}

// The name of the program, its version and its sources.
fn print_version(lines: &mut Lines) {
    lines.page("fz ");
    lines.page(VERSION);
    lines.page(" (");
    lines.page(SOURCES);
    lines.page(")");
}

// The commands with their options.
fn print_commands(lines: &mut Lines) {
    print_version(lines);
    lines.page(": losslessly compresses the integer images of FITS files\n\n");
    print_brief(Command::Pack, lines);
    print_brief(Command::Unpack, lines);
    print_brief(Command::Cut, lines);
    print_brief(Command::Verify, lines);
    print_brief(Command::List, lines);
    print_brief(Command::Retile, lines);
    print_brief(Command::Patch, lines);
    print_brief(Command::Drill, lines);
    lines.page("\nOUT must not exist. fz pack --help shows more of pack, and man fz shows all.\n");
}

// How a command is written, and what it does.
fn print_brief(command: Command, lines: &mut Lines) {
    lines.page("  ");
    lines.page(command.synopsis());
    lines.page("\n      ");
    lines.page(command.purpose());
    lines.page("\n");
}

// A command with what its options are.
fn print_command(command: Command, lines: &mut Lines) {
    lines.page(command.synopsis());
    lines.page("\n  ");
    lines.page(command.purpose());
    lines.page("\n");
    lines.page(command.options());
}

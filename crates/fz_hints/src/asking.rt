//! Whether words ask for anything: what the grammar of the command line says of them.
ghost use Rattle.std.specs.Prelude.{◌≡◌};
ghost use Rattle.fz_words.specs.Parts.{texts_of};
ghost use Rattle.fz_hints.specs.Asked.{asks};

use crate::command::Command;
use crate::setting::Setting;
use fz_words::{begins_patch, read_patch_words, read_words};
use std::alloc::{AllocError, Global};

/// Whether the words ask for a job or a patch.
pub(crate) fn do_ask(words: &[String]) -> bool
    ensures { result ≡ asks (texts_of words.now) }
{
    if begins_patch(words) {
        read_patch_words(words).is_ok()
    } else {
        read_words(words).is_ok()
    }
}

/// Whether the command line accepts this value of the option, if nothing else is wrong. So no value is judged here.
pub(crate) fn may_be(
    alloc: Global,
    command: Command,
    setting: Setting,
    value: &str,
) -> Result<bool, AllocError> {
    let mut line = Vec::new(alloc);
    add_word(alloc, &mut line, command.word())?;
    if let Some(needed) = command.needs()
        && needed != setting
    {
        add_word(alloc, &mut line, needed.name())?;
        add_word(alloc, &mut line, needed.example())?;
    }
    add_word(alloc, &mut line, setting.name())?;
    add_word(alloc, &mut line, value)?;
    for _ in 0..command.names() {
        add_word(alloc, &mut line, "name")?;
    }
    Ok(do_ask(&line))
}

/// Whether `drill` accepts this number of rows.
pub(crate) fn may_drill(alloc: Global, rows: &str) -> Result<bool, AllocError> {
    let mut line = Vec::new(alloc);
    add_word(alloc, &mut line, "drill")?;
    add_word(alloc, &mut line, rows)?;
    Ok(do_ask(&line))
}

// One more word.
fn add_word(alloc: Global, line: &mut Vec<String>, word: &str) -> Result<(), AllocError> {
    line.push(String::from_str(alloc, word)?)?;
    Ok(())
}

//! The commands of the command line, in words.
ghost use Rattle.std.specs.Prelude.{◌≡◌};
ghost use Rattle.fz_hints.specs.Table.{has, named_command, word_of};

use crate::setting::Setting;

/// A command.
#[derive(Clone, Copy, Debug, PartialEq, Eq)]
pub(crate) enum Command {
    Pack,
    Unpack,
    Cut,
    Verify,
    List,
    Drill,
    Retile,
    Patch,
}

impl Command {
    /// The command that is this word.
    pub(crate) fn named(word: &str) -> Option<Command>
        ensures { result ≡ named_command word.now }
    {
        match word {
            "pack" => Some(Command::Pack),
            "unpack" => Some(Command::Unpack),
            "cut" => Some(Command::Cut),
            "verify" => Some(Command::Verify),
            "list" => Some(Command::List),
            "drill" => Some(Command::Drill),
            "retile" => Some(Command::Retile),
            "patch" => Some(Command::Patch),
            _ => None,
        }
    }

    /// Its word.
    pub(crate) fn word(self) -> &'static str
        ensures { result.now ≡ word_of self }
    {
        match self {
            Command::Pack => "pack",
            Command::Unpack => "unpack",
            Command::Cut => "cut",
            Command::Verify => "verify",
            Command::List => "list",
            Command::Drill => "drill",
            Command::Retile => "retile",
            Command::Patch => "patch",
        }
    }

    /// Whether it has this option.
    pub(crate) fn has(self, setting: Setting) -> bool
        ensures { result ≡ has self setting }
    {
        match self {
            Command::Pack | Command::Retile => !matches!(
                setting,
                Setting::Hdu | Setting::Box | Setting::Strict | Setting::At
            ),
            Command::Unpack => matches!(setting, Setting::Workers | Setting::Memory),
            Command::Cut => matches!(
                setting,
                Setting::Hdu | Setting::Box | Setting::Workers | Setting::Memory
            ),
            Command::Verify => matches!(setting, Setting::Memory | Setting::Strict),
            Command::List | Command::Drill => false,
            Command::Patch => matches!(setting, Setting::Hdu | Setting::At | Setting::Memory),
        }
    }

    /// The option that it does not go without.
    pub(crate) fn needs(self) -> Option<Setting> {
        match self {
            Command::Cut => Some(Setting::Box),
            Command::Patch => Some(Setting::At),
            _ => None,
        }
    }

    /// How many names it has.
    pub(crate) fn names(self) -> usize {
        match self {
            Command::Verify | Command::List | Command::Drill => 1,
            _ => 2,
        }
    }

    /// What its names are.
    pub(crate) fn operands(self) -> &'static str {
        match self {
            Command::Verify | Command::List => "one name, IN",
            Command::Drill => "one number, N",
            Command::Patch => "two names, PATCH and FILE",
            _ => "two names, IN and OUT",
        }
    }
}

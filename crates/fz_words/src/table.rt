//! The commands and their options.
ghost use Rattle.std.specs.Prelude.{◌≡◌};
ghost use Rattle.fz_words.specs.Table.{command_named, has_option, option_named, takes_value};

/// A command.
#[derive(Clone, Copy, Debug, PartialEq, Eq)]
pub(crate) enum Command {
    Pack,
    Unpack,
    Cut,
    Verify,
    List,
    Drill,
    Retile,
    /// Its words are read by `read_patch_words`, and are none of `read_words`.
    Patch,
}

/// An option.
#[derive(Clone, Copy, Debug, PartialEq, Eq)]
pub(crate) enum OptionName {
    Codec,
    Tile,
    Block,
    Sums,
    Workers,
    Memory,
    Hdu,
    Box,
    Strict,
    At,
}

impl Command {
    /// The command that is this word.
    pub(crate) fn named(word: &str) -> Option<Command>
        ensures { result ≡ command_named word.now }
    {
        match word {
            "pack" => Some(Command::Pack),
            "unpack" => Some(Command::Unpack),
            "cut" => Some(Command::Cut),
            "verify" => Some(Command::Verify),
            "list" => Some(Command::List),
            "drill" => Some(Command::Drill),
            "retile" => Some(Command::Retile),
            _ => None,
        }
    }

    /// Whether the command has this option.
    pub(crate) fn has(self, option: OptionName) -> bool
        ensures { result ≡ has_option self option }
    {
        match self {
            Command::Pack | Command::Retile => !matches!(
                option,
                OptionName::Hdu | OptionName::Box | OptionName::Strict | OptionName::At
            ),
            Command::Cut => matches!(
                option,
                OptionName::Hdu | OptionName::Box | OptionName::Workers | OptionName::Memory
            ),
            Command::Unpack => matches!(option, OptionName::Workers | OptionName::Memory),
            Command::Verify => matches!(option, OptionName::Memory | OptionName::Strict),
            Command::List | Command::Drill => false,
            Command::Patch => matches!(
                option,
                OptionName::Hdu | OptionName::At | OptionName::Memory
            ),
        }
    }
}

impl OptionName {
    /// The option of this name, which begins with two hyphens.
    pub(crate) fn named(name: &str) -> Option<OptionName>
        ensures { result ≡ option_named name.now }
    {
        match name {
            "--codec" => Some(OptionName::Codec),
            "--tile" => Some(OptionName::Tile),
            "--block" => Some(OptionName::Block),
            "--sums" => Some(OptionName::Sums),
            "--workers" => Some(OptionName::Workers),
            "--memory" => Some(OptionName::Memory),
            "--hdu" => Some(OptionName::Hdu),
            "--box" => Some(OptionName::Box),
            "--strict" => Some(OptionName::Strict),
            "--at" => Some(OptionName::At),
            _ => None,
        }
    }

    /// Whether the option has a value.
    pub(crate) fn takes_value(self) -> bool
        ensures { result ≡ takes_value self }
    {
        !matches!(self, OptionName::Sums | OptionName::Strict)
    }
}

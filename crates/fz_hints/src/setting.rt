//! The options of the command line, in words.
ghost use Rattle.std.specs.Prelude.{◌≡◌};
ghost use Rattle.fz_hints.specs.Table.{has_value, name_of, named_setting};

/// An option.
#[derive(Clone, Copy, Debug, PartialEq, Eq)]
pub(crate) enum Setting {
    Codec,
    Tile,
    Block,
    Sums,
    Workers,
    Memory,
    Hdu,
    Box,
    Strict,
    At,
}

impl Setting {
    /// The option of this name.
    pub(crate) fn named(name: &str) -> Option<Setting>
        ensures { result ≡ named_setting name.now }
    {
        match name {
            "--codec" => Some(Setting::Codec),
            "--tile" => Some(Setting::Tile),
            "--block" => Some(Setting::Block),
            "--sums" => Some(Setting::Sums),
            "--workers" => Some(Setting::Workers),
            "--memory" => Some(Setting::Memory),
            "--hdu" => Some(Setting::Hdu),
            "--box" => Some(Setting::Box),
            "--strict" => Some(Setting::Strict),
            "--at" => Some(Setting::At),
            _ => None,
        }
    }

    /// Its name.
    pub(crate) fn name(self) -> &'static str
        ensures { result.now ≡ name_of self }
    {
        match self {
            Setting::Codec => "--codec",
            Setting::Tile => "--tile",
            Setting::Block => "--block",
            Setting::Sums => "--sums",
            Setting::Workers => "--workers",
            Setting::Memory => "--memory",
            Setting::Hdu => "--hdu",
            Setting::Box => "--box",
            Setting::Strict => "--strict",
            Setting::At => "--at",
        }
    }

    /// Whether it has a value.
    pub(crate) fn takes_value(self) -> bool
        ensures { result ≡ has_value self }
    {
        !matches!(self, Setting::Sums | Setting::Strict)
    }

    /// A value that it may have.
    pub(crate) fn example(self) -> &'static str {
        match self {
            Setting::Codec => "rice",
            Setting::Tile => "64,64",
            Setting::Block => "32",
            Setting::Sums | Setting::Strict => "",
            Setting::Workers => "4",
            Setting::Memory => "2000000000",
            Setting::Hdu => "1",
            Setting::Box => "1:100,1:100",
            Setting::At => "1,1",
        }
    }

    /// What a value is that it may not have.
    pub(crate) fn wrong(self) -> &'static str {
        match self {
            Setting::Codec => "is no codec: rice, plio or none",
            Setting::Tile => "is no list of numbers, 1 to 9 of them from 1 to 2,147,483,647",
            Setting::Block => "is no number from 1 to 32,767",
            Setting::Sums | Setting::Strict => "is too much: the option has no value",
            Setting::Workers => "is no number from 1 to 64",
            Setting::Memory => "is no number of bytes from 1 to 1,099,511,627,776",
            Setting::Hdu => "is no number from 0 to 65,535",
            Setting::Box => "is no box: a range lo:hi or lo:hi:step for each axis, from 1 on",
            Setting::At => "is no place: a number for each axis, from 1 on",
        }
    }
}

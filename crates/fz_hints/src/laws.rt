//! That the commands and options of hints are those of the command line.
ghost use Rattle.std.specs.Prelude.{◌≡◌, true, is_some};
ghost use Rattle.std.specs.List.{list_all};
ghost use Rattle.fz_words.specs.Table.{option_name, options};
ghost use Rattle.fz_hints.specs.Table.{agrees, agrees_on_value, named_setting, readable, settings};

/// The commands and options that hints name are those of `fz_words`: which command has which option (said of all commands but
/// `patch`), which option has a value, and that there are no other options.
pub fn table_law()
    ensures commands { list_all (λ c. list_all (λ s. agrees c s) settings) readable ≡ true }
    ensures values { list_all agrees_on_value settings ≡ true }
    ensures all { list_all (λ o. is_some (named_setting (option_name o))) options ≡ true }
{}

//! The values given for the options of a command.
ghost use Rattle.std.specs.Prelude.{◌≡◌, option_map};
ghost use Rattle.clap.specs.Matches.{found_of};
ghost use Rattle.clap.specs.Walk.{first_of, rows_of};
ghost use Rattle.canvas_answer.specs.Given.{IsFlag, IsNumber, IsNumberOf, text_of};

use clap::ArgMatches;

/// Returns whether a flag is given.
pub(crate) fn has_flag(given: &ArgMatches<'_>, option: &str) -> bool
    ensures { IsFlag (rows_of (found_of given.now)) option.now result }
{
    given.get_flag(option)
}

/// Returns the text of an option, if it is given.
pub(crate) fn text_given<'w>(given: &ArgMatches<'w>, option: &str) -> Option<&'w str>
    ensures { option_map (λ t. t.now) result ≡ first_of option.now (rows_of (found_of given.now)) }
{
    given.get_str(option)
}

/// Returns the text of an option, or the empty one.
pub(crate) fn text_of<'w>(given: &ArgMatches<'w>, option: &str) -> &'w str
    ensures { result.now ≡ text_of (rows_of (found_of given.now)) option.now }
{
    text_given(given, option).unwrap_or("")
}

/// Returns the number of an option, if it is given.
pub(crate) fn number_given(given: &ArgMatches<'_>, option: &str) -> Option<u32>
    ensures { IsNumberOf (rows_of (found_of given.now)) option.now result }
{
    given.get_one::<u32>(option)
}

/// Returns the number of an option, or `other`.
pub(crate) fn number_of(given: &ArgMatches<'_>, option: &str, other: u32) -> u32
    ensures { IsNumber (rows_of (found_of given.now)) option.now other result }
{
    number_given(given, option).unwrap_or(other)
}

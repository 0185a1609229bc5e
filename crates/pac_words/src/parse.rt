// One command's words through clap.

ghost use Rattle.std.specs.Prelude.{◌≡◌, true, IfOk, map, option_map, string_bytes};
ghost use Rattle.clap.specs.Simple.{app_of, with_rule};
ghost use Rattle.clap.specs.Faults.{is_simple_and_free};
ghost use Rattle.clap.specs.Matches.{found_of};
ghost use Rattle.clap.specs.Walk.{first_of, rows_of};
ghost use Rattle.pac_words.specs.Clap.{empty_app, option_rule, positional_rule, rows_given};

use clap::builder::ValueParser;
use clap::error::ErrorKind;
use clap::{Arg, ArgMatches, Command as Parser};
use std::alloc::{AllocError, Global};
use utf16_text::Memory;

/// The matches of the words. None where they are refused.
pub(crate) fn parse<'a>(
    parser: Parser<'a>,
    words: &'a [String],
) -> Result<Option<ArgMatches<'a>>, Memory>
    requires { is_simple_and_free (app_of parser) ≡ true }
    ensures { IfOk result (λ found. option_map (λ m. rows_of (found_of m)) found ≡ rows_given (app_of parser.entry) (map string_bytes words.entry.now)) }
{
    match parser.try_get_matches_from(words) {
        Ok(matches) => Ok(Some(matches)),
        Err(error) if error.kind() == ErrorKind::OutOfMemory => Err(Memory),
        Err(_) => Ok(None),
    }
}

/// A command with no argument and no help.
pub(crate) fn empty<'a>(alloc: Global) -> Parser<'a>
    ensures { app_of result ≡ empty_app }
{
    Parser::new(alloc, "pac")
        .no_binary_name(true)
        .disable_help_flag(true)
}

/// The command with one more positional.
pub(crate) fn with_positional<'a>(
    alloc: Global,
    parser: Parser<'a>,
    name: &'a str,
    required: bool,
) -> Result<Parser<'a>, AllocError>
    ensures { IfOk result (λ c. app_of c ≡ with_rule (app_of parser.entry) (positional_rule name.entry.now required)) }
{
    parser.arg(Arg::new(alloc, name).required(required))
}

/// The command with one more option.
pub(crate) fn with_option<'a>(
    alloc: Global,
    parser: Parser<'a>,
    name: &'a str,
    required: bool,
) -> Result<Parser<'a>, AllocError>
    ensures { IfOk result (λ c. app_of c ≡ with_rule (app_of parser.entry) (option_rule name.entry.now required)) }
{
    let arg = Arg::new(alloc, name)
        .long(name)
        .value_parser(ValueParser::NonEmptyString)
        .required(required);
    parser.arg(arg)
}

/// The value of an argument.
pub(crate) fn value<'a>(matches: &ArgMatches<'a>, name: &str) -> Option<&'a str>
    ensures { option_map (λ t. t.now) result ≡ first_of name.now (rows_of (found_of matches.now)) }
{
    matches.get_str(name)
}

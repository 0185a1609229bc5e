// The words of the command line.

ghost use Rattle.std.specs.Prelude.{◌≡◌, IfOk, map, option_map, string_bytes};
ghost use Rattle.pac_words.specs.Commands.{command_of, read_by, resolve_of, map_of, check_of, ask_of, generate_of};
ghost use Rattle.pac_words.specs.Tables.{resolve_table, map_table, check_table, ask_table, generate_table};
ghost use Rattle.pac_words.specs.Views.{command_view};

use crate::command::Command;
use crate::given;
use crate::parse::parse;
use crate::parsers::{ask_parser, check_parser, generate_parser, map_parser, resolve_parser};
use std::alloc::Global;
use utf16_text::Memory;

/// The command that the words give. None where they are refused.
pub fn read_words<'a>(alloc: Global, words: &'a [String]) -> Result<Option<Command<'a>>, Memory>
    ensures { IfOk result (λ found. option_map command_view found ≡ command_of (map string_bytes words.entry.now)) }
{
    match words {
        [] => Ok(None),
        [name, words @ ..] => match name.as_str() {
            "resolve" => resolve_words(alloc, words),
            "map" => map_words(alloc, words),
            "check" => check_words(alloc, words),
            "ask" => ask_words(alloc, words),
            "generate" => generate_words(alloc, words),
            _ => Ok(None),
        },
    }
}

fn resolve_words<'a>(alloc: Global, words: &'a [String]) -> Result<Option<Command<'a>>, Memory>
    ensures { IfOk result (λ found. option_map command_view found ≡ read_by resolve_table resolve_of (map string_bytes words.entry.now)) }
{
    let parser = resolve_parser(alloc)?;
    let found = parse(parser, words)?;
    match found {
        None => Ok(None),
        Some(matches) => Ok(given::resolve(&matches)),
    }
}

fn map_words<'a>(alloc: Global, words: &'a [String]) -> Result<Option<Command<'a>>, Memory>
    ensures { IfOk result (λ found. option_map command_view found ≡ read_by map_table map_of (map string_bytes words.entry.now)) }
{
    let parser = map_parser(alloc)?;
    let found = parse(parser, words)?;
    match found {
        None => Ok(None),
        Some(matches) => Ok(given::map(&matches)),
    }
}

fn check_words<'a>(alloc: Global, words: &'a [String]) -> Result<Option<Command<'a>>, Memory>
    ensures { IfOk result (λ found. option_map command_view found ≡ read_by check_table check_of (map string_bytes words.entry.now)) }
{
    let parser = check_parser(alloc)?;
    let found = parse(parser, words)?;
    match found {
        None => Ok(None),
        Some(matches) => Ok(given::check(&matches)),
    }
}

fn ask_words<'a>(alloc: Global, words: &'a [String]) -> Result<Option<Command<'a>>, Memory>
    ensures { IfOk result (λ found. option_map command_view found ≡ read_by ask_table ask_of (map string_bytes words.entry.now)) }
{
    let parser = ask_parser(alloc)?;
    let found = parse(parser, words)?;
    match found {
        None => Ok(None),
        Some(matches) => Ok(given::ask(&matches)),
    }
}

fn generate_words<'a>(alloc: Global, words: &'a [String]) -> Result<Option<Command<'a>>, Memory>
    ensures { IfOk result (λ found. option_map command_view found ≡ read_by generate_table generate_of (map string_bytes words.entry.now)) }
{
    let parser = generate_parser(alloc)?;
    let found = parse(parser, words)?;
    match found {
        None => Ok(None),
        Some(matches) => Ok(given::generate(&matches)),
    }
}

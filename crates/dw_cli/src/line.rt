//! The reading of the command line.
ghost use Rattle.std.specs.Prelude.{◌≡◌, ◌≢◌, IfErr, IfOk, Some, codes, [], false, map, option_map, is_some, true};
ghost use Rattle.clap.specs.Words.{app_of, first_of, found_of, rows_of, rule_of, subcommand_of, subcommand_rows_of, with_rule, with_subcommand};
ghost use Rattle.clap.specs.Values.{kind_of};
ghost use Rattle.clap.specs.declared.builder.command.Command.TheViews.{out-Command};
ghost use Rattle.clap.specs.declared.error.kind.ErrorKind.TheVariants.{ValueValidation};
ghost use Rattle.std.specs.declared.io.ErrorKind.TheVariants.{OutOfMemory};
ghost use Rattle.dw_cli.specs.declared.outcome.LineError.TheVariants.{Memory};
ghost use Rattle.dw_cli.specs.declared.word.Argument.TheVariants.{Attribute, Offset, Value};
ghost use Rattle.dw_cli.specs.Words.{attribute_in, offset_in};
ghost use Rattle.dw_cli.specs.Line.{IsBadAt, IsBadBy, IsBadWord, IsMistake, IsOneOf, IsCommand, HasWords, IsGiven, Meets, IsLineError, Says, SaysBy, asking_program, bare_program, finder, flag, names, attribute_given, offset_given, setter, type_finder, value_given, value_read, is_set, optional_path, order_by, path_option, program, refusals, showing_program, subcommand, versions_by, word, with_both_flags, with_entry_sections, with_text_sections};

use crate::outcome::{Line, LineError};
use crate::word::{Argument, BadWord, attribute_of, offset_of, value_of};
use clap::error::ErrorKind;
use clap::{Arg, ArgAction, ArgMatches};
use dw_header::Versions;
use dw_leb::Order;
use dw_tool::command::Command;
use std::alloc::{AllocError, Global};
use std::io;

/// Reads the words after the program's name: one of the subcommands `show`, `find NAME`, `type OFFSET`, `check`,
/// `set OFFSET ATTR VALUE` and `copy`, each with `--info FILE` and `--abbrev FILE`, with `--str FILE`,
/// `--line-str FILE`, `--str-offsets FILE` and the flags `--big` and `--v4` where they are wanted. `set` has the flag
/// `--minus` too. Options come after the subcommand, each once.
///
/// Errors: `Parse` where the words aren't taken or ask for help; `BadWord` where they are taken, with the first one
/// that is no OFFSET, ATTR or VALUE as `offset_of`, `attribute_of` and `value_of` read them, in this order; `Memory`
/// where a growth was refused.
pub fn line<'a>(alloc: Global, words: &'a [&'a str]) -> Result<Line<'a>, LineError<'a>>
    ensures says { IfOk result (Says (map (λ word. word.now) words.entry.now)) }
    ensures taken { IfOk result (λ _. refusals (map (λ word. word.now) words.entry.now) ≡ []) }
    ensures refused { IfErr result (IsLineError (map (λ word. word.now) words.entry.now)) }
{
    let matches = matches_of(alloc, words)?;
    Ok(read(&matches)?)
}

/// Why words that could not be read are no command line. `kind` is that of the error with which
/// they were asked for: `OutOfMemory`, or another where a word is not UTF-8. The error's text
/// contains the program's usage.
///
/// `Parse` with a mistake for any kind but `OutOfMemory`; `Memory` for that, and where the text of
/// the mistake was refused memory.
pub fn unreadable(alloc: Global, kind: io::ErrorKind) -> LineError<'static>
    ensures memory { kind ≡ OutOfMemory → result ≡ Memory }
    ensures mistake { kind ≢ OutOfMemory → IsMistake result }
{
    if kind == io::ErrorKind::OutOfMemory {
        return LineError::Memory;
    }
    match not_text(alloc) {
        Ok(error) => LineError::Parse(error),
        Err(_) => LineError::Memory,
    }
}

// A word is not UTF-8.
fn not_text(alloc: Global) -> Result<clap::Error, AllocError>
    ensures { IfOk result (λ e. kind_of e ≡ ValueValidation) }
{
    parser(alloc)?.error(
        ErrorKind::ValueValidation,
        "invalid UTF-8 was detected in one or more arguments",
    )
}

fn matches_of<'a>(alloc: Global, words: &'a [&'a str]) -> Result<ArgMatches<'a>, LineError<'a>>
    ensures meets { IfOk result (λ m. Meets (subcommand_rows_of m)) }
    ensures exact { IfOk result (λ m.
        subcommand_rows_of m ≡ subcommand_of program (map (λ word. word.now) words.entry.now)) }
    ensures taken { IfOk result (λ _. refusals (map (λ word. word.now) words.entry.now) ≡ []) }
    ensures refused { IfErr result (IsLineError (map (λ word. word.now) words.entry.now)) }
{
    let program = parser(alloc)?;
    Ok(program.try_get_matches_from(words)?)
}

fn parser<'a>(alloc: Global) -> Result<clap::Command<'a>, AllocError>
    ensures shape { IfOk result (λ r. app_of r ≡ program) }
    ensures globals { IfOk result (λ r. (out-Command r).has_globals ≡ false) }
{
    let program = with_set(alloc, asking_parser(alloc)?)?;
    with_plain(
        alloc,
        program,
        "copy",
        "Writes the bytes of .debug_info back",
    )
}

// And those that write what is derived from the entries.
fn asking_parser<'a>(alloc: Global) -> Result<clap::Command<'a>, AllocError>
    ensures shape { IfOk result (λ r. app_of r ≡ asking_program) }
    ensures globals { IfOk result (λ r. (out-Command r).has_globals ≡ false) }
{
    let program = with_type(alloc, showing_parser(alloc)?)?;
    with_plain(
        alloc,
        program,
        "check",
        "Writes what is wrong with the entries",
    )
}

// The subcommands that write text of the entries.
fn showing_parser<'a>(alloc: Global) -> Result<clap::Command<'a>, AllocError>
    ensures shape { IfOk result (λ r. app_of r ≡ showing_program) }
    ensures globals { IfOk result (λ r. (out-Command r).has_globals ≡ false) }
{
    let program = with_plain(
        alloc,
        bare_parser(alloc)?,
        "show",
        "Writes the entries as text",
    )?;
    with_find(alloc, program)
}

fn bare_parser<'a>(alloc: Global) -> Result<clap::Command<'a>, AllocError>
    ensures shape { IfOk result (λ r. app_of r ≡ bare_program) }
    ensures globals { IfOk result (λ r. (out-Command r).has_globals ≡ false) }
{
    Ok(
        clap::Command::new(alloc, "dwarf")
            .bin_name("dwarf")?
            .about("Reads and writes DWARF 5 debugging entries")
            .no_binary_name(true)
            .subcommand_required(true),
    )
}

// A function that adds more than one subcommand, or more than one argument, is dear to prove.

// Adds a subcommand without words of its own.
fn with_plain<'a>(
    alloc: Global,
    program: clap::Command<'a>,
    name: &'a str,
    about: &'a str,
) -> Result<clap::Command<'a>, AllocError>
    requires { (out-Command program).has_globals ≡ false }
    ensures shape { IfOk result (λ r. app_of r ≡ with_subcommand (app_of program.entry)
        (subcommand name.entry.now).top) }
    ensures globals { IfOk result (λ r. (out-Command r).has_globals ≡ false) }
{
    program.subcommand(subcommand_parser(alloc, name, about)?)
}

fn with_find<'a>(alloc: Global, program: clap::Command<'a>) -> Result<clap::Command<'a>, AllocError>
    requires { (out-Command program).has_globals ≡ false }
    ensures shape { IfOk result (λ r. app_of r ≡ with_subcommand (app_of program.entry) finder.top) }
    ensures globals { IfOk result (λ r. (out-Command r).has_globals ≡ false) }
{
    program.subcommand(find_parser(alloc)?)
}

fn with_type<'a>(alloc: Global, program: clap::Command<'a>) -> Result<clap::Command<'a>, AllocError>
    requires { (out-Command program).has_globals ≡ false }
    ensures shape { IfOk result (λ r. app_of r ≡ with_subcommand (app_of program.entry) type_finder.top) }
    ensures globals { IfOk result (λ r. (out-Command r).has_globals ≡ false) }
{
    program.subcommand(type_parser(alloc)?)
}

fn with_set<'a>(alloc: Global, program: clap::Command<'a>) -> Result<clap::Command<'a>, AllocError>
    requires { (out-Command program).has_globals ≡ false }
    ensures shape { IfOk result (λ r. app_of r ≡ with_subcommand (app_of program.entry) setter.top) }
    ensures globals { IfOk result (λ r. (out-Command r).has_globals ≡ false) }
{
    program.subcommand(set_parser(alloc)?)
}

fn find_parser<'a>(alloc: Global) -> Result<clap::Command<'a>, AllocError>
    ensures shape { IfOk result (λ r. app_of r ≡ finder) }
    ensures globals { IfOk result (λ r. (out-Command r).has_globals ≡ false) }
{
    let command = subcommand_parser(alloc, "find", "Writes where the entries of a name begin")?;
    with_word(alloc, command, "name", "NAME", "The name of the entries")
}

fn type_parser<'a>(alloc: Global) -> Result<clap::Command<'a>, AllocError>
    ensures shape { IfOk result (λ r. app_of r ≡ type_finder) }
    ensures globals { IfOk result (λ r. (out-Command r).has_globals ≡ false) }
{
    let command = subcommand_parser(alloc, "type", "Writes the type of an entry")?;
    with_offset(alloc, command)
}

fn set_parser<'a>(alloc: Global) -> Result<clap::Command<'a>, AllocError>
    ensures shape { IfOk result (λ r. app_of r ≡ setter) }
    ensures globals { IfOk result (λ r. (out-Command r).has_globals ≡ false) }
{
    let about = "Writes the bytes of .debug_info with another number in the place of one";
    let command = with_minus(alloc, subcommand_parser(alloc, "set", about)?)?;
    let help = "The attribute that gets the number";
    let command = with_word(
        alloc,
        with_offset(alloc, command)?,
        "attribute",
        "ATTR",
        help,
    )?;
    with_word(alloc, command, "value", "VALUE", "The number that it gets")
}

fn with_minus<'a>(
    alloc: Global,
    command: clap::Command<'a>,
) -> Result<clap::Command<'a>, AllocError>
    requires { (out-Command command).has_globals ≡ false }
    ensures shape { IfOk result (λ r. app_of r ≡ with_rule (app_of command.entry) (flag (codes "minus"))) }
    ensures globals { IfOk result (λ r. (out-Command r).has_globals ≡ false) }
{
    command.arg(flag_argument(alloc, "minus", "The value is below zero"))
}

fn with_offset<'a>(
    alloc: Global,
    command: clap::Command<'a>,
) -> Result<clap::Command<'a>, AllocError>
    requires { (out-Command command).has_globals ≡ false }
    ensures shape { IfOk result (λ r. app_of r ≡ with_rule (app_of command.entry) (word (codes "offset"))) }
    ensures globals { IfOk result (λ r. (out-Command r).has_globals ≡ false) }
{
    let help = "Where the entry begins in .debug_info";
    with_word(alloc, command, "offset", "OFFSET", help)
}

// Adds a word that has to be there, and is called `shown` in the help.
fn with_word<'a>(
    alloc: Global,
    command: clap::Command<'a>,
    name: &'a str,
    shown: &'a str,
    help: &'a str,
) -> Result<clap::Command<'a>, AllocError>
    requires { (out-Command command).has_globals ≡ false }
    ensures shape { IfOk result (λ r. app_of r ≡ with_rule (app_of command.entry) (word name.entry.now)) }
    ensures globals { IfOk result (λ r. (out-Command r).has_globals ≡ false) }
{
    command.arg(word_argument(alloc, name, shown, help))
}

fn subcommand_parser<'a>(
    alloc: Global,
    name: &'a str,
    about: &'a str,
) -> Result<clap::Command<'a>, AllocError>
    ensures shape { IfOk result (λ r. app_of r ≡ subcommand name.entry.now) }
    ensures globals { IfOk result (λ r. (out-Command r).has_globals ≡ false) }
{
    let command = clap::Command::new(alloc, name).about(about);
    let command = with_texts(alloc, with_entries(alloc, command)?)?;
    let offsets = path_argument(
        alloc,
        "str-offsets",
        "The file that holds .debug_str_offsets",
    );
    with_flags(alloc, command.arg(offsets)?)
}

fn with_entries<'a>(
    alloc: Global,
    command: clap::Command<'a>,
) -> Result<clap::Command<'a>, AllocError>
    requires { (out-Command command).has_globals ≡ false }
    ensures shape { IfOk result (λ r. app_of r ≡ with_entry_sections (app_of command.entry)) }
    ensures globals { IfOk result (λ r. (out-Command r).has_globals ≡ false) }
{
    command
        .arg(required_path(alloc, "info", "The file that holds .debug_info"))?
        .arg(required_path(alloc, "abbrev", "The file that holds .debug_abbrev"))
}

fn with_texts<'a>(
    alloc: Global,
    command: clap::Command<'a>,
) -> Result<clap::Command<'a>, AllocError>
    requires { (out-Command command).has_globals ≡ false }
    ensures shape { IfOk result (λ r. app_of r ≡ with_text_sections (app_of command.entry)) }
    ensures globals { IfOk result (λ r. (out-Command r).has_globals ≡ false) }
{
    command
        .arg(path_argument(alloc, "str", "The file that holds .debug_str"))?
        .arg(path_argument(alloc, "line-str", "The file that holds .debug_line_str"))
}

fn with_flags<'a>(
    alloc: Global,
    command: clap::Command<'a>,
) -> Result<clap::Command<'a>, AllocError>
    requires { (out-Command command).has_globals ≡ false }
    ensures shape { IfOk result (λ r. app_of r ≡ with_both_flags (app_of command.entry)) }
    ensures globals { IfOk result (λ r. (out-Command r).has_globals ≡ false) }
{
    command
        .arg(flag_argument(alloc, "big", "The sections are big-endian"))?
        .arg(flag_argument(alloc, "v4", "Units of version 4 are read too"))
}

fn path_argument<'a>(alloc: Global, name: &'a str, help: &'a str) -> Arg<'a>
    ensures rule { rule_of result ≡ optional_path name.entry.now }
    ensures local { result.global ≡ false }
{
    option_argument(alloc, name, "FILE", help)
}

fn option_argument<'a>(alloc: Global, name: &'a str, shown: &'a str, help: &'a str) -> Arg<'a>
    ensures rule { rule_of result ≡ optional_path name.entry.now }
    ensures local { result.global ≡ false }
{
    Arg::new(alloc, name)
        .long(name)
        .value_name(shown)
        .action(ArgAction::Set)
        .help(help)
}

fn required_path<'a>(alloc: Global, name: &'a str, help: &'a str) -> Arg<'a>
    ensures rule { rule_of result ≡ path_option name.entry.now }
    ensures local { result.global ≡ false }
{
    path_argument(alloc, name, help).required(true)
}

fn word_argument<'a>(alloc: Global, name: &'a str, shown: &'a str, help: &'a str) -> Arg<'a>
    ensures rule { rule_of result ≡ word name.entry.now }
    ensures local { result.global ≡ false }
{
    Arg::new(alloc, name)
        .value_name(shown)
        .required(true)
        .action(ArgAction::Set)
        .help(help)
}

fn flag_argument<'a>(alloc: Global, name: &'a str, help: &'a str) -> Arg<'a>
    ensures rule { rule_of result ≡ flag name.entry.now }
    ensures local { result.global ≡ false }
{
    Arg::new(alloc, name)
        .long(name)
        .action(ArgAction::SetTrue)
        .help(help)
}

fn read<'a>(matches: &ArgMatches<'a>) -> Result<Line<'a>, BadWord<'a>>
    requires { Meets (subcommand_rows_of matches.now) }
    ensures says { IfOk result (SaysBy (subcommand_rows_of matches.now)) }
    ensures bad { IfErr result (IsBadBy (subcommand_rows_of matches.now)) }
{
    let Some((name, options)) = matches.subcommand() else {
        unreachable!()
    };
    Ok(Line {
        command: command_named(name, options)?,
        order: order_told(options.get_str("big")),
        versions: versions_told(options.get_str("v4")),
        info: word_told(options, "info"),
        abbrev: word_told(options, "abbrev"),
        str: options.get_str("str"),
        line_str: options.get_str("line-str"),
        str_offsets: options.get_str("str-offsets"),
    })
}

fn word_told<'a>(options: &ArgMatches<'a>, name: &str) -> &'a str
    requires { is_some (first_of name.now (rows_of (found_of options.now))) ≡ true }
    ensures { first_of name.now (rows_of (found_of options.now)) ≡ Some result.now }
{
    match options.get_str(name) {
        Some(path) => path,
        None => unreachable!(),
    }
}

fn command_named<'a>(name: &str, options: &ArgMatches<'a>) -> Result<Command<'a>, BadWord<'a>>
    requires known { IsOneOf names name.now }
    requires words { HasWords name.now (rows_of (found_of options.now)) }
    ensures told { IfOk result (IsCommand name.now (rows_of (found_of options.now))) }
    ensures bad { IfErr result (λ bad. IsBadAt bad.argument name.now (rows_of (found_of options.now)) bad.word.now) }
{
    if name == "show" {
        Ok(Command::Show)
    } else if name == "find" {
        Ok(Command::Find(word_told(options, "name").as_bytes()))
    } else if name == "type" {
        Ok(Command::TypeOf(offset_told(options)?))
    } else if name == "check" {
        Ok(Command::Check)
    } else if name == "set" {
        edit_told(options)
    } else {
        Ok(Command::Copy)
    }
}

fn edit_told<'a>(options: &ArgMatches<'a>) -> Result<Command<'a>, BadWord<'a>>
    requires offset { IsGiven (rows_of (found_of options.now)) (codes "offset") }
    requires attribute { IsGiven (rows_of (found_of options.now)) (codes "attribute") }
    requires value { IsGiven (rows_of (found_of options.now)) (codes "value") }
    ensures told { IfOk result (IsCommand (codes "set") (rows_of (found_of options.now))) }
    ensures bad { IfErr result (λ bad. IsBadAt bad.argument (codes "set")
        (rows_of (found_of options.now)) bad.word.now) }
{
    let offset = offset_told(options)?;
    let name = attribute_told(options)?;
    let value = value_told(options)?;
    Ok(Command::SetNumber {
        offset,
        name,
        value,
    })
}

fn offset_told<'a>(options: &ArgMatches<'a>) -> Result<u64, BadWord<'a>>
    requires { IsGiven (rows_of (found_of options.now)) (codes "offset") }
    ensures told { IfOk result (λ offset. offset_given (rows_of (found_of options.now)) ≡ Some offset) }
    ensures bad { IfErr result (IsBadWord Offset offset_in (codes "offset") (rows_of (found_of options.now))) }
{
    let word = word_told(options, "offset");
    match offset_of(word) {
        Some(offset) => Ok(offset),
        None => Err(BadWord {
            argument: Argument::Offset,
            word,
        }),
    }
}

fn attribute_told<'a>(options: &ArgMatches<'a>) -> Result<u64, BadWord<'a>>
    requires { IsGiven (rows_of (found_of options.now)) (codes "attribute") }
    ensures told { IfOk result (λ attribute. attribute_given (rows_of (found_of options.now)) ≡ Some attribute) }
    ensures bad { IfErr result (IsBadWord Attribute attribute_in (codes "attribute") (rows_of (found_of options.now))) }
{
    let word = word_told(options, "attribute");
    match attribute_of(word) {
        Some(attribute) => Ok(attribute),
        None => Err(BadWord {
            argument: Argument::Attribute,
            word,
        }),
    }
}

fn value_told<'a>(options: &ArgMatches<'a>) -> Result<i128, BadWord<'a>>
    requires { IsGiven (rows_of (found_of options.now)) (codes "value") }
    ensures told { IfOk result (λ value. value_given (rows_of (found_of options.now)) ≡ Some value) }
    ensures bad { IfErr result
        (IsBadWord Value (value_read (rows_of (found_of options.now))) (codes "value")
        (rows_of (found_of options.now))) }
{
    let word = word_told(options, "value");
    match value_of(word, is_minus(options)) {
        Some(value) => Ok(value),
        None => Err(BadWord {
            argument: Argument::Value,
            word,
        }),
    }
}

fn is_minus(options: &ArgMatches<'_>) -> bool
    ensures { result ≡ is_set (first_of (codes "minus") (rows_of (found_of options.now))) }
{
    is_given(options.get_str("minus"))
}

fn order_told(flag: Option<&str>) -> Order
    ensures { result ≡ order_by (option_map (λ text. text.now) flag.entry) }
{
    if is_given(flag) {
        Order::Big
    } else {
        Order::Little
    }
}

fn versions_told(flag: Option<&str>) -> Versions
    ensures { result ≡ versions_by (option_map (λ text. text.now) flag.entry) }
{
    if is_given(flag) {
        Versions::FourAndFive
    } else {
        Versions::Five
    }
}

// A flag that was given has the value `true`.
fn is_given(flag: Option<&str>) -> bool
    ensures { result ≡ is_set (option_map (λ text. text.now) flag.entry) }
{
    match flag {
        Some(value) => value == "true",
        None => false,
    }
}

//! The program `dwarf`: reads and writes DWARF 5 debugging entries. It ends with status 0 where all
//! is well, 1 where the sections are refused, 2 where the command line is, 3 where a file or the
//! output failed, and 4 where there was no memory, and says why on standard error. Which status and
//! which line that is, `dw_tool::failure` and `dw_cli::outcome` say.
#![tactic(auto)]

ghost use Rattle.std.specs.Prelude.{◌≡◌, map};
ghost use Rattle.dw_cli.specs.Run.{EndsLine, EndsWith};
ghost use Rattle.dw_tool.specs.Failure.{exit_status};

use dw_cli::line::{line, unreadable};
use dw_cli::outcome::{Line, LineError};
use dw_cli::run::run_line;
use dw_leb::Watched;
use dw_tool::failure::{Failure, exit_status};
use dw_tool::status::Status;
use std::io::{BufReader, BufWriter, Write};
use std::process::ExitCode;
use std::rt::{Env, Files};
use std::{env, fs, io};

/// As many bytes of `.debug_info` are asked for at once.
const PIECE: usize = 65_536;

fn main(rt: HostRuntime) -> ExitCode {
    ExitCode::from(act(&rt))
}

// Does what the words after the program's name say, and gives the exit status.
fn act(rt: &(impl AllocGlobal + Env + Files + Print + Eprint)) -> u8 {
    match words(rt) {
        Ok(words) => act_on_words(rt, words.as_slice()),
        Err(error) => refused(rt, unreadable(rt.alloc(), error.kind())),
    }
}

// The words after the program's name.
fn words(rt: &(impl AllocGlobal + Env)) -> io::Result<Vec<String>> {
    Ok(env::args(rt)?.skip(1).collect(rt.alloc())?)
}

fn act_on_words(rt: &(impl AllocGlobal + Files + Print + Eprint), words: &[String]) -> u8 {
    let Ok(texts) = words
        .iter()
        .map(|word| word.as_str())
        .collect::<Vec<&str>>(rt.alloc())
    else {
        return ended(rt, Err(Failure::Memory));
    };
    act_on_texts(rt, texts.as_slice())
}

fn act_on_texts<'a>(rt: &(impl AllocGlobal + Files + Print + Eprint), texts: &'a [&'a str]) -> u8
    ensures { EndsLine (map (λ word. word.now) texts.now) result }
{
    match line(rt.alloc(), texts) {
        Ok(line) => ended(rt, act_on(rt, &line)),
        Err(error) => refused(rt, error),
    }
}

// The bytes of the files that are read whole, in their order.
fn read_files<'a>(
    rt: &(impl AllocGlobal + Files),
    line: &Line<'a>,
) -> Result<Vec<Vec<u8>>, Failure<'a>> {
    let mut files = Vec::new(rt.alloc());
    for path in line.whole_files() {
        if files.push(read_optional(rt, path)?).is_err() {
            return Err(Failure::Memory);
        }
    }
    Ok(files)
}

fn read_file<'a>(rt: &(impl AllocGlobal + Files), path: &'a str) -> Result<Vec<u8>, Failure<'a>> {
    fs::read(rt, path).map_err(|e| Failure::of_file(path, e.kind()))
}

// A section of which no file is named is empty.
fn read_optional<'a>(
    rt: &(impl AllocGlobal + Files),
    path: Option<&'a str>,
) -> Result<Vec<u8>, Failure<'a>> {
    match path {
        Some(path) => read_file(rt, path),
        None => Ok(Vec::new(rt.alloc())),
    }
}

fn act_on<'a>(
    rt: &(impl AllocGlobal + Files + Print),
    line: &Line<'a>,
) -> Result<Status, Failure<'a>> {
    let files = read_files(rt, line)?;
    let info = fs::open(rt, line.info).map_err(|e| Failure::of_file(line.info, e.kind()))?;
    let Ok(info) = BufReader::with_capacity(rt.alloc(), PIECE, info) else {
        return Err(Failure::Memory);
    };
    let output = BufWriter::new(rt.alloc(), io::writer(rt));
    let mut output = Watched::new(output.map_err(|e| Failure::of_output(e.kind()))?);
    let mut info = Watched::new(info);
    let status = run_line(rt.alloc(), line, files.as_slice(), &mut info, &mut output)?;
    let flushed = output.into_inner().flush();
    flushed.map_err(|e| Failure::of_output(e.kind()))?;
    Ok(status)
}

// Says why words aren't taken, or prints the help that they ask for, and gives the exit status.
fn refused(rt: &(impl Print + Eprint), error: LineError<'_>) -> u8
    ensures { EndsWith error.entry result }
{
    let printed = match &error {
        LineError::Parse(error) => error.print(rt),
        LineError::BadWord(bad) => eprint!(rt; "{bad}"),
        LineError::Memory => Ok(()),
    };
    match error.ended(printed) {
        Ok(status) => status,
        Err(failure) => ended(rt, Err(failure)),
    }
}

// Says why the program gave up, where it did, and gives the exit status.
fn ended(rt: &impl Eprint, outcome: Result<Status, Failure<'_>>) -> u8
    ensures { result ≡ exit_status outcome.entry }
{
    if let Err(failure) = &outcome {
        let _printed = eprintln!(rt; "{failure}");
    }
    exit_status(outcome)
}

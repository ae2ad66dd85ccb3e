//! What the words of a command line ask for.
ghost use Rattle.std.specs.Prelude.{◌≡◌, ◌≢◌, [], Bool, true, false};
ghost use Rattle.clap.specs.Values.{kind_of};
ghost use Rattle.clap.specs.declared.error.kind.ErrorKind.TheVariants.{OutOfMemory};
ghost use Rattle.tera_cli.specs.Choice.{Asks, IsShown, interactive, names_file, reasons};
ghost use Rattle.tera_cli.specs.declared.words.Wanted.TheVariants.{Conversation, Explained, Files};
ghost use Rattle.tera_cli.specs.declared.words.Wanted.TheVariants.{Input, NoMemory, Refused, Told};

use clap::error::ErrorKind;
use clap::{Arg, ArgAction, ArgMatches, Command, Error};
use std::alloc::{AllocError, Global};

/// The version that `--version` tells, which is that of the file VERSION.
const VERSION: &str = "0.2.0";

/// What the words of a command line ask for.
#[derive(Drop)]
pub(crate) enum Wanted<'a> {
    /// One script, from standard input.
    Input,
    /// A script of each value of `FILE` in turn.
    Files(ArgMatches<'a>),
    /// The same, or one from standard input, with what was expected of a bad line.
    Explained(ArgMatches<'a>),
    /// A conversation, with what was expected of bad lines or without.
    Conversation(bool),
    /// No script, but this text on standard output.
    Told(Error),
    /// Nothing, since the words are bad; this text says why.
    Refused(Error),
    /// Nothing, since no memory was found to read the words.
    NoMemory,
}

/// What these words ask for, which stand behind the program's name. Takes no memory where there
/// are none.
pub(crate) fn wanted_by<'a>(alloc: Global, words: &'a [String]) -> Wanted<'a>
    ensures { words.entry.now ≡ [] → result ≡ Input }
{
    if words.is_empty() {
        return Wanted::Input;
    }
    match matches_of(alloc, words) {
        Ok(matches) => choice_of(matches),
        Err(error) => refused(error),
    }
}

/// What is asked for by words of which one is no UTF-8.
pub(crate) fn wanted_by_no_text<'a>(alloc: Global) -> Wanted<'a> {
    match no_text_error(alloc) {
        Ok(error) => Wanted::Refused(error),
        Err(_) => Wanted::NoMemory,
    }
}

// What is asked for by words that are understood.
fn choice_of<'a>(matches: ArgMatches<'a>) -> Wanted<'a>
    ensures conversation { (why : Bool) → Asks matches.entry interactive true
        → Asks matches.entry reasons why → result ≡ Conversation why }
    ensures explained { Asks matches.entry interactive false → Asks matches.entry reasons true
        → result ≡ Explained matches.entry }
    ensures files { Asks matches.entry interactive false → Asks matches.entry reasons false
        → names_file matches.entry ≡ true → result ≡ Files matches.entry }
    ensures input { Asks matches.entry interactive false → Asks matches.entry reasons false
        → names_file matches.entry ≡ false → result ≡ Input }
{
    let why = matches.get_flag("why");
    if matches.get_flag("interactive") {
        Wanted::Conversation(why)
    } else if why {
        Wanted::Explained(matches)
    } else if matches.contains_id("FILE") {
        Wanted::Files(matches)
    } else {
        Wanted::Input
    }
}

// What comes of words that ask for no script.
fn refused<'a>(error: Error) -> Wanted<'a>
    ensures told { IsShown (kind_of error) → result ≡ Told error }
    ensures want { kind_of error ≡ OutOfMemory → result ≡ NoMemory }
    ensures bad { ¬ IsShown (kind_of error) → kind_of error ≢ OutOfMemory
        → result ≡ Refused error }
{
    match error.kind() {
        ErrorKind::DisplayHelp | ErrorKind::DisplayVersion => Wanted::Told(error),
        ErrorKind::OutOfMemory => Wanted::NoMemory,
        _ => Wanted::Refused(error),
    }
}

// What the words say, where the command line takes them.
fn matches_of<'a>(alloc: Global, words: &'a [String]) -> Result<ArgMatches<'a>, Error> {
    let mut command = command(alloc)?;
    let matches = command.try_get_matches_from_mut(words)?;
    if matches.get_flag("interactive") && matches.contains_id("FILE") {
        let message = "'--interactive' takes no [FILE]";
        return Err(command.error(ErrorKind::ArgumentConflict, message)?);
    }
    Ok(matches)
}

// That an argument is no text.
fn no_text_error(alloc: Global) -> Result<Error, AllocError> {
    let mut command = command(alloc)?;
    command.error(ErrorKind::InvalidValue, "an argument is no UTF-8")
}

// What the command line takes.
fn command<'a>(alloc: Global) -> Result<Command<'a>, AllocError> {
    let files = Arg::new(alloc, "FILE")
        .action(ArgAction::Append)
        .num_args(0..)
        .help("Scripts, each from no names; `-` is standard input [default: -]");
    let interactive = Arg::new(alloc, "interactive")
        .short('i')
        .long("interactive")
        .action(ArgAction::SetTrue)
        .help("Ask for lines, and go on behind a bad one; `:help` shows more");
    let why = Arg::new(alloc, "why")
        .long("why")
        .action(ArgAction::SetTrue)
        .help("Tell of a bad line what was expected, and where");
    Command::new(alloc, "tera")
        .no_binary_name(true)
        .version(VERSION)
        .about("Replays scripts of calls on values of the template engine Tera.")
        .arg(files)?
        .arg(interactive)?
        .arg(why)
}

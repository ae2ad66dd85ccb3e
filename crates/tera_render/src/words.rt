//! What the words of a command line ask for.
ghost use Rattle.std.specs.Prelude.{◌≡◌, ◌≢◌};
ghost use Rattle.clap.specs.Values.{kind_of};
ghost use Rattle.clap.specs.declared.error.kind.ErrorKind.TheVariants.{OutOfMemory};
ghost use Rattle.tera_render.specs.Words.{IsShown};
ghost use Rattle.tera_render.specs.declared.words.Wanted.TheVariants.{NoMemory, Refused, Told};

use clap::error::ErrorKind;
use clap::{Arg, ArgAction, Command, Error};
use std::alloc::{AllocError, Global};

/// What the words of a command line ask for.
#[derive(Drop)]
pub(crate) enum Wanted<'a> {
    /// A page, of the template of that name and maybe of a document.
    Page(&'a str, Option<&'a str>),
    /// No page, but this text on standard output.
    Told(Error),
    /// Nothing, since the words are bad; this text says why.
    Refused(Error),
    /// Nothing, since no memory was found to read the words.
    NoMemory,
}

/// What these words ask for, which stand behind the program's name.
pub(crate) fn wanted_by<'a>(alloc: Global, words: &'a [String]) -> Wanted<'a> {
    match page_in(alloc, words) {
        Ok((page, data)) => Wanted::Page(page, data),
        Err(error) => refused_words(error),
    }
}

/// What is asked for by words of which one is no UTF-8.
pub(crate) fn wanted_by_no_text<'a>(alloc: Global) -> Wanted<'a> {
    match error_of(alloc, ErrorKind::InvalidValue, "an argument is no UTF-8") {
        Ok(error) => Wanted::Refused(error),
        Err(_) => Wanted::NoMemory,
    }
}

// What comes of words that ask for no page.
fn refused_words<'a>(error: Error) -> Wanted<'a>
    ensures told { IsShown (kind_of error) → result ≡ Told error }
    ensures want { kind_of error ≡ OutOfMemory → result ≡ NoMemory }
    ensures bad { ¬ IsShown (kind_of error) → kind_of error ≢ OutOfMemory
        → result ≡ Refused error }
{
    match error.kind() {
        ErrorKind::DisplayHelp | ErrorKind::DisplayVersion => Wanted::Told(error),
        ErrorKind::OutOfMemory => Wanted::NoMemory,
        _ => Wanted::Refused(error),
    }
}

// The names that the words have, of a template and maybe of a document.
fn page_in<'a>(alloc: Global, words: &'a [String]) -> Result<(&'a str, Option<&'a str>), Error> {
    let mut command = command(alloc)?;
    let matches = command.try_get_matches_from_mut(words)?;
    match matches.get_str("PAGE") {
        Some(page) => Ok((page, matches.get_str("DATA"))),
        None => Err(command.error(ErrorKind::MissingRequiredArgument, "no [PAGE] is given")?),
    }
}

// An error of that kind, which says this.
fn error_of(alloc: Global, kind: ErrorKind, says: &'static str) -> Result<Error, AllocError> {
    let mut command = command(alloc)?;
    command.error(kind, says)
}

// What the command line takes.
fn command<'a>(alloc: Global) -> Result<Command<'a>, AllocError> {
    let page = Arg::new(alloc, "PAGE")
        .required(true)
        .action(ArgAction::Set)
        .help("The template; `-` is standard input");
    let data = Arg::new(alloc, "DATA").action(ArgAction::Set).help(
        "A JSON object, whose members are the names of the page; `-` is standard input",
    );
    Command::new(alloc, "tera_render")
        .no_binary_name(true)
        .about("Renders a page: a template, over the names that a document gives.")
        .arg(page)?
        .arg(data)
}

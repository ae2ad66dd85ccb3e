//! The program for people: scripts of files or of standard input, and a conversation.
#![tactic(auto)]

ghost use Rattle.std.specs.Prelude.{⊤};

mod conversation;
mod diagnostics;
mod files;
mod lines;
mod load;
mod names;
mod obey;
mod order;
mod saved;
mod scripts;
mod words;

use clap::ArgMatches;
use conversation::{Manner, converse};
use files::Files;
use scripts::{explain_each, replay_each};
use std::env::{Env, FillError};
use std::fs::{File, OpenFile};
use std::io::{BufReader, BufWriter, ErrorKind, IsTerminal, Read, Stdin, Stdout, Write};
use std::process::ExitCode;
use std::{env, fs, io};
use tera_replies::replay;
use tera_report::sink::Sink;
use tera_report::watch::Watched;
use tera_values::HashState;
use words::{Wanted, wanted_by, wanted_by_no_text};

fn main(rt: HostRuntime) -> ExitCode {
    // Nobody who writes a script knows the state, so none can make names or keys that collide.
    let state = HashState::random(&rt);
    let has_words = !matches!(rt.arg(1, &mut []), Err(FillError::NotPresent));
    let status = if has_words {
        run_words(&rt, state)
    } else {
        run_input(&rt, state)
    };
    ExitCode::from(status)
}

// Reads the words, and does what they ask for.
fn run_words(rt: &HostRuntime, state: HashState) -> u8 {
    match env::args(rt) {
        Ok(args) => match args.skip(1).collect::<Vec<String>>(rt.alloc()) {
            Ok(words) => run(rt, state, wanted_by(rt.alloc(), words.as_slice())),
            Err(_) => run(rt, state, Wanted::NoMemory),
        },
        Err(error) if matches!(error.kind(), ErrorKind::InvalidData) => {
            run(rt, state, wanted_by_no_text(rt.alloc()))
        }
        Err(_) => run(rt, state, Wanted::NoMemory),
    }
}

// Does what is wanted, and answers the exit status.
fn run(rt: &HostRuntime, state: HashState, wanted: Wanted<'_>) -> u8 {
    match wanted {
        Wanted::Input => run_input(rt, state),
        Wanted::Files(matches) => run_files(rt, state, false, &matches),
        Wanted::Explained(matches) => run_files(rt, state, true, &matches),
        Wanted::Conversation(why) => run_conversation(rt, state, why),
        Wanted::Told(text) => match rt.print(&text) {
            Ok(()) => 0,
            Err(_) => tell(rt, "error: writing failed\n", 1),
        },
        Wanted::Refused(text) => {
            let _ = rt.eprint(&text);
            3
        }
        Wanted::NoMemory => no_memory(rt),
    }
}

// Replays standard input.
fn run_input(rt: &HostRuntime, state: HashState) -> u8 {
    match buffered(rt) {
        Ok(mut out) => replay(rt.alloc(), state, rt.stdin(), &mut out, &mut rt.stderr()),
        Err(_) => no_memory(rt),
    }
}

// Replays files in turn, or standard input where none is named.
fn run_files(rt: &HostRuntime, state: HashState, why: bool, matches: &ArgMatches<'_>) -> u8 {
    let names = matches.get_strs("FILE").unwrap_or(&["-"]);
    let mut stderr = rt.stderr();
    let mut err = Watched::new(&mut stderr);
    match buffered(rt) {
        Ok(mut buffer) => {
            let mut out = Watched::new(&mut buffer);
            if why {
                explain_each(rt.alloc(), state, &Disk { rt }, names, &mut out, &mut err)
            } else {
                replay_each(rt.alloc(), state, &Disk { rt }, names, &mut out, &mut err)
            }
        }
        Err(_) => no_memory(rt),
    }
}

// Holds a conversation with standard input.
fn run_conversation(rt: &HostRuntime, state: HashState, why: bool) -> u8 {
    let prompt = if rt.stdin().is_terminal() {
        "tera> "
    } else {
        ""
    };
    let mut stderr = rt.stderr();
    let mut err = Watched::new(&mut stderr);
    match (BufReader::new(rt.alloc(), rt.stdin()), buffered(rt)) {
        (Ok(mut input), Ok(mut buffer)) => {
            let mut out = Watched::new(&mut buffer);
            let manner = Manner { prompt, why };
            converse(
                rt.alloc(),
                state,
                manner,
                &mut Disk { rt },
                &mut input,
                &mut out,
                &mut err,
            )
        }
        _ => no_memory(rt),
    }
}

// Standard output behind a buffer.
fn buffered(rt: &HostRuntime) -> io::Result<BufWriter<Stdout>> {
    BufWriter::new(rt.alloc(), rt.stdout())
}

fn no_memory(rt: &HostRuntime) -> u8 {
    tell(rt, "error: Out of memory\n", 1)
}

// Tells why the program ends, where standard error takes it, and answers the status.
fn tell(rt: &HostRuntime, text: &str, status: u8) -> u8 {
    let mut stderr = rt.stderr();
    let _ = Watched::new(&mut stderr).put(text);
    status
}

/// A script that is open.
#[derive(Drop)]
enum Script {
    Input(Stdin),
    File(File),
}

impl Read for Script {
    fn read(&mut self, buf: &mut [u8]) -> io::Result<usize> {
        match self {
            Script::Input(input) => input.read(buf),
            Script::File(file) => file.read(buf),
        }
    }
}

/// The files of the system.
#[derive(Drop)]
struct Disk<'a> {
    rt: &'a HostRuntime,
}

/// `-` is standard input, and where it is written standard output; each other name is that of a
/// file. A folder is no script.
impl Files for Disk<'_> {
    type Script = Script;

    type Lines = BufReader<Script>;

    // of files no clause can say more
    ghost opened = { λ _ _ _. ⊤ };

    ghost opened_lines = { λ _ _ _. ⊤ };

    ghost wrote = { λ _ _ _ _ _. ⊤ };

    fn open(&self, name: &str) -> Option<Script> {
        if name == "-" {
            return Some(Script::Input(self.rt.stdin()));
        }
        let file = fs::open(self.rt, name).ok()?;
        if file.metadata().ok()?.is_dir() {
            return None;
        }
        Some(Script::File(file))
    }

    fn open_lines(&self, name: &str) -> Option<BufReader<Script>> {
        let script = self.open(name)?;
        BufReader::new(self.rt.alloc(), script).ok()
    }

    fn write(&mut self, name: &str, text: &str) -> bool {
        if name == "-" {
            return self.rt.stdout().write_all(text.as_bytes()).is_ok();
        }
        fs::write(self.rt, name, text).is_ok()
    }
}

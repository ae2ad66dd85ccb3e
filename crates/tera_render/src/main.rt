//! The program that renders pages: a template and a document of names in, a page out.
#![tactic(auto)]

ghost use Rattle.std.specs.Prelude.{⊤};

mod fault;
mod names;
mod page;
mod render;
mod texts;
mod words;

use fault::Unread;
use render::render_named;
use std::env::FillError;
use std::io::{ErrorKind, Read};
use std::process::ExitCode;
use std::{env, fs, io};
use tera::sink::Sink;
use tera::value::HashState;
use tera::watch::Watched;
use texts::Texts;
use words::{Wanted, wanted_by, wanted_by_no_text};

fn main(rt: HostRuntime) -> ExitCode {
    // Nobody who writes a document knows the state, so none can make names or keys that collide.
    let state = HashState::random(&rt);
    ExitCode::from(run_words(&rt, state))
}

// Reads the words, and does what they ask for.
fn run_words(rt: &HostRuntime, state: HashState) -> u8 {
    match env::args(rt) {
        Ok(args) => match args.skip(1).collect::<Vec<String>>(rt.alloc()) {
            Ok(words) => run(rt, state, wanted_by(rt.alloc(), words.as_slice())),
            Err(_) => run(rt, state, Wanted::NoMemory),
        },
        Err(error) if matches!(error.kind(), ErrorKind::InvalidData) => {
            run(rt, state, wanted_by_no_text(rt.alloc()))
        }
        Err(_) => run(rt, state, Wanted::NoMemory),
    }
}

// Does what is wanted, and answers the exit status.
fn run(rt: &HostRuntime, state: HashState, wanted: Wanted<'_>) -> u8 {
    match wanted {
        Wanted::Page(page, data) => run_page(rt, state, page, data),
        Wanted::Told(text) => match rt.print(&text) {
            Ok(()) => 0,
            Err(_) => tell(rt, "error: writing failed\n", 1),
        },
        Wanted::Refused(text) => {
            let _ = rt.eprint(&text);
            3
        }
        Wanted::NoMemory => tell(rt, "error: Out of memory\n", 1),
    }
}

// Renders a page to standard output.
fn run_page(rt: &HostRuntime, state: HashState, page: &str, data: Option<&str>) -> u8 {
    let mut stdout = rt.stdout();
    let mut stderr = rt.stderr();
    let mut out = Watched::new(&mut stdout);
    let mut err = Watched::new(&mut stderr);
    render_named(rt.alloc(), state, rt, page, data, &mut out, &mut err)
}

// Tells why the program ends, where standard error takes it, and answers the status.
fn tell(rt: &HostRuntime, text: &str, status: u8) -> u8 {
    let mut stderr = rt.stderr();
    let _ = Watched::new(&mut stderr).put(text);
    status
}

/// `-` is standard input, and each other name that of a file.
impl Texts for HostRuntime {
    // of files no clause can say more
    ghost gave = { λ _ _ _. ⊤ };

    fn text(&self, name: &str) -> Result<String, Unread> {
        let read = if name == "-" {
            io::read_to_string(self.alloc(), self.stdin())
        } else {
            fs::read_to_string(self, name)
        };
        match read {
            Ok(text) => Ok(text),
            Err(error) => match error.kind() {
                ErrorKind::OutOfMemory => Err(Unread::NoMemory),
                _ => Err(Unread::Failed),
            },
        }
    }
}

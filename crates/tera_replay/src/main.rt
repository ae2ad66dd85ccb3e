//! The program: reads a script from standard input, and writes what each of its calls answers.
#![tactic(auto)]

ghost use Rattle.std.specs.Prelude.{◌≡◌, ◌≤◌, IfNone, codes};
ghost use Rattle.tera_replay.specs.Buffered.{buffer_streams};
ghost use Rattle.tera_replies.specs.Output.{WriterTakesOrFails};
ghost use Rattle.tera_replies.specs.Replay.{ReplaysGiven, ReplaysKnown};
ghost use Rattle.tera_replies.specs.Streams.{reads_dropped, writer_streams};

use std::alloc::Global;
use std::io::{BufWriter, Write};
use std::process::ExitCode;
use tera_replies::{Source, replay};
use tera_report::watch::{Watched, Writer};
use tera_values::HashState;

fn main(rt: HostRuntime) -> ExitCode {
    // Nobody who writes a script knows the state, so none can make names or keys that collide.
    let state = HashState::random(&rt);
    let mut err = rt.stderr();
    let out = BufWriter::new(rt.alloc(), rt.stdout()).ok();
    let (status, _buffer) = replay_buffered(rt.alloc(), state, rt.stdin(), out, &mut err);
    ExitCode::from(status)
}

/// Replays a script to a buffer, as `replay` does, and gives the status and the buffer as the
/// replay left it. Where no memory was found for one, so that there is none, `err` gets
/// `error: Out of memory`, and the status is 1.
fn replay_buffered<S: Source + Drop, B: Writer + Drop, E: Writer>(
    alloc: Global,
    state: HashState,
    input: S,
    out: Option<B>,
    err: &mut E,
) -> (u8, Option<B>)
    ensures known { ReplaysKnown S.Source input (reads_dropped S.gave input)
        (buffer_streams B.Writer out result.1 E.Writer err.old err.new) result.0 }
    ensures given { (last : S) × ReplaysGiven S.Source input last
        (buffer_streams B.Writer out result.1 E.Writer err.old err.new) result.0 }
    ensures none { IfNone out ((result.0 ≡ 1) × WriterTakesOrFails E.contents E.wrote
        err.old (codes "error: Out of memory\n") err.new) }
    ensures status { result.0 ≤ 2 }
    ensures silent { result.0 ≡ 0 → err.new ≡ err.old }
{
    match out {
        Some(buffer) => {
            let (status, buffered) = replay_to(alloc, state, input, buffer, err);
            (status, Some(buffered))
        }
        None => {
            let status = tell_no_memory(err);
            (status, None)
        }
    }
}

/// Replays a script to a buffer that is there, and gives the status and the buffer.
#[inline(always)]
fn replay_to<S: Source + Drop, B: Writer, E: Writer>(
    alloc: Global,
    state: HashState,
    input: S,
    buffer: B,
    err: &mut E,
) -> (u8, B)
    ensures known { ReplaysKnown S.Source input (reads_dropped S.gave input)
        (writer_streams B.Writer buffer result.1 E.Writer err.old err.new) result.0 }
    ensures given { (last : S) × ReplaysGiven S.Source input last
        (writer_streams B.Writer buffer result.1 E.Writer err.old err.new) result.0 }
    ensures status { result.0 ≤ 2 }
    ensures silent { result.0 ≡ 0 → err.new ≡ err.old }
{
    let mut buffered = buffer;
    let status = replay(alloc, state, input, &mut buffered, err);
    (status, buffered)
}

/// Tells that no memory was found, where the writer takes it, and answers the status. Takes no
/// memory.
fn tell_no_memory<E: Writer>(err: &mut E) -> u8
    ensures told { WriterTakesOrFails E.contents E.wrote err.old (codes "error: Out of memory\n")
        err.new }
    ensures status { result ≡ 1 }
{
    let _ = Watched::new(err).write_all(b"error: Out of memory\n");
    1
}

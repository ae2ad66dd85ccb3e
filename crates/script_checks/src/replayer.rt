//! A replay whose script comes in pieces.
use std::alloc::Global;
use tera_replies::{Fault, Replayer};
use tera_report::sink::Growing;
use tera_values::HashState;

const PIECED: &str = "set a 1\nprint a\nhas b\nprint a";

const ANSWERED: &str = "ok\ntext 1\nfalse\ntext 1\n";

// Whether a replayer that takes this script in two pieces holds what was read of a line between
// them, knows the name that is set, and answers each line.
fn is_taken(alloc: Global, at: usize) -> Result<bool, Fault> {
    let mut out = Growing::new(alloc);
    let mut replayer = Replayer::new(alloc, HashState::fixed());
    let script = PIECED.as_bytes();
    let (front, back) = script.split_at(at.min(script.len()));
    replayer.take(alloc, front, &mut out)?;
    let held = replayer.part().len();
    replayer.take(alloc, back, &mut out)?;
    let is_known = replayer.context().contains_key("a");
    let has_wanted = replayer.finish(alloc, &mut out)?;
    let is_answered = out.as_str() == ANSWERED;
    Ok(held == behind_line_feed(front) && is_known && !has_wanted && is_answered)
}

// How many bytes stand behind the last line feed.
fn behind_line_feed(bytes: &[u8]) -> usize {
    let mut count: usize = 0;
    for byte in bytes {
        count = if *byte == b'\n' {
            0
        } else {
            count.saturating_add(1)
        };
    }
    count
}

#[test]
fn a_replayer_takes_a_script_cut_anywhere(rt: HostRuntime) {
    let alloc = rt.alloc();
    for at in 0..PIECED.len() {
        assert!(rt; is_taken(alloc, at).unwrap_or(false), "{at}");
    }
}

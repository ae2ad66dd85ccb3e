//! The states that keys and names are hashed under: who keeps them, and what they hash to.
use crate::contexts::answers;
use std::alloc::Global;
use std::hash::{BuildHasher, Hasher, RandomState};
use std::io;
use std::random::RandomSource;
use tera_context::Context;
use tera_values::{HashState, Value};

// A state of bytes that are all the same.
fn state_of_bytes(byte: u8) -> HashState {
    HashState::from_bytes(&[byte; 16])
}

// What it makes of one byte, by which two states are told apart.
fn trace(state: HashState) -> u64 {
    state.hash_one(1u8)
}

// The map of a line that is read for a context has the context's state, and so have clones.
fn keeps_its_state(alloc: Global, byte: u8) -> Option<bool> {
    let wanted = trace(state_of_bytes(byte));
    let mut context = Context::with_hasher(alloc, state_of_bytes(byte));
    let is_set = answers(
        alloc,
        &mut context,
        "set m {\"a\": [{\"b\": 1}]}",
        "Ok(Done)",
    );
    let copy = context.clone().ok()?;
    drop(context);
    let traces = [
        trace(copy.hasher()),
        map_trace(copy.get("m"))?,
        map_trace(copy.get("m")?.get_from_path("a.0"))?,
    ];
    drop(copy);
    Some(is_set && traces == [wanted; 3])
}

fn map_trace(value: Option<&Value>) -> Option<u64> {
    Some(trace(value?.as_map()?.hasher()))
}

#[test]
fn states_are_kept_and_told_apart(rt: HostRuntime) {
    let alloc = rt.alloc();
    assert!(rt; keeps_its_state(alloc, 7) == Some(true));
    assert!(rt; trace(state_of_bytes(7)) != trace(state_of_bytes(8)));
    assert!(rt; trace(state_of_bytes(0)) == trace(HashState::fixed()));
    assert!(rt; trace(HashState::random(&rt)) != trace(HashState::random(&rt)));
}

// Gives bytes that are all the same.
#[derive(Drop)]
struct Same(u8);

impl RandomSource for Same {
    fn fill_bytes(&self, buf: &mut [u8]) -> io::Result<()> {
        buf.fill(self.0);
        Ok(())
    }
}

// The hash of 263 bytes that are all the same: of 32 words, and of a last one, which std's hasher
// makes of 7 bytes and their number too.
fn hash_of_words<S: BuildHasher>(state: &S) -> u64 {
    let mut hasher = state.build_hasher();
    hasher.write(&[5; 263]);
    hasher.finish()
}

// The same by std's hasher, under the keys that such a source gives.
fn std_hash_of_words(byte: u8) -> Option<u64> {
    Some(hash_of_words(&RandomState::new(&Same(byte)).ok()?))
}

#[test]
fn words_are_hashed_as_std_hashes_them(rt: HostRuntime) {
    for byte in [0, 7, 200] {
        let hash = hash_of_words(&HashState::random(&Same(byte)));
        assert!(rt; Some(hash) == std_hash_of_words(byte), "{byte}");
    }
}

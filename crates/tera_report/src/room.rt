//! A text in a room of fixed size.
ghost use Rattle.std.specs.Prelude.{◌≡◌, ◌+◌, ◌-◌, ◌≤◌, [], IfOk, IsOk, OnErr, string_bytes};
ghost use Rattle.std.specs.Prelude.{string_len, string_capacity};

use std::alloc::{AllocError, Global};

/// A text did not fit.
#[derive(Debug, Drop)]
pub struct Full;

/// A text that has room for so many bytes and takes no more.
#[derive(Drop)]
pub struct Room {
    text: String,
    size: usize,
    pub ghost reserved: { size ≤ string_capacity text },
    pub ghost within: { string_len text ≤ size },
}

impl Room {
    ghost use Rattle.tera_report.specs.Room.{room_bytes, room_len, room_size, RoomTakes, RoomFails};
    ghost use Rattle.tera_report.specs.Sink.{PutsThese};

    /// An empty text with room for so many bytes. The only refusal is want of memory for these.
    pub fn new(alloc: Global, size: usize) -> Result<Room, AllocError>
        ensures empty { IfOk result (λ room. room_bytes room ≡ []) }
        ensures len { IfOk result (λ room. room_len room ≡ 0) }
        ensures size { IfOk result (λ room. room_size room ≡ size) }
        ensures succeeds { size ≡ 0 → IsOk result }
    {
        Ok(Room {
            text: String::with_capacity(alloc, size)?,
            size,
        })
    }

    /// The text so far. Takes no memory.
    pub fn as_str(&self) -> &str
        ensures { result.now ≡ room_bytes self.now }
    {
        self.text.as_str()
    }

    /// How many more bytes fit. Takes no memory.
    pub fn left(&self) -> usize
        ensures { room_len self.now + result ≡ room_size self.now }
    {
        self.size - self.text.len()
    }

    // Takes a text exactly where it fits.
    pub(crate) fn push(&mut self, text: &str) -> Result<(), Full>
        ensures puts { PutsThese RoomTakes RoomFails result text.now self.old self.new }
        ensures unchanged { OnErr result (room_bytes self.new ≡ room_bytes self.old) }
    {
        if self.left() < text.len() {
            return Err(Full);
        }
        match self.text.push_str(text) {
            Ok(()) => Ok(()),
            Err(_) => Err(Full),
        }
    }

    /// The text. Takes no memory.
    pub fn into_text(self) -> String
        ensures { string_bytes result ≡ room_bytes self }
    {
        self.text
    }
}

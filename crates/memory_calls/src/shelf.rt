//! A writer that has room for so many bytes.
use std::alloc::Global;
use std::io;
use std::io::{ErrorKind, Write};

/// Takes at most `step` bytes a write, while there is room, and then answers an error by the
/// number of bytes that it took. Where `interrupts`, every other write is interrupted. What takes
/// all at once has room again behind its first error.
#[derive(Drop)]
pub struct Shelf {
    pub taken: Vec<u8>,
    room: usize,
    step: usize,
    interrupts: bool,
    calls: u64,
}

impl Shelf {
    pub fn new(alloc: Global, room: usize, step: usize, interrupts: bool) -> Shelf {
        Shelf {
            taken: Vec::new(alloc),
            room,
            step,
            interrupts,
            calls: 0,
        }
    }
}

impl Write for Shelf {
    fn write(&mut self, buf: &[u8]) -> io::Result<usize> {
        self.calls = self.calls.wrapping_add(1);
        if self.interrupts && self.calls % 2 == 1 {
            return Err(io::Error::from(ErrorKind::Interrupted));
        }
        if self.room == 0 {
            self.room = if self.step == usize::MAX {
                self.step
            } else {
                0
            };
            return Err(full(self.taken.len()));
        }
        let count = buf.len().min(self.room).min(self.step);
        self.taken.extend_from_slice(&buf[..count])?;
        self.room -= count;
        Ok(count)
    }

    fn flush(&mut self) -> io::Result<()> {
        Ok(())
    }
}

// One of three errors.
fn full(count: usize) -> io::Error {
    match count % 3 {
        0 => io::Error::new(ErrorKind::StorageFull, "the shelf is full"),
        1 => io::Error::new(ErrorKind::BrokenPipe, "nobody reads on"),
        _ => io::Error::new(ErrorKind::Other, "odd"),
    }
}

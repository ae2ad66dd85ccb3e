//! Writers that fail.
use std::io;
use std::io::{ErrorKind, Write};

/// Takes at most `step` bytes a write, and no more than `left` in all; then it answers an error.
/// Where `interrupts`, every other write is interrupted.
#[derive(Drop)]
pub struct Failing {
    pub left: usize,
    pub step: usize,
    pub interrupts: bool,
    calls: u64,
}

impl Write for Failing {
    fn write(&mut self, buf: &[u8]) -> io::Result<usize> {
        self.calls = self.calls.wrapping_add(1);
        if self.interrupts && self.calls % 2 == 1 {
            return Err(io::Error::from(ErrorKind::Interrupted));
        }
        if self.left == 0 {
            return Err(io::Error::from(ErrorKind::StorageFull));
        }
        let taken = buf.len().min(self.left).min(self.step);
        self.left -= taken;
        Ok(taken)
    }

    // What is full cannot be flushed.
    fn flush(&mut self) -> io::Result<()> {
        if self.left == 0 {
            return Err(io::Error::from(ErrorKind::StorageFull));
        }
        Ok(())
    }
}

/// Such a writer that was not yet called.
pub fn fails_after(left: usize, step: usize, interrupts: bool) -> Failing {
    Failing {
        left,
        step,
        interrupts,
        calls: 0,
    }
}

/// Takes all of each write but one: the one behind so many others answers an error and takes
/// nothing.
#[derive(Drop)]
pub struct FailingOnce {
    before: usize,
    kind: ErrorKind,
    pub taken: usize,
}

impl Write for FailingOnce {
    fn write(&mut self, buf: &[u8]) -> io::Result<usize> {
        if self.before == 0 {
            self.before = usize::MAX;
            return Err(io::Error::from(self.kind));
        }
        self.before -= 1;
        self.taken = self.taken.wrapping_add(buf.len());
        Ok(buf.len())
    }

    fn flush(&mut self) -> io::Result<()> {
        Ok(())
    }
}

/// Such a writer that was not yet called.
pub fn fails_once(before: usize, kind: ErrorKind) -> FailingOnce {
    FailingOnce {
        before,
        kind,
        taken: 0,
    }
}

/// The kind of the error, if there is one.
pub fn kind_of(answer: io::Result<()>) -> Option<ErrorKind> {
    match answer {
        Ok(()) => None,
        Err(e) => Some(e.kind()),
    }
}

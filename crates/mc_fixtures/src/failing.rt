//! Readers and writers that move one byte a call, and fail at one call or from it on.
ghost use Rattle.std.specs.Prelude.{◌≡◌, IfOk};

use std::io;
use std::io::{Read, Write};

/// What a call does that fails.
#[derive(Clone, Copy, Debug)]
pub enum Fault {
    /// It returns an error.
    Error,
    /// It returns the error of a call that was interrupted.
    Interruption,
    /// It moves no bytes.
    NoBytes,
}

impl Fault {
    /// What a call that fails so returns.
    pub fn answer(self) -> io::Result<usize>
        ensures { IfOk result (λ n. n ≡ 0) }
    {
        match self {
            Fault::Error => Err(io::Error::from(io::ErrorKind::Other)),
            Fault::Interruption => Err(io::Error::from(io::ErrorKind::Interrupted)),
            Fault::NoBytes => Ok(0),
        }
    }
}

/// How a write fails, and whether each later one does: those of a read are the first four.
pub static FAULTS: [(Fault, bool); 6] = [
    (Fault::Error, true),
    (Fault::Error, false),
    (Fault::Interruption, true),
    (Fault::Interruption, false),
    (Fault::NoBytes, true),
    (Fault::NoBytes, false),
];

/// Which call fails, and how.
#[derive(Clone, Copy, Debug)]
pub struct Failure {
    /// How many calls come before it.
    pub calls: usize,
    pub fault: Fault,
    /// Whether each later call fails as well. Otherwise they go on with the right bytes.
    pub lasts: bool,
}

impl Failure {
    /// Counts a call, and returns whether it fails.
    pub fn comes(&mut self) -> bool {
        match self.calls.checked_sub(1) {
            Some(left) => {
                self.calls = left;
                false
            }
            None => {
                if !self.lasts {
                    self.calls = usize::MAX;
                }
                true
            }
        }
    }
}

/// A reader that fails.
#[derive(Drop)]
pub struct FailingReader<'a> {
    /// What is left to be read.
    pub left: &'a [u8],
    pub failure: Failure,
}

impl Read for FailingReader<'_> {
    fn read(&mut self, buffer: &mut [u8]) -> io::Result<usize> {
        if self.failure.comes() {
            return self.failure.fault.answer();
        }
        let room = buffer.len().min(1);
        self.left.read(&mut buffer[..room])
    }
}

/// A writer that fails.
#[derive(Drop)]
pub struct FailingWriter {
    /// What was written.
    pub taken: Vec<u8>,
    pub failure: Failure,
}

impl Write for FailingWriter {
    fn write(&mut self, buffer: &[u8]) -> io::Result<usize> {
        if self.failure.comes() {
            return self.failure.fault.answer();
        }
        let room = buffer.len().min(1);
        self.taken.extend_from_slice(&buffer[..room])?;
        Ok(room)
    }

    fn flush(&mut self) -> io::Result<()> {
        Ok(())
    }
}

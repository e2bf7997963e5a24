//! Files and streams that fail once.
use crate::failing::{Failure, Fault};
use crate::named;
use mc_cli::{KnownFiles, have_one_number};
use std::alloc::Allocator;
use std::cell::RefCell;
use std::fs::{Metadata, OpenFile, OpenOptions};
use std::io::{Read, Seek, SeekFrom, Write};
use std::rt::Files;
use std::{fs, io};

/// A file, or a stream, that moves one byte a call, and fails once.
#[derive(Drop)]
pub struct FaultyFile<'a> {
    /// What is left to be read.
    pub rest: &'a [u8],
    /// What was written.
    pub written: &'a RefCell<Vec<u8>>,
    pub failure: Failure,
}

impl Read for FaultyFile<'_> {
    fn read(&mut self, buf: &mut [u8]) -> io::Result<usize> {
        if self.failure.comes() {
            return self.failure.fault.answer();
        }
        let room = buf.len().min(1);
        self.rest.read(&mut buf[..room])
    }
}

impl Write for FaultyFile<'_> {
    fn write(&mut self, buf: &[u8]) -> io::Result<usize> {
        if self.failure.comes() {
            return self.failure.fault.answer();
        }
        let room = buf.len().min(1);
        match self.written.try_borrow_mut() {
            Ok(mut written) => written.extend_from_slice(&buf[..room])?,
            Err(_) => return Err(io::Error::from(io::ErrorKind::Other)),
        }
        Ok(room)
    }

    fn flush(&mut self) -> io::Result<()> {
        Ok(())
    }
}

/// The answer of a call that no test makes.
fn unsupported<T>() -> io::Result<T> {
    Err(io::Error::from(io::ErrorKind::Unsupported))
}

impl Seek for FaultyFile<'_> {
    fn seek(&mut self, _to: SeekFrom) -> io::Result<u64> {
        unsupported()
    }
}

impl OpenFile for FaultyFile<'_> {
    fn metadata(&self) -> io::Result<Metadata> {
        unsupported()
    }

    fn set_len(&self, _size: u64) -> io::Result<()> {
        unsupported()
    }

    fn sync_all(&self) -> io::Result<()> {
        unsupported()
    }

    fn sync_data(&self) -> io::Result<()> {
        unsupported()
    }
}

/// Two files, `in` and `out`, each of which fails once, and those that `named` knows.
#[derive(Drop)]
pub struct FaultyFiles<'a> {
    /// What `in` holds.
    pub input: &'a [u8],
    /// What was written to `out`.
    pub written: &'a RefCell<Vec<u8>>,
    /// How many calls of `in` come before the one that fails.
    pub reads: usize,
    /// How many calls of `out` come before the one that fails.
    pub writes: usize,
    pub fault: Fault,
}

impl<'a> Files for FaultyFiles<'a> {
    type File = FaultyFile<'a>;

    type Dir = FaultyFile<'a>;

    fn open_file(&self, _how: &OpenOptions, path: &str) -> io::Result<FaultyFile<'a>> {
        let (rest, calls) = match path {
            "in" => (self.input, self.reads),
            "out" => (&[] as &[u8], self.writes),
            _ => match named(path) {
                Some(bytes) => (bytes, usize::MAX),
                None => return Err(io::Error::from(io::ErrorKind::NotFound)),
            },
        };
        Ok(FaultyFile {
            rest,
            written: self.written,
            failure: Failure {
                calls,
                fault: self.fault,
                lasts: false,
            },
        })
    }

    fn open_dir(&self, _path: &str) -> io::Result<FaultyFile<'a>> {
        unsupported()
    }

    fn metadata(&self, _path: &str) -> io::Result<Metadata> {
        unsupported()
    }

    fn symlink_metadata(&self, _path: &str) -> io::Result<Metadata> {
        unsupported()
    }

    fn copy(&self, _from: &str, _to: &str) -> io::Result<u64> {
        unsupported()
    }

    fn rename(&self, _from: &str, _to: &str) -> io::Result<()> {
        unsupported()
    }

    fn remove_file(&self, _path: &str) -> io::Result<()> {
        unsupported()
    }

    fn create_dir(&self, _path: &str) -> io::Result<()> {
        unsupported()
    }

    fn remove_dir(&self, _path: &str) -> io::Result<()> {
        unsupported()
    }

    fn remove_dir_all<B: Allocator>(&self, _alloc: B, _path: &str) -> io::Result<()> {
        unsupported()
    }
}

impl<'a> KnownFiles for FaultyFiles<'a> {
    ghost use Rattle.std.specs.Prelude.{None};

    // A read of `in` may fail.
    ghost holds = { λ _ _. None };

    fn open_to_read(&self, path: &str) -> io::Result<FaultyFile<'a>> {
        fs::open(self, path)
    }

    fn is_same_file(&self, first: &str, second: &str) -> bool {
        first == second || have_one_number(self, first, second)
    }
}

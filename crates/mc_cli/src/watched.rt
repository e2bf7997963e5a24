//! Files that remember which of them was opened last, and why one could not be opened or written; a writer that remembers why a write
//! failed.
use crate::known::KnownFiles;
use std::alloc::{Allocator, Global};
use std::cell::RefCell;
use std::fs::{Metadata, OpenOptions, Permissions};
use std::io;
use std::io::{ErrorKind, Write};
use std::path::PathBuf;
use std::rt::Files;

/// A file that could not be opened, made or written, and why.
#[derive(Drop)]
pub struct Failed {
    pub path: String,
    pub error: io::Error,
}

/// The same files, with the last that was opened, the last that failed, and what is refused in a script.
#[derive(Drop)]
pub struct WatchedFiles<'f, F: Files> {
    pub files: &'f F,
    alloc: Global,
    opened: RefCell<Option<String>>,
    failed: RefCell<Option<Failed>>,
    reason: RefCell<Option<String>>,
}

impl<'f, F: Files> WatchedFiles<'f, F> {
    ghost use Rattle.std.specs.Prelude.{◌≡◌};

    /// None of them was opened yet.
    pub fn new(files: &'f F, alloc: Global) -> WatchedFiles<'f, F>
        ensures { result.files ≡ files.entry }
    {
        WatchedFiles {
            files,
            alloc,
            opened: RefCell::new(None),
            failed: RefCell::new(None),
            reason: RefCell::new(None),
        }
    }

    /// Remembers the path of the last that was opened, if there is memory for it.
    fn keep_opened(&self, path: &str) {
        if let Ok(mut opened) = self.opened.try_borrow_mut() {
            *opened = String::from_str(self.alloc, path).ok();
        }
    }

    /// Hands out the path of the last that was opened, if there is one, and there was memory for it.
    pub fn take_opened(&self) -> Option<String> {
        match self.opened.try_borrow_mut() {
            Ok(mut opened) => opened.take(),
            Err(_) => None,
        }
    }

    /// Remembers what is refused in a script.
    pub fn keep_reason(&self, text: String) {
        if let Ok(mut reason) = self.reason.try_borrow_mut() {
            *reason = Some(text);
        }
    }

    /// Hands out what is refused in a script, if that was remembered.
    pub fn take_reason(&self) -> Option<String> {
        match self.reason.try_borrow_mut() {
            Ok(mut reason) => reason.take(),
            Err(_) => None,
        }
    }

    /// Remembers that the file of a path could not be opened, made or written, and why, if there is memory for the path.
    pub fn keep_failed(&self, path: &str, error: io::Error) {
        if let Ok(path) = String::from_str(self.alloc, path)
            && let Ok(mut failed) = self.failed.try_borrow_mut()
        {
            *failed = Some(Failed { path, error });
        }
    }

    /// The last that could not be opened, made or written, if there is one.
    pub fn failed(self) -> Option<Failed> {
        self.failed.into_inner()
    }

    /// Hands on what a call on a path gave. Where it failed, that is remembered.
    fn note<T>(&self, path: &str, given: io::Result<T>) -> io::Result<T> {
        if let Err(error) = &given {
            self.keep_failed(path, *error);
        }
        given
    }
}

impl<F: Files> Files for WatchedFiles<'_, F> {
    type File = F::File;

    type Dir = F::Dir;

    fn open_file(&self, how: &OpenOptions, path: &str) -> io::Result<F::File> {
        let given = self.files.open_file(how, path);
        if given.is_ok() {
            self.keep_opened(path);
        }
        self.note(path, given)
    }

    fn open_dir(&self, path: &str) -> io::Result<F::Dir> {
        self.note(path, self.files.open_dir(path))
    }

    fn metadata(&self, path: &str) -> io::Result<Metadata> {
        self.files.metadata(path)
    }

    fn symlink_metadata(&self, path: &str) -> io::Result<Metadata> {
        self.files.symlink_metadata(path)
    }

    fn copy(&self, from: &str, to: &str) -> io::Result<u64> {
        self.files.copy(from, to)
    }

    fn rename(&self, from: &str, to: &str) -> io::Result<()> {
        self.note(to, self.files.rename(from, to))
    }

    fn remove_file(&self, path: &str) -> io::Result<()> {
        self.files.remove_file(path)
    }

    fn create_dir(&self, path: &str) -> io::Result<()> {
        self.note(path, self.files.create_dir(path))
    }

    fn remove_dir(&self, path: &str) -> io::Result<()> {
        self.files.remove_dir(path)
    }

    fn remove_dir_all<B: Allocator>(&self, alloc: B, path: &str) -> io::Result<()> {
        self.files.remove_dir_all(alloc, path)
    }
}

impl<F: KnownFiles> KnownFiles for WatchedFiles<'_, F> {
    ghost holds = { λ w. F.holds w.files.now };

    fn open_to_read(&self, path: &str) -> io::Result<F::File> {
        match self.files.open_to_read(path) {
            Ok(file) => {
                self.keep_opened(path);
                Ok(file)
            }
            Err(error) => {
                self.keep_failed(path, error);
                Err(error)
            }
        }
    }

    fn is_same_file(&self, first: &str, second: &str) -> bool {
        self.files.is_same_file(first, second)
    }
}

/// The same writer, with why its last write, or handing on what it held, failed, if it did.
#[derive(Drop)]
pub struct WatchedWriter<W: Write + Drop> {
    pub writer: W,
    /// Why the last write failed, or that it took no bytes, if it did.
    pub failure: Option<io::Error>,
}

impl<W: Write + Drop> WatchedWriter<W> {
    ghost use Rattle.std.specs.Io.KnownBytes.{Keeps};
    ghost use Rattle.std.specs.Prelude.{◌≡◌, is_some};

    /// No write failed yet.
    pub fn new(writer: W) -> WatchedWriter<W>
        ensures { result.writer ≡ writer }
    {
        WatchedWriter {
            writer,
            failure: None,
        }
    }

    /// Hands on what a buffer still holds, after writes that did not fail; says whether that failed, which is remembered.
    pub fn hand_on(&mut self) -> bool
        ensures kept { Keeps (W.contents self.old.writer) (W.contents self.new.writer) }
        ensures failed { result ≡ is_some self.new.failure }
    {
        self.failure = self.writer.flush().err();
        self.failure.is_some()
    }
}

impl<W: Write + Drop> Write for WatchedWriter<W> {
    ghost contents = { λ w. W.contents w.writer };

    #[inline(always)]
    fn write(&mut self, buf: &[u8]) -> io::Result<usize> {
        let written = self.writer.write(buf);
        if let Ok(1..) = written
            && self.failure.is_none()
        {
            return written;
        }
        self.failure = match &written {
            Ok(0) => Some(io::Error::from(ErrorKind::WriteZero)),
            Ok(_) => None,
            Err(error) => Some(*error),
        };
        written
    }

    fn flush(&mut self) -> io::Result<()> {
        let flushed = self.writer.flush();
        if let Err(error) = &flushed {
            self.failure = Some(*error);
        }
        flushed
    }
}

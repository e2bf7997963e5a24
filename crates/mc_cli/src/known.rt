//! Files of which it may be known what they hold.
use std::os::unix::fs::MetadataExt;
use std::rt::{Files, HostRuntime};
use std::{fs, io};

/// Files, and what is known of their bytes: nothing of a system's, all of those in memory. What is proved over any such files of what they
/// hold says, of a system's, that some bytes were read.
pub trait KnownFiles: Files {
    ghost use Rattle.std.specs.Prelude.{◌≡◌, None, true, IfOk, OnErr};
    ghost use Rattle.std.specs.Io.KnownBytes.{Keeps};
    ghost use Rattle.mc_cli.specs.Files.{Holds, MayBeOne};

    /// What the file of a path holds, where that is known.
    ghost holds: { Self → Holds };

    /// Opens the file of a path, to be read from its beginning.
    /// Promised: a file is opened of which it is known what it holds (`left`, `unknown`).
    ///
    /// # Errors
    ///
    /// Where it cannot be opened. One can of which it is known what it holds.
    fn open_to_read(&self, path: &str) -> io::Result<Self::File>
        ensures left { IfOk result (λ file. Keeps (holds self.now path.now)
            (Self.File.remaining file)) }
        ensures unknown { OnErr result (holds self.now path.now ≡ None) };

    /// Whether two paths lead to one file, as far as that is known. A file of which it is known what it holds has one path.
    /// Promised: files in memory are one only by one path (`same`, `one_path`, `MayBeOne`).
    fn is_same_file(&self, first: &str, second: &str) -> bool
        ensures same { first.now ≡ second.now → result ≡ true }
        ensures one_path { result ≡ true → MayBeOne (holds self.now) first.now second.now };
}

/// Whether the system gives one device and one number for two paths, also through links. Where a file is missing, it gives none.
pub fn have_one_number<F: Files>(files: &F, first: &str, second: &str) -> bool {
    match (fs::metadata(files, first), fs::metadata(files, second)) {
        (Ok(first), Ok(second)) => first.dev() == second.dev() && first.ino() == second.ino(),
        _ => false,
    }
}

impl KnownFiles for HostRuntime {
    ghost use Rattle.std.specs.Prelude.{None};

    ghost holds = { λ _ _. None };

    fn open_to_read(&self, path: &str) -> io::Result<Self::File> {
        fs::open(self, path)
    }

    fn is_same_file(&self, first: &str, second: &str) -> bool {
        first == second || have_one_number(self, first, second)
    }
}

//! Files in memory: `a`, `b` and `c`, which are read, and `out`, which is written.
use mc_command::KnownFiles;
use std::alloc::Allocator;
use std::cell::RefCell;
use std::fs::{Metadata, OpenFile, OpenOptions};
use std::io::{ErrorKind, Read, Seek, SeekFrom, Write};
use std::rt::Files;
use std::{fs, io};

/// Three files that can be read, and one that can be written.
#[derive(Drop)]
pub struct Disk<'a> {
    pub a: &'a [u8],
    pub b: &'a [u8],
    pub c: &'a [u8],
    pub out: &'a RefCell<Vec<u8>>,
}

/// An open file: what is left to read of it, or where what is written goes.
#[derive(Drop)]
pub enum Opened<'a> {
    Reading(&'a [u8]),
    Writing(&'a RefCell<Vec<u8>>),
}

// Files in memory can do nothing of this.
fn unsupported() -> io::Error {
    io::Error::from(ErrorKind::Unsupported)
}

impl Read for Opened<'_> {
    ghost use Rattle.mc_c.specs.Disks.{left_of};

    ghost remaining = { left_of };

    fn read(&mut self, buf: &mut [u8]) -> io::Result<usize> {
        match self {
            Opened::Reading(left) => Read::read(left, buf),
            Opened::Writing(_) => Err(unsupported()),
        }
    }
}

impl Write for Opened<'_> {
    fn write(&mut self, buf: &[u8]) -> io::Result<usize> {
        let Opened::Writing(out) = self else {
            return Err(unsupported());
        };
        let Ok(mut bytes) = out.try_borrow_mut() else {
            return Err(unsupported());
        };
        match bytes.extend_from_slice(buf) {
            Ok(()) => Ok(buf.len()),
            Err(_) => Err(io::Error::from(ErrorKind::OutOfMemory)),
        }
    }

    fn flush(&mut self) -> io::Result<()> {
        Ok(())
    }
}

impl Seek for Opened<'_> {
    fn seek(&mut self, _pos: SeekFrom) -> io::Result<u64> {
        Err(unsupported())
    }
}

impl OpenFile for Opened<'_> {
    fn metadata(&self) -> io::Result<Metadata> {
        Err(unsupported())
    }

    fn set_len(&self, _size: u64) -> io::Result<()> {
        Err(unsupported())
    }

    fn sync_all(&self) -> io::Result<()> {
        Err(unsupported())
    }

    fn sync_data(&self) -> io::Result<()> {
        Err(unsupported())
    }
}

impl<'a> Disk<'a> {
    ghost use Rattle.std.specs.Prelude.{◌≡◌, option_map};
    ghost use Rattle.mc_c.specs.Disks.{bytes_at};

    /// What the file of a path holds, if it is one of those that are read.
    fn bytes_at(&self, path: &str) -> Option<&'a [u8]>
        ensures { option_map (λ bytes. bytes.now) result ≡ bytes_at self.now path.now }
    {
        match path {
            "a" => Some(self.a),
            "b" => Some(self.b),
            "c" => Some(self.c),
            _ => None,
        }
    }
}

impl<'a> Files for Disk<'a> {
    type File = Opened<'a>;

    type Dir = Opened<'a>;

    fn open_file(&self, how: &OpenOptions, path: &str) -> io::Result<Opened<'a>> {
        how.check()?;
        if let Some(bytes) = self.bytes_at(path) {
            return Ok(Opened::Reading(bytes));
        }
        match path {
            "out" => {
                if let Ok(mut bytes) = self.out.try_borrow_mut() {
                    bytes.clear();
                }
                Ok(Opened::Writing(self.out))
            }
            _ => Err(io::Error::from(ErrorKind::NotFound)),
        }
    }

    fn open_dir(&self, _path: &str) -> io::Result<Opened<'a>> {
        Err(unsupported())
    }

    fn metadata(&self, _path: &str) -> io::Result<Metadata> {
        Err(unsupported())
    }

    fn symlink_metadata(&self, _path: &str) -> io::Result<Metadata> {
        Err(unsupported())
    }

    fn copy(&self, _from: &str, _to: &str) -> io::Result<u64> {
        Err(unsupported())
    }

    fn rename(&self, _from: &str, _to: &str) -> io::Result<()> {
        Err(unsupported())
    }

    fn remove_file(&self, _path: &str) -> io::Result<()> {
        Err(unsupported())
    }

    fn create_dir(&self, _path: &str) -> io::Result<()> {
        Err(unsupported())
    }

    fn remove_dir(&self, _path: &str) -> io::Result<()> {
        Err(unsupported())
    }

    fn remove_dir_all<B: Allocator>(&self, _alloc: B, _path: &str) -> io::Result<()> {
        Err(unsupported())
    }
}

impl<'a> KnownFiles for Disk<'a> {
    ghost use Rattle.mc_c.specs.Disks.{bytes_at};

    ghost holds = { bytes_at };

    fn open_to_read(&self, path: &str) -> io::Result<Opened<'a>> {
        match self.bytes_at(path) {
            Some(bytes) => Ok(Opened::Reading(bytes)),
            None => fs::open(self, path),
        }
    }

    fn is_same_file(&self, first: &str, second: &str) -> bool {
        first == second
    }
}

//! Files that are written: a plain one is whole, or as it was.
ghost use Rattle.std.specs.Prelude.{◌≡◌, ◌⊎◌, Err, IfErr, Ok, OnOk};
ghost use Rattle.mc_options.specs.Outfiles.{IsUnmade};

use crate::refusal::Refusal;
use mc_cli::{WatchedFiles, WatchedWriter};
use std::alloc::Global;
use std::fs::{OpenFile, OpenOptions};
use std::io::{ErrorKind, Read};
use std::rt::Files;
use std::{fs, io};

/// How many names beside a target are tried for a file that is not there yet.
const MOST_NAMES: u32 = 100;

/// What stands in the name of such a file between the target's name and the number of the process that writes it.
const MARK: &str = ".mcsim-new";

/// A file that is written.
#[derive(Drop)]
pub struct Outfile<'f, 'p, F: Files> {
    files: &'f WatchedFiles<'f, F>,
    /// The path that was asked for.
    target: &'p str,
    /// The path of the file itself, where it is another that takes the target's place in the end.
    beside: Option<String>,
    /// The file.
    pub file: WatchedWriter<F::File>,
}

impl<'f, 'p, F: Files> Outfile<'f, 'p, F> {
    /// The file of that path, made, or emptied first.
    /// Promised, also of `beside`, `in_new_folder` and `end`: why a file is not written (`IsUnmade`, `refused`).
    ///
    /// # Errors
    ///
    /// `Open` where it cannot be made.
    pub fn in_place(
        files: &'f WatchedFiles<'f, F>,
        target: &'p str,
    ) -> Result<Outfile<'f, 'p, F>, Refusal>
        ensures { IfErr result (λ e. e ≡ Refusal.Open) }
    {
        match fs::create(files, target) {
            Ok(file) => Ok(Outfile {
                files,
                target,
                beside: None,
                file: WatchedWriter::new(file),
            }),
            Err(_) => Err(Refusal::Open),
        }
    }

    /// A new file beside the one of that path, whose place it takes when it is whole. Where that is there and no plain file, as a
    /// device, a pipe or a link, it is written as it is. What runs have left beside it that were stopped is removed first.
    ///
    /// # Errors
    ///
    /// `Open` where it cannot be made; `Memory`.
    pub fn beside(
        files: &'f WatchedFiles<'f, F>,
        alloc: Global,
        target: &'p str,
    ) -> Result<Outfile<'f, 'p, F>, Refusal>
        ensures { IfErr result IsUnmade }
    {
        if own_number(files).is_some() {
            // What stays takes no one's place.
            let _ = remove_left(files, alloc, target);
        }
        Outfile::in_new_folder(files, alloc, target)
    }

    /// The same in a folder that this run has made, in which no other has left anything.
    ///
    /// # Errors
    ///
    /// `Open` where it cannot be made; `Memory`.
    pub fn in_new_folder(
        files: &'f WatchedFiles<'f, F>,
        alloc: Global,
        target: &'p str,
    ) -> Result<Outfile<'f, 'p, F>, Refusal>
        ensures { IfErr result IsUnmade }
    {
        let old = match fs::symlink_metadata(files, target) {
            Ok(old) if old.is_file() => Some(old),
            Err(error) if error.kind() == ErrorKind::NotFound => None,
            _ => return Outfile::in_place(files, target),
        };
        let (path, file) = create_beside(files, alloc, target)?;
        if let Some(old) = old {
            // Where it cannot have the rights of the old one, it has those of a new one.
            let _ = file.set_permissions(old.permissions());
        }
        Ok(Outfile {
            files,
            target,
            beside: Some(path),
            file: WatchedWriter::new(file),
        })
    }

    /// Ends it: where it was written whole, it takes its target's place; else the target stays as it was. Why a write failed is remembered.
    ///
    /// # Errors
    ///
    /// What writing it was refused for; `Write` where it cannot take that place.
    pub fn end(&self, written: Result<(), Refusal>) -> Result<(), Refusal>
        ensures done { OnOk result (written ≡ Ok tt) }
        ensures refused { IfErr result (λ e. (written ≡ Err e) ⊎ (e ≡ Refusal.Write)) }
    {
        if let Some(error) = self.file.failure {
            self.files.keep_failed(self.target, error);
        }
        let Some(path) = &self.beside else {
            return written;
        };
        let moved = match written {
            Ok(()) => fs::rename(self.files, path.as_str(), self.target).map_err(
                |_| Refusal::Write,
            ),
            Err(refusal) => Err(refusal),
        };
        if moved.is_err() {
            let _ = fs::remove_file(self.files, path.as_str());
        }
        moved
    }
}

/// The number of this process, where the system tells it.
fn own_number<F: Files>(files: &F) -> Option<u32> {
    let mut file = fs::open(files, "/proc/self/stat").ok()?;
    let mut head = [0; 16];
    let count = file.read(&mut head).ok()?;
    let text = str::from_utf8(head.get(..count)?).ok()?;
    let (number, _rest) = text.split_once(' ')?;
    number.parse().ok()
}

/// Whether a process is over, where the system tells it.
fn is_over<F: Files>(files: &F, alloc: Global, process: u32) -> bool {
    let Ok(path) = format!(in alloc; "/proc/{process}") else {
        return false;
    };
    match fs::metadata(files, path.as_str()) {
        Ok(_) => false,
        Err(error) => error.kind() == ErrorKind::NotFound,
    }
}

/// The process that writes a file of that name, if it is one beside a target of this one.
fn writer_of(name: &str, target: &str) -> Option<u32> {
    let number = name.strip_prefix(target)?.strip_prefix(MARK)?;
    number.parse().ok()
}

/// Removes the files beside a target that processes began which are over, as far as that can be done.
///
/// # Errors
///
/// What the system says of the folder, or of one of them.
fn remove_left<F: Files>(files: &F, alloc: Global, target: &str) -> io::Result<()> {
    let (folder, target) = target.rsplit_once('/').unwrap_or((".", target));
    let folder = if folder.is_empty() { "/" } else { folder };
    for entry in fs::read_dir(&(files, alloc), folder)? {
        let entry = entry?;
        if let Some(process) = writer_of(entry.file_name(), target)
            && is_over(files, alloc, process)
        {
            fs::remove_file(files, entry.path())?;
        }
    }
    Ok(())
}

/// Makes a file of a new name beside a target, and returns its path too. The name ends with the number of this process, where the system tells
/// it, so that a later run knows whether its run is over.
///
/// # Errors
///
/// `Open` where none can be made; `Memory`.
fn create_beside<F: Files>(
    files: &WatchedFiles<'_, F>,
    alloc: Global,
    target: &str,
) -> Result<(String, F::File), Refusal>
    ensures { IfErr result IsUnmade }
{
    let own = own_number(files).unwrap_or(0);
    let first = format!(in alloc; "{target}{MARK}{own}").map_err(|_| Refusal::Memory)?;
    if let Some(file) = create_new(files, first.as_str(), target)? {
        return Ok((first, file));
    }
    for number in 1..MOST_NAMES {
        let path = format!(in alloc; "{target}{MARK}{own}-{number}").map_err(|_| Refusal::Memory)?;
        if let Some(file) = create_new(files, path.as_str(), target)? {
            return Ok((path, file));
        }
    }
    Err(Refusal::Open)
}

/// Makes a file of that name beside a target, and returns nothing where there is one.
///
/// # Errors
///
/// `Open` where it cannot be made: it is remembered of the target.
fn create_new<F: Files>(
    files: &WatchedFiles<'_, F>,
    path: &str,
    target: &str,
) -> Result<Option<F::File>, Refusal>
    ensures { IfErr result (λ e. e ≡ Refusal.Open) }
{
    let mut options = OpenOptions::new();
    let _ = options.write(true).create_new(true);
    match options.open(files, path) {
        Ok(file) => Ok(Some(file)),
        Err(error) if error.kind() == ErrorKind::AlreadyExists => Ok(None),
        Err(error) => {
            files.keep_failed(target, error);
            Err(Refusal::Open)
        }
    }
}

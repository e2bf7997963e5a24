//! `vectors`: each distinct flash that power cuts leave, or all losses of power, for a boot loader to be tried on.
ghost use Rattle.std.specs.Prelude.{◌≡◌, IfErr, IfOk, IsOk, None, OnErr, OnOk};
ghost use Rattle.std.specs.Io.KnownBytes.{Appends};
ghost use Rattle.clap.specs.Matches.{found_of};
ghost use Rattle.mc_actions.specs.Vectors.{AnswersVectors, AreFlashes, AreFound, GivesCuts, GivesFolder, GivesTorn, GivesVectors, IsFew, LacksCuts, LacksFolder, LacksTorn, LacksVectors, RefusesSearch, bound_of, count_of, is_whole, table_of};
ghost use Rattle.mc_output.specs.Text.{AppendsPrefix};

use crate::trailers::yes_or_no;
use clap::ArgMatches;
use mc_cli::{KnownFiles, WatchedFiles};
use mc_explore::{ExploreError, Line, Schedule, Start, flash_at_cut, replay};
use mc_flash::{Flash, JournalFlash};
use mc_options::{
    Outfile, Refusal, census_options, finish, flash_options, in_blocks, read_start, required,
};
use mc_output::{WriteFailed, write_text};
use mc_tears::{Erasing, LostCase, LostCases, find_losses, start_after, write_lost};
use mc_trace::{write_patch, write_slots};
use mc_vectors::{Found, find_cases, write_cases};
use std::alloc::{AllocError, Global};
use std::collections::BTreeSet;
use std::fs;
use std::io::{Error, ErrorKind, Write};
use std::rt::Files;

/// How many cuts are asked for.
#[derive(Clone, Copy, Debug)]
pub enum Cuts {
    /// At most so many.
    AtMost(u8),
    /// Any number.
    Any,
}

impl Cuts {
    /// The cuts that the words ask for.
    ///
    /// # Errors
    ///
    /// `Number` where the text is neither `all` nor a number from 0 to 16; `Argument` where it is missing.
    fn read(arguments: &ArgMatches<'_>) -> Result<Cuts, Refusal>
        ensures given { IfOk result (GivesCuts (found_of arguments.now)) }
        ensures taken { (cuts : Cuts) → GivesCuts (found_of arguments.now) cuts → IsOk result }
        ensures refused { IfErr result (LacksCuts (found_of arguments.now)) }
        ensures range { IfOk result (λ cuts. IsFew cuts) }
    {
        if required(arguments, "cuts")? == "all" {
            return Ok(Cuts::Any);
        }
        Ok(Cuts::AtMost(census_options(arguments)?))
    }

    /// How many are looked through.
    fn bound(self) -> u8
        ensures { result ≡ bound_of self }
    {
        match self {
            Cuts::AtMost(bound) => bound,
            Cuts::Any => 16,
        }
    }
}

/// How the words say that an erase fails within which power is lost, if losses within operations are asked for.
///
/// # Errors
///
/// `Argument` where `--erase` is given without `--torn`.
pub fn torn_option(arguments: &ArgMatches<'_>) -> Result<Option<Erasing>, Refusal>
    ensures given { IfOk result (GivesTorn (found_of arguments.now)) }
    ensures refused { IfErr result (LacksTorn (found_of arguments.now)) }
{
    match (arguments.get_flag("torn"), arguments.get_str("erase")) {
        (false, None) => Ok(None),
        (true, None | Some("gentle")) => Ok(Some(Erasing::Gentle)),
        (true, Some("rough")) => Ok(Some(Erasing::Rough)),
        _ => Err(Refusal::Argument),
    }
}

/// The flashes that are found.
#[derive(Drop)]
pub enum Table {
    /// Those that cuts leave.
    OfCuts(Found),
    /// Those that losses leave, where an erase fails so.
    OfLosses(LostCases, Erasing),
}

impl Table {
    /// How many there are.
    fn len(&self) -> usize
        ensures { result ≡ count_of self.now }
    {
        match self {
            Table::OfCuts(found) => found.cases.len(),
            Table::OfLosses(found, _) => found.cases.len(),
        }
    }

    /// Whether no number of cuts or losses leaves another.
    fn is_whole(&self) -> bool
        ensures { result ≡ is_whole self.now }
    {
        match self {
            Table::OfCuts(found) => found.whole,
            Table::OfLosses(found, _) => found.whole,
        }
    }

    /// Writes it.
    ///
    /// # Errors
    ///
    /// `WriteFailed`.
    fn write<O: Write>(&self, out: &mut O) -> Result<(), WriteFailed>
        ensures whole { OnOk result (Appends (O.contents out.old) (O.contents out.new)
            (table_of self.now)) }
        ensures prefix { OnErr result (AppendsPrefix (O.contents out.old) (O.contents out.new)
            (table_of self.now)) }
    {
        match self {
            Table::OfCuts(found) => write_cases(&found.cases, out),
            Table::OfLosses(found, _) => write_lost(&found.cases, out),
        }
    }

    /// The digests of these flashes.
    ///
    /// # Errors
    ///
    /// `Memory`.
    fn digests(&self, alloc: Global) -> Result<BTreeSet<[u8; 32]>, Refusal> {
        let mut digests = BTreeSet::new(alloc);
        match self {
            Table::OfCuts(found) => {
                for case in &found.cases {
                    digests.insert(case.digest).map_err(|_| Refusal::Memory)?;
                }
            }
            Table::OfLosses(found, _) => {
                for case in &found.cases {
                    digests.insert(case.digest).map_err(|_| Refusal::Memory)?;
                }
            }
        }
        Ok(digests)
    }
}

/// Why a folder cannot be read.
fn unread(error: &Error) -> Refusal {
    match error.kind() {
        ErrorKind::OutOfMemory => Refusal::Memory,
        _ => Refusal::Open,
    }
}

/// The folder that the flashes are written into.
#[derive(Drop)]
struct Folder<'f, 'p, F: Files> {
    files: &'f WatchedFiles<'f, F>,
    alloc: Global,
    path: &'p str,
    /// Whether a flash is written as a patch of the start's.
    patches: bool,
}

impl<F: Files> Folder<'_, '_, F> {
    /// Makes it, or takes it where it is there and empty, and makes the folder of flashes in it.
    ///
    /// # Errors
    ///
    /// `InUse` where it is there and not an empty folder; `Open` where it cannot be made or read; `Memory`.
    fn make(&self) -> Result<(), Refusal> {
        if let Err(error) = fs::create_dir(self.files, self.path) {
            if error.kind() != ErrorKind::AlreadyExists {
                return Err(Refusal::Open);
            }
            if !self.is_empty()? {
                return Err(Refusal::InUse);
            }
        }
        let flashes = self.inside("flash")?;
        fs::create_dir(self.files, flashes.as_str()).map_err(|_| Refusal::Open)
    }

    /// Whether it is an empty folder.
    ///
    /// # Errors
    ///
    /// `Open` where it cannot be read; `Memory`.
    fn is_empty(&self) -> Result<bool, Refusal> {
        match fs::read_dir(&(self.files, self.alloc), self.path) {
            Ok(mut entries) => match entries.next() {
                None => Ok(true),
                Some(Ok(_)) => Ok(false),
                Some(Err(error)) => Err(unread(&error)),
            },
            Err(error) if error.kind() == ErrorKind::NotADirectory => Ok(false),
            Err(error) => Err(unread(&error)),
        }
    }

    /// The path of a name in it.
    ///
    /// # Errors
    ///
    /// `Memory`.
    fn inside(&self, name: &str) -> Result<String, Refusal> {
        format!(in self.alloc; "{}/{name}", self.path).map_err(|_| Refusal::Memory)
    }

    /// Writes a flash, or the patch of the start's that gives it.
    ///
    /// # Errors
    ///
    /// `Explore` for want of memory; `Trace` and `Write` where a write fails.
    fn write_bytes<S: Flash, W: Write + Drop>(
        &self,
        start: &Start,
        flash: &S,
        out: W,
    ) -> Result<(), Refusal>
        requires { (S.seen flash.now).geometry ≡ start.now.geometry }
    {
        let mut blocks = in_blocks(self.alloc, out)?;
        if self.patches {
            write_patch(start, flash, &mut blocks)?;
        } else {
            write_slots(flash, &mut blocks)?;
        }
        let _ = finish(blocks)?;
        Ok(())
    }

    /// Writes a flash in a file with its digest's name.
    ///
    /// # Errors
    ///
    /// `Open` where it cannot be made; `Memory`; those of `write_bytes`.
    fn write_flash<S: Flash>(
        &self,
        start: &Start,
        digest: &[u8; 32],
        flash: &S,
    ) -> Result<(), Refusal>
        requires { (S.seen flash.now).geometry ≡ start.now.geometry }
    {
        let mut name = Line::new();
        name.put("flash/");
        name.put_hex(digest);
        name.put(if self.patches { ".patch" } else { ".bin" });
        let path = self.inside(name.as_str())?;
        let mut outfile = Outfile::in_new_folder(self.files, self.alloc, path.as_str())?;
        let written = self.write_bytes(start, flash, &mut outfile.file);
        outfile.end(written)
    }

    /// Writes the flash at the last cut of a schedule from a start, and the one that the boot from there leaves, if that is not written yet.
    ///
    /// # Errors
    ///
    /// Those of `write_flash`; `Replay` and `Memory` for want of memory.
    fn write_case(
        &self,
        start: &Start,
        from: &Start,
        schedule: &Schedule,
        digests: (&[u8; 32], &[u8; 32]),
        written: &mut BTreeSet<[u8; 32]>,
    ) -> Result<(), Refusal>
        requires { from.now.geometry ≡ start.now.geometry }
    {
        let (digest, left) = digests;
        let flash: JournalFlash = flash_at_cut(self.alloc, from, schedule)?;
        self.write_flash(start, digest, &flash)?;
        if written.insert(*left).map_err(|_| Refusal::Memory)? {
            let (_, flash) = replay::<JournalFlash>(self.alloc, from, schedule)?;
            self.write_flash(start, left, &flash)?;
        }
        Ok(())
    }

    /// The same of the flash that losses leave.
    ///
    /// # Errors
    ///
    /// Those of `write_case`; `Explore` for want of memory.
    fn write_lost(
        &self,
        start: &Start,
        erasing: Erasing,
        case: &LostCase,
        written: &mut BTreeSet<[u8; 32]>,
    ) -> Result<(), Refusal> {
        let Ok(from) = start_after::<JournalFlash>(self.alloc, start, erasing, &case.losses) else {
            return Err(Refusal::Explore(ExploreError::Memory));
        };
        // The losses of a case can occur.
        let from = from.ok_or(Refusal::NoCase)?;
        let digests = (&case.digest, &case.left);
        self.write_case(start, &from, &Schedule::new(), digests, written)
    }

    /// Writes the flashes of a table, and those that the boots from there leave, each once.
    ///
    /// # Errors
    ///
    /// Those of `write_case` and `write_lost`.
    fn write_flashes(&self, start: &Start, table: &Table) -> Result<(), Refusal> {
        let mut written = table.digests(self.alloc)?;
        match table {
            Table::OfCuts(found) => {
                for case in &found.cases {
                    let digests = (&case.digest, &case.left);
                    self.write_case(start, start, &case.schedule, digests, &mut written)?;
                }
            }
            Table::OfLosses(found, erasing) => {
                for case in &found.cases {
                    self.write_lost(start, *erasing, case, &mut written)?;
                }
            }
        }
        Ok(())
    }

    /// Writes all of it: the start's flash where the others are patches of that, the flashes, and the table last.
    ///
    /// # Errors
    ///
    /// `Open` where a file cannot be made; those of `write_flashes` and `write_table`.
    fn write(&self, start: &Start, table: &Table) -> Result<(), Refusal> {
        if self.patches {
            self.write_start(start)?;
        }
        self.write_flashes(start, table)?;
        let path = self.inside("cases.tsv")?;
        let mut outfile = Outfile::in_new_folder(self.files, self.alloc, path.as_str())?;
        let written = self.write_table(table, &mut outfile.file);
        outfile.end(written)
    }

    /// Writes the table.
    ///
    /// # Errors
    ///
    /// `Explore` for want of memory; `Write`.
    fn write_table<W: Write + Drop>(&self, table: &Table, out: W) -> Result<(), Refusal> {
        let mut blocks = in_blocks(self.alloc, out)?;
        table.write(&mut blocks)?;
        let _ = finish(blocks)?;
        Ok(())
    }

    /// Writes the flash of the start.
    ///
    /// # Errors
    ///
    /// `Open` where its file cannot be made; `Write`; `Memory`.
    fn write_start(&self, start: &Start) -> Result<(), Refusal> {
        let path = self.inside("start.bin")?;
        let mut outfile = Outfile::in_new_folder(self.files, self.alloc, path.as_str())?;
        let primary = outfile.file.write_all(start.primary());
        let written = primary.and_then(|_| outfile.file.write_all(start.secondary()));
        outfile.end(written.map_err(|_| Refusal::Write))
    }
}

/// A folder that is to be made.
#[derive(Clone, Copy, Debug)]
pub struct NewFolder<'p> {
    path: &'p str,
    /// Whether flashes are written as patches of the start's.
    patches: bool,
}

impl<'p> NewFolder<'p> {
    /// That which the words name, if they name one.
    ///
    /// # Errors
    ///
    /// `Argument` where patches are asked for without a folder.
    fn named(arguments: &ArgMatches<'p>) -> Result<Option<NewFolder<'p>>, Refusal>
        ensures given { IfOk result (GivesFolder (found_of arguments.now)) }
        ensures refused { IfErr result (LacksFolder (found_of arguments.now)) }
    {
        let patches = arguments.get_flag("patches");
        match arguments.get_str("dir") {
            Some(path) => Ok(Some(NewFolder { path, patches })),
            None if patches => Err(Refusal::Argument),
            None => Ok(None),
        }
    }
}

/// What `vectors` is asked for: the flashes that so many cuts, or losses, leave from a start, and the folder that they go into, if any.
#[derive(Drop)]
pub struct VectorsAsked<'p> {
    start: Start,
    cuts: Cuts,
    /// How an erase fails, where power may be lost within an operation.
    torn: Option<Erasing>,
    folder: Option<NewFolder<'p>>,
}

/// What `vectors` is asked for. The words are checked before a file is touched.
///
/// # Errors
///
/// `Source`, `Layout` and the numbers of the words; `Argument`; what `read_start` refuses.
pub fn read<'p, F: KnownFiles>(
    files: &F,
    alloc: Global,
    arguments: &ArgMatches<'p>,
) -> Result<VectorsAsked<'p>, Refusal>
    ensures given { IfOk result (GivesVectors (F.holds files.now) (found_of arguments.now)) }
    ensures few { IfOk result (λ asked. IsFew asked.cuts) }
    ensures refused { IfErr result (LacksVectors (F.holds files.now) (found_of arguments.now)) }
{
    let options = match flash_options(arguments) {
        Ok(options) => options,
        Err(refusal) => return Err(refusal),
    };
    let cuts = Cuts::read(arguments)?;
    let torn = torn_option(arguments)?;
    let folder = NewFolder::named(arguments)?;
    let start = read_start(files, alloc, &options)?;
    Ok(VectorsAsked {
        start,
        cuts,
        torn,
        folder,
    })
}

impl VectorsAsked<'_> {
    /// The flashes that are found.
    ///
    /// # Errors
    ///
    /// Where an allocation failed.
    fn find(&self, alloc: Global) -> Result<Table, AllocError>
        requires { IsFew self.now.cuts }
        ensures { IfOk result (AreFound self.now (bound_of self.now.cuts)) }
    {
        let bound = self.cuts.bound();
        match self.torn {
            None => Ok(Table::OfCuts(find_cases::<JournalFlash>(alloc, &self.start, bound)?)),
            Some(erasing) => {
                let found = find_losses::<JournalFlash>(alloc, &self.start, erasing, bound)?;
                Ok(Table::OfLosses(found, erasing))
            }
        }
    }

    /// The flashes that are asked for.
    ///
    /// # Errors
    ///
    /// `MoreCuts` where any number is asked for, and flashes that 16 cuts leave may lead to more; `Explore` for want of memory.
    fn search(&self, alloc: Global) -> Result<Table, Refusal>
        requires { IsFew self.now.cuts }
        ensures found { IfOk result (AreFlashes self.now) }
        ensures refused { IfErr result (RefusesSearch self.now) }
    {
        let Ok(table) = self.find(alloc) else {
            return Err(Refusal::Explore(ExploreError::Memory));
        };
        match self.cuts {
            Cuts::Any if !table.is_whole() => Err(Refusal::MoreCuts),
            _ => Ok(table),
        }
    }
}

/// Prints each distinct flash that schedules of so many cuts leave, or so many losses of power, as a row of a table: the first
/// schedule that leaves it, its digest, the outcome of the boot from there, and the digest of the flash that this boot leaves. Where a folder is
/// named, the table and the flashes are written into it, and how many flashes there are is printed. The folder is made before the search
/// begins.
///
/// # Errors
///
/// `MoreCuts`; `Explore` for want of memory; `Write`; `InUse` and `Open` of the folder, and what refuses its files.
pub fn answer<F: Files, O: Write>(
    files: &WatchedFiles<'_, F>,
    alloc: Global,
    asked: &VectorsAsked<'_>,
    out: &mut O,
) -> Result<(), Refusal>
    requires { IsFew asked.now.cuts }
    ensures { AnswersVectors asked.now (O.contents out.old) (O.contents out.new) result }
{
    let Some(NewFolder { path, patches }) = asked.folder else {
        return print(alloc, asked, out);
    };
    let folder = Folder {
        files,
        alloc,
        path,
        patches,
    };
    folder.make()?;
    let table = asked.search(alloc)?;
    folder.write(&asked.start, &table)?;
    let (count, all) = (table.len(), yes_or_no(table.is_whole()));
    let Ok(text) = format!(in alloc; "flashes {count}\nall {all}\n") else {
        return Err(Refusal::Memory);
    };
    write_text(out, text.as_bytes())?;
    Ok(())
}

/// Prints the table.
///
/// # Errors
///
/// Those of `search`; `Write`.
fn print<O: Write>(alloc: Global, asked: &VectorsAsked<'_>, out: &mut O) -> Result<(), Refusal>
    requires few { IsFew asked.now.cuts }
    requires printed { asked.now.folder ≡ None }
    ensures { AnswersVectors asked.now (O.contents out.old) (O.contents out.new) result }
{
    let table = asked.search(alloc)?;
    table.write(out)?;
    Ok(())
}

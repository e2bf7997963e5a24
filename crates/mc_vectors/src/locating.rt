//! Where a flash occurs among those that power cuts leave, or in which sectors it differs from the nearest of them.
ghost use Rattle.std.specs.Prelude.{◌≡◌, ◌+◌, ◌++◌, ◌<◌, ◌≤◌, ℕ, [], AllPairs, Contains, IfOk, OnErr, OnOk, Some, length, min, true};
ghost use Rattle.std.specs.Io.KnownBytes.{Appends};
ghost use Rattle.mc_boot.specs.Outcome.{after};
ghost use Rattle.mc_explore.specs.Schedules.{CanOccur};
ghost use Rattle.mc_flash.specs.Flash.{Content, IsSized, bytes_of, sectors_of, size_of};
ghost use Rattle.mc_flash.specs.declared.op.Slot.TheVariants.{Primary, Secondary};
ghost use Rattle.mc_output.specs.Text.{AppendsPrefix};
ghost use Rattle.mc_start.specs.Start.{begun};
ghost use Rattle.mc_vectors.specs.Cases.{AnyCuts, AtMost, ComesBefore};
ghost use Rattle.mc_vectors.specs.Locating.{IsNearest, content_of, differing, distance, head_text, is_other, located_text, sector_line};
ghost use Rattle.mc_vectors.specs.declared.case.Case.{Case};
ghost use Rattle.mc_vectors.specs.inner.Locating.{IsNearestCase, differing_in};

use crate::case::Case;
use crate::search::find_cases;
use mc_explore::{ReplayError, Schedule, Start, flash_at_cut};
use mc_flash::{Flash, Slot};
use mc_output::{Line, WriteFailed, write_line};
use std::alloc::{AllocError, Global};
use std::io::Write;
use std::marker::Model;

/// A sector of a slot.
#[derive(Clone, Copy, Debug, PartialEq, Eq)]
pub struct SectorId {
    pub slot: Slot,
    /// Counted from 0 in its slot.
    pub number: u32,
}

/// The flash that comes nearest to a given one, among those that power cuts leave.
#[derive(Drop)]
pub struct Located {
    /// The first schedule that leaves it.
    pub schedule: Schedule,
    /// The sectors in which the two differ, the primary's first, each slot's in their order.
    pub differs: Vec<SectorId>,
    /// Whether no number of cuts leaves a flash that was not searched, and so none that is nearer.
    pub whole: bool,
}

// What the slots of the given flash hold.
#[derive(Drop)]
struct Wanted<'a> {
    primary: &'a [u8],
    secondary: &'a [u8],
}

impl<'a> Model for Wanted<'a> {
    ghost use Rattle.mc_flash.specs.Flash.{Content};

    ghost Value = { Content };

    ghost view = { λ w. record { primary = w.primary.now; secondary = w.secondary.now } };
}

impl<'a> Wanted<'a> {
    // The bytes of a slot.
    fn bytes(&self, slot: Slot) -> &[u8]
        ensures { result.now ≡ bytes_of self.now slot }
    {
        match slot {
            Slot::Primary => self.primary,
            Slot::Secondary => self.secondary,
        }
    }
}

// Whether a sector of a flash holds other bytes than are wanted.
fn is_other<F: Flash>(flash: &F, wanted: &Wanted<'_>, at: SectorId) -> bool
    requires sized { IsSized (F.seen flash.now).geometry wanted.now }
    requires inside { at.number < sectors_of (F.seen flash.now).geometry at.slot }
    ensures { result ≡ is_other (F.seen flash.now).geometry (F.seen flash.now).content
        wanted.now at }
{
    let size = flash.layout().sector() as usize;
    let from = at.number as usize * size;
    let to = from + size;
    flash.read(at.slot)[from..to] != wanted.bytes(at.slot)[from..to]
}

// How many sectors of a slot hold other bytes, or `most` where that is less.
fn count_in<F: Flash>(flash: &F, wanted: &Wanted<'_>, slot: Slot, most: usize) -> usize
    requires { IsSized (F.seen flash.now).geometry wanted.now }
    ensures { result ≡ min most (length (differing_in (F.seen flash.now).geometry
        (F.seen flash.now).content wanted.now slot)) }
{
    let mut count = 0;
    for number in 0..flash.layout().sectors(slot) {
        if count < most && is_other(flash, wanted, SectorId { slot, number }) {
            count += 1;
        }
    }
    count
}

// How many sectors of both slots hold other bytes, or `most` where that is less.
#[tactic(auto, using(crate::proofs::Differing::distance_both))]
fn count<F: Flash>(flash: &F, wanted: &Wanted<'_>, most: usize) -> usize
    requires { IsSized (F.seen flash.now).geometry wanted.now }
    ensures { result ≡ min most (distance (F.seen flash.now).geometry (F.seen flash.now).content
        wanted.now) }
{
    let primary = count_in(flash, wanted, Slot::Primary, most);
    primary + count_in(flash, wanted, Slot::Secondary, most - primary)
}

// Adds the sectors of a slot that hold other bytes to those before.
fn add_differing<F: Flash>(
    differs: &mut Vec<SectorId>,
    flash: &F,
    wanted: &Wanted<'_>,
    slot: Slot,
) -> Result<(), AllocError>
    requires { IsSized (F.seen flash.now).geometry wanted.now }
    ensures { OnOk result (differs.new.items ≡ differs.old.items
        ++ differing_in (F.seen flash.now).geometry (F.seen flash.now).content wanted.now slot) }
{
    for number in 0..flash.layout().sectors(slot) {
        let at = SectorId { slot, number };
        if is_other(flash, wanted, at) {
            differs.push(at)?;
        }
    }
    Ok(())
}

// The sectors that hold other bytes.
#[tactic(auto, using(crate::proofs::Differing::in_both))]
fn differing<F: Flash>(
    alloc: Global,
    flash: &F,
    wanted: &Wanted<'_>,
) -> Result<Vec<SectorId>, AllocError>
    requires { IsSized (F.seen flash.now).geometry wanted.now }
    ensures { IfOk result (λ differs. differs.items ≡ differing (F.seen flash.now).geometry
        (F.seen flash.now).content wanted.now) }
{
    let mut differs = Vec::new(alloc);
    add_differing(&mut differs, flash, wanted, Slot::Primary)?;
    add_differing(&mut differs, flash, wanted, Slot::Secondary)?;
    Ok(differs)
}

// The flash that a schedule leaves.
fn flash_left<F: Flash>(alloc: Global, start: &Start, schedule: &Schedule) -> Result<F, AllocError>
    requires { CanOccur (begun start.now) schedule.now }
    ensures left { IfOk result
        (λ flash. after (begun start.now) schedule.now ≡ Some (F.seen flash).content) }
    ensures geometry { IfOk result (λ flash. (F.seen flash).geometry ≡ start.now.geometry) }
    ensures sized { IfOk result (λ flash. IsSized start.now.geometry (F.seen flash).content) }
{
    let flash = match flash_at_cut::<F>(alloc, start, schedule) {
        Ok(flash) => flash,
        Err(ReplayError::Memory) => return Err(AllocError),
        Err(ReplayError::CannotOccur(_)) => unreachable!(),
    };
    // The slots give the prover their lengths.
    let _primary = flash.read(Slot::Primary);
    let _secondary = flash.read(Slot::Secondary);
    Ok(flash)
}

// How many sectors of the flash that a schedule leaves hold other bytes, or `most` where that is less.
fn count_left<F: Flash>(
    alloc: Global,
    start: &Start,
    schedule: &Schedule,
    wanted: &Wanted<'_>,
    most: usize,
) -> Result<usize, AllocError>
    requires occurs { CanOccur (begun start.now) schedule.now }
    requires sized { IsSized start.now.geometry wanted.now }
    ensures { IfOk result (λ count. (u : Content)
        → after (begun start.now) schedule.now ≡ Some u
        → count ≡ min most (distance start.now.geometry u wanted.now)) }
{
    let flash = flash_left::<F>(alloc, start, schedule)?;
    Ok(count(&flash, wanted, most))
}

// The schedule of the first case whose flash comes nearest. It takes the memory of one flash at a time.
fn nearest<F: Flash>(
    alloc: Global,
    start: &Start,
    cases: &[Case],
    wanted: &Wanted<'_>,
) -> Result<Schedule, AllocError>
    requires occur { (c : Case) → Contains cases.now c → CanOccur (begun start.now) c.schedule }
    requires sorted { AllPairs (λ c d. ComesBefore c.schedule d.schedule) cases.now }
    requires sized { IsSized start.now.geometry wanted.now }
    ensures { IfOk result (IsNearestCase (begun start.now) wanted.now cases.now) }
{
    let layout = start.layout();
    let mut best = Schedule::new();
    // More than there are sectors.
    let mut least = layout.primary() as usize + layout.secondary() as usize + 1;
    for case in cases {
        if least == 0 {
            break;
        }
        let count = count_left::<F>(alloc, start, &case.schedule, wanted, least)?;
        if count < least {
            best = case.schedule;
            least = count;
        }
    }
    Ok(best)
}

/// The flash that comes nearest to the one whose slots hold these bytes, among those that schedules of at most so many cuts
/// leave: that which differs from it in the fewest sectors. Of several it is that of the first schedule, the shortest first,
/// and of those that are as long the first in their order. Where none differs, the schedule leaves the given flash itself.
/// Flashes are taken for distinct by their digests, as `find_cases` does. It takes the memory of `find_cases`, and that of one
/// flash more at a time.
/// Promised: the flash nearest to a dump (`nearest`, `whole`, `differs`, `same`).
///
/// # Errors
///
/// Where an allocation failed.
pub fn locate<F: Flash>(
    alloc: Global,
    start: &Start,
    primary: &[u8],
    secondary: &[u8],
    bound: u8,
) -> Result<Located, AllocError>
    requires bound { bound ≤ 16 }
    requires primary { length primary.now ≡ size_of start.now.geometry Primary }
    requires secondary { length secondary.now ≡ size_of start.now.geometry Secondary }
    ensures nearest { IfOk result (λ located. IsNearest (begun start.now) (AtMost bound)
        (content_of primary.now secondary.now) located.schedule) }
    // Where it is whole, no number of cuts leaves one that is nearer.
    ensures whole { IfOk result (λ located. located.whole ≡ true → IsNearest (begun start.now)
        AnyCuts (content_of primary.now secondary.now) located.schedule) }
    ensures differs { IfOk result (λ located. (u : Content)
        → after (begun start.now) located.schedule ≡ Some u → located.differs.items
        ≡ differing start.now.geometry u (content_of primary.now secondary.now)) }
    // Where no sector differs, the schedule leaves the given flash.
    ensures same { IfOk result (λ located. located.differs.items ≡ []
        → after (begun start.now) located.schedule
        ≡ Some (content_of primary.now secondary.now)) }
{
    let found = find_cases::<F>(alloc, start, bound)?;
    let wanted = Wanted { primary, secondary };
    let schedule = nearest::<F>(alloc, start, &found.cases, &wanted)?;
    let flash = flash_left::<F>(alloc, start, &schedule)?;
    let differs = differing(alloc, &flash, &wanted)?;
    Ok(Located {
        schedule,
        differs,
        whole: found.whole,
    })
}

impl SectorId {
    // Its line.
    fn line(&self) -> Line
        ensures { result ≡ sector_line self.now }
    {
        let mut line = Line::new();
        line.put(self.slot.name());
        line.put(" ");
        line.put_number(self.number);
        line.put("\n");
        line
    }
}

impl Located {
    // The first two lines: the schedule, and how many sectors differ.
    fn head(&self) -> Line
        ensures { result ≡ head_text self.now.schedule (length self.now.differs.items) }
    {
        let mut line = Line::new();
        line.put("schedule ");
        self.schedule.put_into(&mut line);
        line.put("\ndiffers ");
        line.put_long_number(self.differs.len() as u64);
        line.put("\n");
        line
    }
}

/// Writes which flash comes nearest: a line `schedule S`, a line `differs N`, and then N lines with the slot and the number of a sector that
/// differs, as `primary 3`. It takes no memory.
///
/// # Errors
///
/// `WriteFailed` where a write fails or takes no bytes: a beginning of the lines is out.
pub fn write_located<W: Write>(located: &Located, writer: &mut W) -> Result<(), WriteFailed>
    ensures whole { OnOk result (Appends (W.contents writer.old) (W.contents writer.new)
        (located_text located.now)) }
    ensures prefix { OnErr result (AppendsPrefix (W.contents writer.old) (W.contents writer.new)
        (located_text located.now)) }
{
    write_line(writer, &located.head())?;
    for at in &located.differs {
        write_line(writer, &at.line())?;
    }
    Ok(())
}

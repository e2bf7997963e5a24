//! A device, and what can happen to it.
ghost use Rattle.std.specs.Prelude.{◌≡◌, ◌+◌, ◌≤◌, [], ◌∷◌, length, drop, take, IfErr, IfOk, IfSome, MatchOption, OnOk};
ghost use Rattle.mc_boot.specs.Life.{confirm, cut, mark, store};
ghost use Rattle.mc_boot.specs.Outcome.{shown};
ghost use Rattle.mc_boot.specs.Plan.{powered};
ghost use Rattle.mc_boot.specs.Restart.{filled};
ghost use Rattle.mc_flash.specs.Flash.{erased};
ghost use Rattle.mc_trailer.specs.Trailer.{trailer_of};
ghost use Rattle.mc_trailer.specs.Tables.{is_set};
ghost use Rattle.mc_flash.specs.declared.op.Op.TheVariants.{Erase};
ghost use Rattle.mc_flash.specs.declared.op.Slot.TheVariants.{Primary, Secondary};
ghost use Rattle.mc_life.specs.Device.{EndsAs, IsTornTo, RefusesTear, boot_ops, cut_ops, RefusesConfirm, RefusesCuts, RefusesDownload, RefusesErase, RefusesMark, RefusesRequest, RefusesStore, RefusesWrite, AllowsDownload, AllowsWrite, Goes, IsNew, asked, boots, loaded, wipes, with_part};

use crate::error::EventError;
use crate::request::Request;
use crate::wear::Wear;
use crate::{boots, work};
use mc_boot::{KnownImage, Outcome};
use mc_flash::{Flash, Slot};
use mc_start::Start;
use mc_tear::Reading;
use mc_trailer::{Flag, Rules, Trailer};
use std::alloc::Global;
use std::marker::Model;

/// For so many boots a flash that counts has room.
const MOST_BOOTS: u32 = 32;

// What is downloaded of a file, where it has as many bytes.
fn loaded(file: &[u8], bytes: Option<u32>) -> Option<&[u8]>
    ensures { MatchOption result (IfSome bytes (λ n. n ≤ length file.now) → ⊥)
        (λ part. IfSome bytes (λ n. n ≤ length file.now) × (part.now ≡ loaded file.now bytes)) }
{
    match bytes {
        Some(count) => file.get(..count as usize),
        None => Some(file),
    }
}

// So many bytes of a file from an offset on, where it has them.
fn part_of(file: &[u8], from: u32, count: u32) -> Option<&[u8]>
    ensures { MatchOption result (from + count ≤ length file.now → ⊥)
        (λ part. (from + count ≤ length file.now) × (part.now ≡ take count (drop from file.now))) }
{
    file.get(from as usize..)?.get(..count as usize)
}

// Whether a swap is finished.
fn is_done<F: Flash>(flash: &F) -> bool
    ensures { let f = F.seen flash.now in result
        ≡ is_set (trailer_of f.geometry f.content Primary).copy_done }
{
    is_set(Trailer::read(flash, Slot::Primary).copy_done)
}

// Whether a flag is set.
fn is_set(flag: Flag) -> bool
    ensures { result ≡ is_set flag }
{
    match flag {
        Flag::Set => true,
        Flag::Unset | Flag::Bad => false,
    }
}

/// A device: its flash, the rules of its boots, whether an image runs, and how often its sectors were erased.
#[derive(Drop)]
pub struct Device<F: Flash> {
    flash: F,
    rules: Rules,
    runs: bool,
    wear: Wear,
}

impl<F: Flash> Model for Device<F> {
    ghost use Rattle.mc_life.specs.Device.{Standing};

    ghost Value = { Standing };

    ghost view = { λ d. record { seen = F.seen d.flash; rules = d.rules; runs = d.runs; wear = d.wear } };
}

impl<F: Flash> Device<F> {
    /// A device with the flash of a start. The power is off.
    ///
    /// # Errors
    ///
    /// `Memory`.
    pub fn new(alloc: Global, start: &Start) -> Result<Device<F>, EventError>
        ensures new { IfOk result (IsNew start.now) }
        ensures err { IfErr result (λ e. e ≡ EventError.Memory) }
    {
        let layout = start.layout();
        let rules = start.rules();
        let flash = F::load(
            alloc,
            layout,
            rules.grain,
            start.primary(),
            start.secondary(),
            MOST_BOOTS,
        )?;
        Ok(Device {
            flash,
            rules,
            runs: false,
            wear: Wear::new(alloc, layout)?,
        })
    }

    /// Its flash.
    pub fn flash(&self) -> &F
        ensures { F.seen result.now ≡ self.now.seen }
    {
        &self.flash
    }

    /// The rules of its boots.
    pub fn rules(&self) -> Rules
        ensures { result ≡ self.now.rules }
    {
        self.rules
    }

    /// How often its sectors were erased.
    pub fn wear(&self) -> &Wear
        ensures { result.now ≡ self.now.wear }
    {
        &self.wear
    }

    /// The running image erases a sector of the secondary.
    /// Promised, also of `store`, `download`, `write`, `request`, `confirm`, `mark`, `cut` and `boot`: each event leads on as `Leads` says
    /// (`goes`, `Goes`).
    /// Promised, also of `store`, `download`, `write`, `request`, `confirm`, `mark`, `cut` and `boot`: an event is refused exactly for its
    /// reason, or for memory (`refused`).
    ///
    /// # Errors
    ///
    /// `NotRunning`, `NoSector`, `Memory`.
    pub fn erase(&mut self, sector: u32) -> Result<(), EventError>
        ensures goes { let s = self.old.seen in OnOk result (Goes self.old
            (store (erased s.geometry.sector sector s.content.secondary) ∷ [])
            (Erase Secondary sector ∷ []) self.new) }
        ensures refused { IfErr result (RefusesErase self.old sector) }
    {
        if !self.runs {
            return Err(EventError::NotRunning);
        }
        if self.flash.layout().secondary() <= sector {
            return Err(EventError::NoSector);
        }
        work::erase(&mut self.flash, &mut self.wear, sector)?;
        work::secondary_stands(&self.flash);
        Ok(())
    }

    /// The running image erases the secondary and writes these bytes there.
    ///
    /// # Errors
    ///
    /// `NotRunning`; `NotThatLong` where they are not as many as it has; `Memory`.
    pub fn store(&mut self, bytes: &[u8]) -> Result<(), EventError>
        ensures goes { OnOk result (Goes self.old (store bytes.now ∷ [])
            (wipes self.old.seen.geometry.secondary) self.new) }
        ensures refused { IfErr result (RefusesStore self.old bytes.now) }
    {
        if !self.runs {
            return Err(EventError::NotRunning);
        }
        if bytes.len() != self.flash.layout().size(Slot::Secondary) as usize {
            return Err(EventError::NotThatLong);
        }
        work::rewrite(&mut self.flash, &mut self.wear, bytes)?;
        work::secondary_stands(&self.flash);
        Ok(())
    }

    /// The running image confirms itself, where it may; where it may not, nothing happens.
    ///
    /// # Errors
    ///
    /// `NotRunning`, `Memory`.
    pub fn confirm(&mut self) -> Result<(), EventError>
        ensures goes { OnOk result (Goes self.old (confirm ∷ []) [] self.new) }
        ensures refused { IfErr result (RefusesConfirm self.old) }
    {
        if !self.runs {
            return Err(EventError::NotRunning);
        }
        self.wear.idles();
        mc_boot::confirm(&mut self.flash)?;
        Ok(())
    }

    /// The power comes on, and is lost after so many operations.
    ///
    /// # Errors
    ///
    /// `CannotOccur` where the boot makes no more than that; `Memory`.
    pub fn cut(&mut self, count: u32, known: &[Option<KnownImage<'_>>]) -> Result<(), EventError>
        ensures goes { OnOk result (Goes self.old (cut count ∷ [])
            (cut_ops (powered self.old.rules self.old.seen) (count ∷ [])) self.new) }
        ensures refused { IfErr result
            (RefusesCuts (powered self.old.rules self.old.seen) (count ∷ [])) }
    {
        boots::cut_all(&mut self.flash, &mut self.wear, self.rules, &[count], known)?;
        self.runs = false;
        Ok(())
    }

    /// The power comes on, and is lost within the operation of that number, of which the next boot reads this. An erase that is torn wears its
    /// sector as a whole one does.
    /// Promised: a tear leaves a case's flash; else 53 or 93 exactly (`torn`, `refused`).
    ///
    /// # Errors
    ///
    /// `CannotOccur` where the boot makes no more than that; `NoCase` where the operation leaves nothing that is read so; `Memory`.
    pub fn tear(
        &mut self,
        alloc: Global,
        count: u32,
        reading: &Reading,
        known: &[Option<KnownImage<'_>>],
    ) -> Result<(), EventError>
        ensures torn { OnOk result (IsTornTo self.old count reading.now self.new) }
        ensures refused { IfErr result
            (RefusesTear (powered self.old.rules self.old.seen) count reading.now) }
    {
        boots::tear(
            alloc,
            &mut self.flash,
            &mut self.wear,
            self.rules,
            count,
            reading,
            known,
        )?;
        self.runs = false;
        Ok(())
    }

    /// The power comes on, and is lost after so many operations, once for each number; and then the boot is left alone.
    /// Promised: a boot's outcome is the uncut boot's after its cuts (`outcome`).
    ///
    /// # Errors
    ///
    /// `CannotOccur` with the number of the first cut that can't occur; `Memory`.
    pub fn boot(
        &mut self,
        cuts: &[u32],
        known: &[Option<KnownImage<'_>>],
    ) -> Result<Outcome, EventError>
        requires { length cuts.now ≤ 16 }
        ensures goes { OnOk result (Goes self.old (boots cuts.now)
            (boot_ops (powered self.old.rules self.old.seen) cuts.now) self.new) }
        ensures outcome { IfOk result (λ o. EndsAs (powered self.old.rules self.old.seen) cuts.now
            (shown o)) }
        ensures refused { IfErr result
            (RefusesCuts (powered self.old.rules self.old.seen) cuts.now) }
    {
        boots::cut_all(&mut self.flash, &mut self.wear, self.rules, cuts, known)?;
        let outcome = boots::boot(&mut self.flash, &mut self.wear, self.rules, known)?;
        let runs = boots::starts(outcome.result);
        self.runs = runs;
        Ok(outcome)
    }

    /// The running image erases the secondary and writes a file from its start, all of it, or until it is stopped after so many
    /// bytes.
    /// Promised, also of `write`: downloads and writes only of bytes that are there and fit (`allowed`).
    ///
    /// # Errors
    ///
    /// `NotRunning`; `NotThatLong` where the file has not as many bytes, or the secondary does not hold them; `Memory`.
    pub fn download(
        &mut self,
        alloc: Global,
        file: &[u8],
        bytes: Option<u32>,
    ) -> Result<(), EventError>
        ensures goes { let g = self.old.seen.geometry in OnOk result (Goes self.old
            (store (filled g Secondary (loaded file.now bytes)) ∷ []) (wipes g.secondary) self.new) }
        ensures allowed { OnOk result (AllowsDownload self.old file.now bytes) }
        ensures refused { IfErr result (RefusesDownload self.old file.now bytes) }
    {
        if !self.runs {
            return Err(EventError::NotRunning);
        }
        let Some(part) = loaded(file, bytes) else {
            return Err(EventError::NotThatLong);
        };
        if part.len() > self.flash.layout().size(Slot::Secondary) as usize {
            return Err(EventError::NotThatLong);
        }
        let slot = work::filled(alloc, self.flash.layout(), part)?;
        work::rewrite(&mut self.flash, &mut self.wear, &slot)?;
        work::secondary_stands(&self.flash);
        Ok(())
    }

    /// The running image writes so many bytes of a file, from an offset on, at the same offset of the secondary, and erases nothing.
    /// Where the last unit is not whole, it is padded with 0xff.
    ///
    /// # Errors
    ///
    /// `NotRunning`; `NotThatLong` where the file has not as many bytes, or the secondary does not hold them; `NotAligned` where the
    /// first byte begins no unit; `NotErased` where something is written there; `Memory`.
    pub fn write(
        &mut self,
        alloc: Global,
        file: &[u8],
        from: u32,
        count: u32,
    ) -> Result<(), EventError>
        ensures goes { let s = self.old.seen in OnOk result (Goes self.old
            (store (with_part s.geometry file.now from count s.content.secondary) ∷ []) [] self.new) }
        ensures allowed { OnOk result (AllowsWrite self.old file.now from count) }
        ensures refused { IfErr result (RefusesWrite self.old file.now from count) }
    {
        if !self.runs {
            return Err(EventError::NotRunning);
        }
        let Some(part) = part_of(file, from, count) else {
            return Err(EventError::NotThatLong);
        };
        if from as usize + part.len() > self.flash.layout().size(Slot::Secondary) as usize {
            return Err(EventError::NotThatLong);
        }
        if from % self.flash.layout().unit() != 0 {
            return Err(EventError::NotAligned);
        }
        self.wear.idles();
        work::write(alloc, &mut self.flash, from, part)?;
        work::secondary_stands(&self.flash);
        Ok(())
    }

    /// The running image requests a test of the secondary's image, or an upgrade for good: it writes the magic, and for the latter
    /// image-ok.
    ///
    /// # Errors
    ///
    /// `NotRunning`; `NotErased` where something is written there; `Memory`.
    pub fn request(&mut self, request: Request) -> Result<(), EventError>
        ensures goes { let s = self.old.seen in OnOk result (Goes self.old
            (store (asked s.geometry request s.content.secondary) ∷ []) [] self.new) }
        ensures refused { IfErr result (RefusesRequest self.old request) }
    {
        if !self.runs {
            return Err(EventError::NotRunning);
        }
        self.wear.idles();
        work::ask(&mut self.flash, request)?;
        work::secondary_stands(&self.flash);
        Ok(())
    }

    /// A confirmation of the running image is torn: these bytes stand at the primary's image-ok.
    ///
    /// # Errors
    ///
    /// `NotRunning`; `CannotMark` where no swap is finished, or where they are more than its room; `Memory`.
    pub fn mark(&mut self, alloc: Global, bytes: &[u8]) -> Result<(), EventError>
        ensures goes { OnOk result (Goes self.old (mark bytes.now ∷ []) [] self.new) }
        ensures refused { IfErr result (RefusesMark self.old bytes.now) }
    {
        if !self.runs {
            return Err(EventError::NotRunning);
        }
        if !is_done(&self.flash) {
            return Err(EventError::CannotMark);
        }
        if 8 < bytes.len() {
            return Err(EventError::CannotMark);
        }
        self.wear.idles();
        self.flash = work::marked(alloc, &self.flash, self.rules.grain, bytes, MOST_BOOTS)?;
        Ok(())
    }
}

//! Where the flashes after a power cut lie among those of the boot that was cut.
ghost use Rattle.std.specs.Prelude.{◌≡◌, ◌≢◌, ℕ, ◌+◌, ◌<◌, ◌≤◌, ◌^◌, IfSome, slice_get, true};
ghost use Rattle.mc_flash.specs.Flash.{Content, sectors_of};
ghost use Rattle.mc_flash.specs.declared.op.Op.TheVariants.{Erase};
ghost use Rattle.mc_flash.specs.Geometry.{in_pieces};
ghost use Rattle.mc_trailer.specs.declared.tables.Rules.{Rules};
ghost use Rattle.mc_boot.specs.Joins.{IsCut, erases_of};
ghost use Rattle.mc_boot.specs.Boot.{IsBootOf, begun, progress, course_list};
ghost use Rattle.mc_boot.specs.inner.Idle.{AllIdleBut, changes_nothing};
ghost use Rattle.mc_boot.specs.Outcome.{Report};
ghost use Rattle.mc_boot.specs.Plan.{plan, power_on, powered};

use crate::boot::Boot;
use crate::course::{Course, Opening};
use crate::kept_operations::count_kept;
use mc_flash::{Flash, Op, Slot, blank};

/// Where the flashes that the boot after a power cut leaves lie among those of the boot that was cut.
#[derive(Clone, Copy)]
pub struct SharedTail {
    // How many operations of the boot that was cut are not made again.
    kept: u32,
    // How many erases the next boot begins with.
    erases: u32,
    // After how many operations the power was lost.
    done: u32,
    // Where that is after these erases: the only one of them that changes something.
    only: u32,
    ghost small: { kept + erases < 2 ^ 31 },
}

impl SharedTail {
    ghost use Rattle.mc_boot.specs.SharedTail.{index_in_parent, IsMovedBy, IsSharedTail};

    /// Where the flashes of the next boot lie among those of the boot that was cut: it stands where that one left the flash. None where
    /// that does not follow from the courses of the two, or from which sectors are erased.
    /// Promised, also of `index_in_parent`, `kept` and `erases`: each flash on the way to a shared outcome (`IsSharedTail`).
    pub fn find<F: Flash>(flash: &F, cut: &Boot, next: &Boot) -> Option<SharedTail>
        requires { IsBootOf (F.seen flash.now).geometry next.now }
        ensures { (r : Rules) (s : Content) (whole : Report) → let f = F.seen flash.now in
            let x = power_on r f.geometry s in IsCut x f.content cut.now whole
            → progress next.now ≡ begun r (plan (powered r f))
            → IfSome result (IsSharedTail x f.content) }
    {
        let done = cut.count();
        let Some(course) = cut.course() else {
            return None;
        };
        let Some(following) = next.course() else {
            return None;
        };
        if done == 0 {
            return Some(SharedTail {
                kept: 0,
                erases: 0,
                done,
                only: 0,
            });
        }
        let kept = count_kept(&course, done, &following)?;
        let erases = erases_of(&following);
        let only = if done <= kept + erases {
            erases
        } else {
            only_change(flash, &following, erases)?
        };
        Some(SharedTail {
            kept,
            erases,
            done,
            only,
        })
    }

    /// After how many operations of the boot that was cut the flash was what it is after that number of the next one.
    #[inline]
    pub fn index_in_parent(&self, number: u32) -> u32
        requires { number < 2 ^ 31 }
        ensures { result ≡ index_in_parent self.now number }
    {
        if self.erases <= number {
            self.kept + number
        } else if self.done <= self.kept + self.erases {
            self.done.max(self.kept + number)
        } else if number <= self.only {
            self.done
        } else {
            self.kept + self.erases
        }
    }

    /// From which number on the next boot makes the operations of the boot that was cut.
    pub fn erases(&self) -> u32
        ensures { result ≡ self.now.erases }
    {
        self.erases
    }

    /// How many operations of the boot that was cut the next one does not make again.
    pub fn kept(&self) -> u32
        ensures { result ≡ self.now.kept }
    {
        self.kept
    }

    /// The same among flashes of which so many others stand first, where the numbers are small.
    pub fn moved_by(&self, others: u32) -> Option<SharedTail>
        ensures { IfSome result (IsMovedBy others self.now) }
    {
        let kept = self.kept.checked_add(others)?;
        let done = self.done.checked_add(others)?;
        let (erases, only) = (self.erases, self.only);
        if kept.checked_add(erases)? >= 1 << 31 {
            return None;
        }
        Some(SharedTail {
            kept,
            erases,
            done,
            only,
        })
    }
}

/// How many erases a course begins with, before it writes in their sectors.
fn erases_of(course: &Course) -> u32
    ensures count { result ≡ erases_of course.now }
    ensures at_most { result ≤ 400000 }
{
    let count = course.layout.trailer_sectors();
    match course.opening {
        Opening::New { .. } => count,
        Opening::Resumed { first, erases, .. } => {
            if first == 3 * course.sectors {
                0
            } else if erases {
                count + 1
            } else {
                1
            }
        }
    }
}

/// Whether a sector is erased.
pub fn is_erased<F: Flash>(flash: &F, slot: Slot, sector: u32) -> bool
    requires { sector < sectors_of (F.seen flash.now).geometry slot }
    ensures { result ≡ true → changes_nothing (F.seen flash.now).geometry
        (F.seen flash.now).content (Erase slot sector) ≡ true }
{
    let size = flash.layout().sector() as usize;
    let at = sector as usize * size;
    blank(&flash.read(slot)[at..at + size])
}

/// Whether the operation of that number erases a sector that is erased.
fn is_idle<F: Flash>(flash: &F, course: &Course, number: u32) -> bool
    requires { course.now.layout ≡ in_pieces course.now.grain (F.seen flash.now).geometry }
    ensures { result ≡ true → IfSome (slice_get (course_list course.now) number)
        (λ op. changes_nothing (F.seen flash.now).geometry (F.seen flash.now).content op ≡ true) }
{
    let Some(Op::Erase(slot, sector)) = course.op(number) else {
        return false;
    };
    is_erased(flash, slot, sector)
}

/// The only one of the first so many operations that changes something: the one after them where none does, and nothing where
/// several do.
fn only_change<F: Flash>(flash: &F, course: &Course, count: u32) -> Option<u32>
    requires { course.now.layout ≡ in_pieces course.now.grain (F.seen flash.now).geometry }
    ensures { IfSome result (λ only. AllIdleBut (F.seen flash.now).geometry
        (F.seen flash.now).content (course_list course.now) only count) }
{
    let mut only = count;
    for number in 0..count {
        if !is_idle(flash, course, number) {
            if only < count {
                return None;
            }
            only = number;
        }
    }
    Some(only)
}

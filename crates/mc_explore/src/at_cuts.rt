//! What was told at the cuts of one boot.
ghost use Rattle.std.specs.Prelude.{◌≡◌, ℕ, ◌+◌, ◌<◌, ◌≤◌, ◌^◌, ◌⊎◌, length, None, IfOk, IfSome, IsSomeAnd, true};
ghost use Rattle.mc_boot.specs.SharedTail.{index_in_parent};
ghost use Rattle.mc_explore.specs.inner.LastCuts.{AreToldAlike, IsIndexOf, IsNothing, IsOneRunMore};
ghost use Rattle.mc_explore.specs.inner.Runs.{IsSplit};

use crate::run::{Run, begin_at, run_near};
use mc_boot::SharedTail;
use mc_flash::most_operations;
use mc_start::{Schedule, Start};
use std::alloc::{AllocError, Global};

/// In how many runs what is told is kept, at the most. A swap has 3,072 transfers at the most, and the same is told within one.
const MOST_RUNS: u64 = 4096;

/// More operations than a boot makes.
pub(crate) const MOST_COUNT: u32 = 0x8000_0000;

/// A node whose children lie among those of its parent.
#[derive(Clone, Copy)]
pub struct Joined {
    /// The path to it.
    pub path: Schedule,
    pub shared_tail: SharedTail,
}

/// What was told after some cuts of one boot, one after another. It keeps no more than it took room for, and so takes memory only when
/// it is made.
#[derive(Drop)]
pub struct AtCuts<O: Copy> {
    /// The path after which that boot begins.
    pub parent_path: Schedule,
    /// The first of those cuts.
    pub first: u32,
    /// How many they are.
    pub count: u32,
    /// What was told of them, by runs of cuts of which the same was told; the first cut has the number 0 there.
    pub told: Vec<Run<O>>,
    /// The boot after one of its cuts whose rows come from the flash: what they tell is kept.
    pub joined: Option<Joined>,
}

impl<O: Copy> AtCuts<O> {
    // Nothing yet, with room for so many runs.
    fn new(alloc: Global, room: usize) -> Result<AtCuts<O>, AllocError>
        ensures none { IfOk result IsNothing }
        ensures joined { IfOk result (λ none. none.joined ≡ None) }
    {
        Ok(AtCuts {
            parent_path: Schedule::new(),
            first: 0,
            count: 0,
            told: Vec::with_capacity(alloc, room)?,
            joined: None,
        })
    }

    /// Nothing yet, with room for what is told at the cuts of so many boots of a start, one after another. Below two cuts no boot goes on
    /// with another that could be cut as well.
    ///
    /// # Errors
    ///
    /// Where the allocation failed.
    pub fn of(alloc: Global, start: &Start, boots: u64, bound: u8) -> Result<AtCuts<O>, AllocError>
        ensures none { IfOk result IsNothing }
        ensures joined { IfOk result (λ none. none.joined ≡ None) }
    {
        let most = match bound {
            0 | 1 => 0,
            _ => most_operations(start.layout(), start.rules().grain).min(MOST_RUNS),
        };
        AtCuts::new(alloc, most.saturating_mul(boots) as usize)
    }

    /// What was told at the cut of its boot where that of the other boot finds its flash, if it is kept; and of how many of the cuts
    /// after it the same was told, as far as it is known. It is looked for first in the run `near`, which is then the one to look in
    /// for the cut after these.
    #[inline]
    pub fn find(&self, shared_tail: &SharedTail, number: u32, near: &mut usize) -> Option<(&O, u32)>
        requires { number < 2 ^ 31 }
        ensures { (i : ℕ) → index_in_parent shared_tail.now number ≡ self.now.first + i
            → IsSplit self.now.told.items self.now.count → i < self.now.count → IsSomeAnd result
            (λ found. AreToldAlike shared_tail.now self.now number i found.1 found.0.now) }
    {
        let index = shared_tail.index_in_parent(number).checked_sub(self.first)?;
        *near = run_near(&self.told, self.count, index, *near);
        let run = self.told.get(*near)?;
        if number < shared_tail.erases() {
            return Some((&run.of, 0));
        }
        *near += 1;
        let end = begin_at(&self.told, self.count, *near);
        Some((&run.of, end.saturating_sub(index).saturating_sub(1)))
    }

    /// Whether all is kept that was told at those cuts of its boot, with so many operations, to which another boot leads.
    pub fn has_all(&self, shared_tail: &SharedTail, whole: u32) -> bool
        ensures whole { result ≡ true → self.now.first + self.now.count ≡ whole }
        ensures low { result ≡ true → (i : ℕ) → self.now.first
            ≤ index_in_parent shared_tail.now i }
    {
        let after_erases = shared_tail.kept() + shared_tail.erases();
        self.first <= shared_tail.index_in_parent(0).min(after_erases)
            && self.end() == u64::from(whole)
    }

    /// The cut after the last of those cuts.
    pub fn end(&self) -> u64
        ensures { result ≡ self.now.first + self.now.count }
    {
        u64::from(self.first) + u64::from(self.count)
    }

    /// Whether something is kept of that cut.
    pub fn has(&self, index: u32) -> bool {
        self.first <= index && u64::from(index) < self.end()
    }

    /// Keeps what is told of the boot after that path, and no more what was told of another.
    pub fn turn_to(&mut self, parent_path: &[u32])
        requires { length parent_path.now ≤ 16 }
        ensures path { self.new.parent_path ≡ parent_path.now }
        ensures kept { (self.new ≡ self.old) ⊎ IsNothing self.new }
        ensures joined { self.new.joined ≡ self.old.joined }
    {
        if self.parent_path.cuts() != parent_path {
            self.parent_path = Schedule::of(parent_path);
            self.clear_at(0);
        }
    }

    /// Keeps nothing any more, and goes on at that cut.
    pub fn clear_at(&mut self, first: u32)
        ensures none { IsNothing self.new }
        ensures first { self.new.first ≡ first }
        ensures path { self.new.parent_path ≡ self.old.parent_path }
        ensures joined { self.new.joined ≡ self.old.joined }
    {
        self.first = first;
        self.count = 0;
        self.told.clear();
    }

    /// Begins a run of the next cut, if there is room for it.
    pub fn begin_run(&mut self, told: O)
        requires { self.old.count < 2 ^ 31 }
        ensures told { IsOneRunMore self.old told self.new }
        ensures first { self.new.first ≡ self.old.first }
        ensures path { self.new.parent_path ≡ self.old.parent_path }
        ensures joined { self.new.joined ≡ self.old.joined }
    {
        if self.told.len() < self.told.capacity() {
            self.told.push_reserved(Run {
                first: self.count,
                of: told,
            });
            self.count += 1;
        }
    }

    /// The cut of its boot that leaves the flash which a path leads to, where it is known.
    pub fn index_of(&self, path: &[u32]) -> Option<u32>
        ensures { IfSome result (IsIndexOf self.now.joined path.now) }
    {
        let joined = self.joined?;
        let (last, before) = path.split_last()?;
        if before != joined.path.cuts() || *last >= MOST_COUNT {
            return None;
        }
        Some(joined.shared_tail.index_in_parent(*last))
    }
}

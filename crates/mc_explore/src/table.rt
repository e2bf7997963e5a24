//! The censuses of the children of one node, for one bound after another.
ghost use Rattle.std.specs.Prelude.{◌≡◌, ℕ, suc, ◌+◌, ◌<◌, ◌≤◌, length, IfOk, OnOk, true};
ghost use Rattle.mc_boot.specs.Outcome.{shown};
ghost use Rattle.mc_boot.specs.SharedTail.{index_in_parent};
ghost use Rattle.mc_tree.specs.inner.Weights.{from, shared_below};
ghost use Rattle.mc_explore.specs.declared.table.Below.TheVariants.{Joined};
ghost use Rattle.mc_explore.specs.inner.Table.{AreAlike, AreCutOff, AreRuns, AreSums, IsChild, IsColumn, IsInside, IsLevel, IsSummed, rest_from};
ghost use Rattle.mc_explore.specs.inner.Totals.{Totals, merged, cut_off, no_totals, report_totals, totals};

use crate::census::Census;
use crate::run::{Run, begin_at, run_of};
use mc_boot::{Outcome, SharedTail};
use std::alloc::{AllocError, Global};

/// The paths from a child.
#[derive(Drop)]
pub(crate) enum Below {
    /// Its boot goes on with that of its parent.
    Joined(SharedTail),
    /// Their censuses by themselves, for each bound.
    Apart(Vec<Census>),
}

/// How the path ends at a child of a node, and the further paths from there.
#[derive(Drop)]
pub(crate) struct Child {
    pub outcome: Outcome,
    pub below: Below,
}

/// Whether what lies below two children lies at the same places, or below themselves.
fn are_alike(first: u32, one: &SharedTail, number: u32, other: &SharedTail) -> bool
    ensures { result ≡ true → AreAlike first one.now number other.now }
{
    if one.kept() != other.kept() || one.erases() != other.erases() {
        return false;
    }
    for step in 0..one.erases() {
        let (a, b) = (one.index_in_parent(step), other.index_in_parent(step));
        if a != b && (a != first || b != number) {
            return false;
        }
    }
    true
}

/// Whether two paths count alike by themselves.
fn end_alike(one: &Outcome, other: &Outcome) -> bool
    ensures { result ≡ true
        → report_totals (shown one.now) ≡ report_totals (shown other.now) }
{
    one.result == other.result && one.ops == other.ops
}

/// Whether a child has the censuses that the children of a run have.
fn takes(run: &Run<Child>, number: u32, child: &Child) -> bool
    ensures { (under : ℕ → ℕ → Totals) (n most : ℕ) → ((i : ℕ) → under 0 i ≡ no_totals)
        → IsChild under n most run.now.first run.now.of → IsChild under n most number child.now
        → result ≡ true → (d : ℕ) → under d number ≡ under d run.now.first }
{
    match (&run.of.below, &child.below) {
        (Below::Joined(one), Below::Joined(other)) => {
            end_alike(&child.outcome, &run.of.outcome) && are_alike(run.first, one, number, other)
        }
        _ => false,
    }
}

/// Adds the child of that number, which comes after those of the runs.
///
/// # Errors
///
/// Where an allocation failed.
pub(crate) fn add_child(
    runs: &mut Vec<Run<Child>>,
    number: u32,
    child: Child,
) -> Result<(), AllocError>
    ensures { OnOk result ((under : ℕ → ℕ → Totals) (n most : ℕ)
        → ((i : ℕ) → under 0 i ≡ no_totals) → AreRuns under n most number runs.old.items
        → IsChild under n most number child → AreRuns under n most (number + 1) runs.new.items) }
{
    if let Some(run) = runs.last()
        && takes(run, number, &child)
    {
        return Ok(());
    }
    runs.push(Run {
        first: number,
        of: child,
    })?;
    Ok(())
}

/// The census of a number in a list, and that of no paths past its end.
pub(crate) fn census_at(list: &[Census], index: usize) -> Census
    ensures { (under : ℕ → Totals) → AreCutOff under list.now → index < length list.now
        → result ≡ cut_off (under index) }
{
    list.get(index).copied().unwrap_or(Census::new())
}

/// The sums of the children of the last of so many runs, each after its number as a first step: of none, of one run, and so on to
/// all of them.
fn sums(
    alloc: Global,
    runs: &[Run<Child>],
    level: &[Census],
    count: u32,
) -> Result<Vec<Census>, AllocError>
    ensures { IfOk result (λ sums. (under : ℕ → Totals) → IsLevel under count runs.now level.now
        → AreSums under count runs.now sums.items) }
{
    let mut sum = Census::new();
    let mut sums = Vec::new(alloc);
    sums.push(sum)?;
    for later in 0..runs.len() {
        let index = runs.len() - 1 - later;
        let first = begin_at(runs, count, index);
        let times = begin_at(runs, count, index + 1).saturating_sub(first);
        sum = census_at(level, index).repeated(first, times).merged(&sum);
        sums.push(sum)?;
    }
    Ok(sums)
}

/// For one bound: the censuses of the runs of so many children, and their sums.
#[derive(Clone, Copy)]
struct Level<'a> {
    runs: &'a [Run<Child>],
    count: u32,
    censuses: &'a [Census],
    sums: &'a [Census],
}

impl Level<'_> {
    /// The sum of the children from that number on, each after its number as a first step.
    fn rest(&self, number: u32) -> Census
        ensures { (under : ℕ → Totals) → IsSummed under self.now → number ≤ self.now.count
            → result ≡ cut_off (rest_from under self.now.count number) }
    {
        let index = run_of(self.runs, number);
        let times = begin_at(self.runs, self.count, index + 1).saturating_sub(number);
        let later = census_at(self.sums, self.runs.len().saturating_sub(index + 1));
        census_at(self.censuses, index)
            .repeated(number, times)
            .merged(&later)
    }

    /// The census of the children that a boot has before it goes on with another one, whose children these are.
    fn early(&self, shared_tail: &SharedTail) -> Census
        ensures { (under : ℕ → Totals) → IsSummed under self.now
            → IsInside shared_tail.now self.now.count → result ≡ cut_off
            (from totals (λ i. under (index_in_parent shared_tail.now i)) shared_tail.now.erases 0) }
    {
        let mut sum = Census::new();
        for number in 0..shared_tail.erases() {
            let run = run_of(self.runs, shared_tail.index_in_parent(number));
            sum = sum.merged(&census_at(self.censuses, run).prefixed(number));
        }
        sum
    }

    /// The census of all children of a boot that goes on with another one, whose children these are.
    fn with_shared_tail(&self, shared_tail: &SharedTail) -> Census
        ensures { (under : ℕ → Totals) → IsSummed under self.now
            → IsInside shared_tail.now self.now.count → result ≡ cut_off
            (shared_below totals under self.now.count shared_tail.now.kept shared_tail.now.erases
            (index_in_parent shared_tail.now)) }
    {
        let later = self.rest(shared_tail.kept() + shared_tail.erases());
        self.early(shared_tail)
            .merged(&later.first_lowered(shared_tail.kept()))
    }

    /// The census of the paths of at most one step more than these from the first child of a run.
    fn next(&self, run: &Run<Child>, bound: u32) -> Census
        ensures { (under : ℕ → ℕ → Totals) (most c : ℕ) → IsSummed (under bound) self.now
            → IsChild under self.now.count most c run.now.of
            → bound < most → result ≡ cut_off (under (suc bound) c) }
    {
        match &run.of.below {
            Below::Joined(shared_tail) => {
                let own = Census::of(&run.of.outcome);
                own.merged(&self.with_shared_tail(shared_tail))
            }
            Below::Apart(column) => census_at(column, bound as usize),
        }
    }
}

/// The censuses of all runs for one step more.
fn next_level(alloc: Global, level: &Level<'_>, bound: u32) -> Result<Vec<Census>, AllocError>
    ensures { IfOk result (λ next. (under : ℕ → ℕ → Totals) (most : ℕ)
        → AreRuns under level.now.count most level.now.count level.now.runs.now
        → IsLevel (under bound) level.now.count level.now.runs.now level.now.censuses.now
        → AreSums (under bound) level.now.count level.now.runs.now level.now.sums.now → bound < most
        → IsLevel (under (suc bound)) level.now.count level.now.runs.now next.items) }
{
    let mut next = Vec::new(alloc);
    for run in level.runs {
        next.push(level.next(run, bound))?;
    }
    Ok(next)
}

/// The censuses of a node for each bound up to that one, by that of its path of no steps and by the runs of its children, of which
/// there are so many.
pub(crate) fn column_of(
    alloc: Global,
    own: Census,
    runs: &[Run<Child>],
    count: u32,
    bound: u32,
) -> Result<Vec<Census>, AllocError>
    ensures { IfOk result (λ column. (alone : Totals) (under : ℕ → ℕ → Totals)
        → own ≡ cut_off alone → ((i : ℕ) → under 0 i ≡ no_totals)
        → AreRuns under count bound count runs.now
        → IsColumn (λ d. merged alone (from totals (under d) count 0)) (bound + 1) column.items) }
{
    let mut column = Vec::new(alloc);
    let mut level = Vec::new(alloc);
    level.resize(runs.len(), Census::new())?;
    for fewer in 0..bound {
        let sums = sums(alloc, runs, &level, count)?;
        column.push(own.merged(&census_at(&sums, runs.len())))?;
        let here = Level {
            runs,
            count,
            censuses: &level,
            sums: &sums,
        };
        level = next_level(alloc, &here, fewer)?;
    }
    let sums = sums(alloc, runs, &level, count)?;
    column.push(own.merged(&census_at(&sums, runs.len())))?;
    Ok(column)
}

//! What all rows come to, in numbers.
ghost use Rattle.std.specs.Prelude.{◌≡◌, ◌↔◌, true, List};
ghost use Rattle.mc_boot.specs.Outcome.{shown};
ghost use Rattle.mc_explore.specs.Census.{census_by};
ghost use Rattle.mc_explore.specs.Survey.{AllEndInBoot};
ghost use Rattle.mc_explore.specs.inner.Totals.{Totals, merged, cut_off, no_totals, report_totals, totals};
ghost use Rattle.mc_tree.specs.inner.Weights.{from};

use crate::subject::Subject;
use mc_boot::{BootResult, Outcome};
use mc_start::Schedule;

/// What all rows of at most so many cuts that can occur come to. Each number of rows is cut off at the largest `u128`.
#[derive(Clone, Copy, Debug)]
pub struct CensusOf<K> {
    /// How many rows there are.
    pub schedules: u128,
    /// How many of them end in a boot.
    pub boot: u128,
    /// How many leave a primary without a valid image.
    pub none: u128,
    /// How many end in a panic.
    pub panic: u128,
    /// How many end in a refused operation.
    pub fault: u128,
    /// The largest number of operations of a last boot.
    pub most_operations: u32,
    /// By what the first row is found, in their order, that does not end in a boot.
    pub first_not_boot: Option<K>,
}

/// What all schedules of power cuts come to, or all paths of a tree.
pub type Census = CensusOf<Schedule>;

impl CensusOf<Schedule> {
    /// Of no paths.
    #[tactic(auto, unfolding(crate::specs::inner::Totals::cut_off, crate::specs::Census::cut_number))]
    pub(crate) fn new() -> Census
        ensures { result ≡ cut_off no_totals }
    {
        CensusOf {
            schedules: 0,
            boot: 0,
            none: 0,
            panic: 0,
            fault: 0,
            most_operations: 0,
            first_not_boot: None,
        }
    }

    /// Of the path of no steps, which ends so.
    #[tactic(auto, unfolding(crate::specs::inner::Totals::cut_off, crate::specs::Census::cut_number))]
    pub(crate) fn of(outcome: &Outcome) -> Census
        ensures { result ≡ cut_off (report_totals (shown outcome.now)) }
    {
        let counted = CensusOf {
            schedules: 1,
            most_operations: outcome.ops,
            ..CensusOf::new()
        };
        let failed = CensusOf {
            first_not_boot: Some(Schedule::new()),
            ..counted
        };
        match outcome.result {
            BootResult::Boot => CensusOf { boot: 1, ..counted },
            BootResult::None => CensusOf { none: 1, ..failed },
            BootResult::Panic => CensusOf { panic: 1, ..failed },
            BootResult::Fault => CensusOf { fault: 1, ..failed },
        }
    }

    /// Of these paths and of others, which come after them.
    #[tactic(auto, unfolding(crate::specs::inner::Totals::cut_off, crate::specs::Census::cut_number))]
    pub(crate) fn merged(&self, later: &Census) -> Census
        ensures { (a b : Totals) → self.now ≡ cut_off a → later.now ≡ cut_off b
            → result ≡ cut_off (merged a b) }
    {
        CensusOf {
            schedules: self.schedules.saturating_add(later.schedules),
            boot: self.boot.saturating_add(later.boot),
            none: self.none.saturating_add(later.none),
            panic: self.panic.saturating_add(later.panic),
            fault: self.fault.saturating_add(later.fault),
            most_operations: self.most_operations.max(later.most_operations),
            first_not_boot: self.first_not_boot.or(later.first_not_boot),
        }
    }

    /// Of the same paths, each after that step.
    pub(crate) fn prefixed(&self, step: u32) -> Census
        ensures { (a : Totals) → self.now ≡ cut_off a → result ≡ cut_off (totals.prefixed step a) }
    {
        let first_not_boot = match &self.first_not_boot {
            Some(first) => Some(first.prefixed(step)),
            None => None,
        };
        CensusOf {
            first_not_boot,
            ..*self
        }
    }

    /// Of the same paths, after each of so many steps from that one on.
    #[tactic(auto, unfolding(crate::specs::inner::Totals::cut_off, crate::specs::Census::cut_number))]
    pub(crate) fn repeated(&self, step: u32, times: u32) -> Census
        ensures { (a : Totals) → self.now ≡ cut_off a
            → result ≡ cut_off (from totals (λ _. a) times step) }
    {
        if times == 0 {
            return CensusOf::new();
        }
        let count = u128::from(times);
        CensusOf {
            schedules: self.schedules.saturating_mul(count),
            boot: self.boot.saturating_mul(count),
            none: self.none.saturating_mul(count),
            panic: self.panic.saturating_mul(count),
            fault: self.fault.saturating_mul(count),
            ..self.prefixed(step)
        }
    }

    /// Of the same paths, the first step of each so many children earlier.
    pub(crate) fn first_lowered(&self, children: u32) -> Census
        ensures { (a : Totals) → self.now ≡ cut_off a
            → result ≡ cut_off (totals.first_lowered children a) }
    {
        let first_not_boot = match &self.first_not_boot {
            Some(first) => Some(first.first_lowered(children)),
            None => None,
        };
        CensusOf {
            first_not_boot,
            ..*self
        }
    }
}

/// Whether each of the rows that a census counts ends in a boot.
pub fn each_boots<X: Subject>(census: &CensusOf<X::Key>) -> bool
    ensures { (rows : List X.Shown) → census.now ≡ census_by X.subject.ends X.subject.key rows
        → (result ≡ true) ↔ AllEndInBoot X.subject.ends rows }
{
    census.first_not_boot.is_none()
}

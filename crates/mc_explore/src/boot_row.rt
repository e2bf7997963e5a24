//! The rows of a tree of boots: where the cuts lie, and how the rounds end.
ghost use Rattle.std.specs.Prelude.{◌≡◌, ◌<◌, ◌≤◌, [], length, true, false};
ghost use Rattle.mc_explore.specs.inner.BootRows.{CanCountUp, IsRowIn, counted_up, cuts_along, cuts_of, one_cut_more};
ghost use Rattle.mc_explore.specs.inner.BootTree.{begins_of, model_of};
ghost use Rattle.mc_walk.specs.Walks.{IsPath};

use crate::rounds::{BootTree, Rounds};
use mc_boot::Outcome;
use mc_flash::Flash;
use mc_start::Schedule;
use mc_walk::Walk;

/// The cuts along a path: of each its number in its round, and how many lie in the first of two rounds. In one round they are the path.
#[derive(Clone, Copy)]
pub struct Cuts {
    pub numbers: Schedule,
    pub in_first: u32,
}

/// How the rounds end: the first of two, and the last.
#[derive(Clone, Copy)]
pub struct Ends {
    pub first: Option<Outcome>,
    pub last: Outcome,
}

/// The cuts along a path, and how the rounds end there.
#[derive(Clone, Copy)]
pub struct BootRow {
    pub cuts: Cuts,
    pub ends: Ends,
}

impl Cuts {
    /// No cuts.
    pub fn none() -> Cuts
        ensures { result ≡ cuts_of [] }
    {
        Cuts {
            numbers: Schedule::new(),
            in_first: 0,
        }
    }

    /// The same with one cut more, of a round.
    #[inline]
    pub(crate) fn with(&self, round: u8, number: u32) -> Cuts
        requires short { length self.now.numbers < 16 }
        requires few { self.now.in_first ≤ 16 }
        ensures { result ≡ one_cut_more self.now (round, number) }
    {
        let mut more = *self;
        more.numbers.push(number);
        if round == 1 {
            more.in_first += 1;
        }
        more
    }

    // The cuts along the path of a walk, by their names.
    fn named<F: Flash>(walk: &Walk<F, BootTree<'_>>) -> Cuts
        requires stands { walk.now.stands ≡ true }
        requires at_most { length walk.now.path ≤ 16 }
        ensures { let t = walk.now.flash_tree in result
            ≡ cuts_along t.rounds (begins_of t) walk.now.path }
    {
        let mut cuts = Cuts::none();
        let mut step = 0;
        'cuts: while let Some((round, number)) = walk.label(step) {
            cuts = cuts.with(round, number);
            step += 1;
        }
        cuts
    }

    /// The cuts along the path of a walk.
    pub fn along<F: Flash>(walk: &Walk<F, BootTree<'_>>, path: &Schedule) -> Cuts
        requires stands { walk.now.stands ≡ true }
        requires path { path.now ≡ walk.now.path }
        ensures { let t = walk.now.flash_tree in result
            ≡ cuts_along t.rounds (begins_of t) walk.now.path }
    {
        match walk.flash_tree().rounds {
            Rounds::One => Cuts {
                numbers: *path,
                in_first: 0,
            },
            Rounds::Two { .. } => {
                // The path has no more steps than a schedule has cuts.
                let _cuts = path.cuts();
                Cuts::named(walk)
            }
        }
    }
}

impl BootRow {
    /// The row of the path at whose end a walk stands.
    pub fn at<F: Flash>(walk: &Walk<F, BootTree<'_>>, path: &Schedule) -> BootRow
        requires stands { walk.now.stands ≡ true }
        requires path { path.now ≡ walk.now.path }
        requires listed { IsPath (model_of walk.now.flash_tree) walk.now walk.now.path }
        ensures { IsRowIn walk.now.flash_tree walk.now.path result }
    {
        let cuts = Cuts::along(walk, path);
        let ends = walk.flash_tree().ends(walk.summary());
        BootRow { cuts, ends }
    }

    /// Counts its last cut up by one, where it has one that is not the greatest number; says whether it has.
    #[inline]
    pub fn count_up(&mut self) -> bool
        ensures counted { result ≡ true → self.new ≡ counted_up 1 self.old }
        ensures text { result ≡ true → CanCountUp self.old }
        ensures same { result ≡ false → self.new ≡ self.old }
    {
        self.cuts.numbers.count_up()
    }
}

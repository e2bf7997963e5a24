//! What a walk goes through.
use mc_flash::Flash;
use std::alloc::AllocError;

/// A kind of tree over the contents of a flash: how one goes from a node to its children, and what is known of a node, its
/// summary. That may be derived from the summary of the parent.
pub trait FlashTree: Copy {
    ghost use Rattle.std.specs.Prelude.{◌≡◌, ℕ, ◌+◌, ◌*◌, ◌<◌, true, IfOk, OnOk};
    ghost use Rattle.mc_flash.specs.Usage.{Keeps, HasRoom, Spends, Stays};
    ghost use Rattle.mc_walk.specs.TreeModel.{TreeModel, CanReach, IsAt, Reaches, HasNext, ReachesNext, CanPassTwins, PassesTwins, IsRoot, IsChild, IsChildSummary, IsTwin, HasWidth, owed_there, summary_cost};

    ghost Node: { Type 0 };

    /// A child on its way from its node.
    type Child: Copy;

    /// The summary of a node.
    type Summary: Copy;

    /// The name of a child among those of its node.
    type Label: Copy;

    ghost model: { Self → TreeModel Node Self.Child Self.Summary };

    ghost label_of: { Self → Node → ℕ → Self.Label };

    /// The name of a child on its way.
    fn label(self, at: &Self::Child) -> Self::Label
        ensures { (n : Node) (i : ℕ) → (model self).IsOn n i at.now → result ≡ label_of self n i };

    /// How many children a node with that summary has.
    fn width(self, summary: &Self::Summary) -> u32
        ensures { HasWidth (model self) summary.now result };

    /// Goes from a node, with that summary, to its first child.
    fn first_child<F: Flash>(
        self,
        flash: &mut F,
        summary: &Self::Summary,
    ) -> Result<Self::Child, AllocError>
        requires { CanReach (model self) 0 summary.now (F.seen flash.old) }
        ensures reaches { Reaches (model self) 0 summary.now (F.seen flash.old) result
            (F.seen flash.new) }
        ensures keeps { OnOk result (Keeps (F.seen flash.old) (F.seen flash.new)) }
        ensures spends { Spends (model self).step (F.seen flash.old) result (F.seen flash.new) };

    /// Goes from a child to the next.
    fn next<F: Flash>(self, flash: &mut F, at: &mut Self::Child) -> Result<(), AllocError>
        requires { HasNext (model self) at.old (F.seen flash.old) }
        ensures goes_on { ReachesNext (model self) at.old (F.seen flash.old) result at.new
            (F.seen flash.new) }
        ensures keeps { OnOk result (Keeps (F.seen flash.old) (F.seen flash.new)) }
        ensures spends { Spends (model self).step (F.seen flash.old) result (F.seen flash.new) };

    /// Whether the next child of its node surely is a twin of that one, with that summary, at which the flash stands.
    fn has_twin<F: Flash>(self, flash: &F, at: &Self::Child, child: &Self::Summary) -> bool
        ensures { result ≡ true → (n : Node) (i : ℕ)
            → IsAt (model self) n i at.now (F.seen flash.now)
            → i + 1 < (model self).tree.width n
            → (model self).IsSummary ((model self).tree.child n i) child.now
            → IsTwin (model self) n i child.now };

    /// Goes on from a child, with that summary, at which the flash stands, over next ones that surely are twins of it, at most so many,
    /// and returns how many these are. The flash stands at the last of them then.
    fn pass_twins<F: Flash>(
        self,
        flash: &mut F,
        at: &mut Self::Child,
        child: &Self::Summary,
        most: u32,
    ) -> Result<u32, AllocError>
        requires { CanPassTwins (model self) most at.old child.now (F.seen flash.old) }
        ensures passes { PassesTwins (model self) most at.old child.now (F.seen flash.old) result
            at.new (F.seen flash.new) }
        ensures keeps { OnOk result (Keeps (F.seen flash.old) (F.seen flash.new)) }
        ensures spends { Spends (most * (model self).step) (F.seen flash.old) result
            (F.seen flash.new) };

    /// The summary of the root at which the flash stands.
    fn root<F: Flash>(self, flash: &mut F) -> Result<Self::Summary, AllocError>
        requires root { IsRoot (model self) (F.seen flash.old) }
        requires room { HasRoom (model self).all (F.seen flash.old) }
        ensures gives { IfOk result ((model self).IsSummary (model self).root) }
        ensures stays { OnOk result (Stays (F.seen flash.old) (F.seen flash.new)) }
        ensures spends { Spends (summary_cost (model self)) (F.seen flash.old) result
            (F.seen flash.new) };

    /// The summary of a child on its way, where that is the summary of its parent.
    fn child<F: Flash>(
        self,
        flash: &mut F,
        at: &Self::Child,
        parent: &Self::Summary,
    ) -> Result<Self::Summary, AllocError>
        requires child { IsChild (model self) at.now parent.now (F.seen flash.old) }
        requires room { HasRoom (owed_there (model self) at.now) (F.seen flash.old) }
        ensures gives { IfOk result (IsChildSummary (model self) at.now parent.now (F.seen
            flash.old)) }
        ensures stays { OnOk result (Stays (F.seen flash.old) (F.seen flash.new)) }
        ensures spends { Spends (summary_cost (model self)) (F.seen flash.old) result
            (F.seen flash.new) };
}

//! The law of the order, as the contract of a function that does nothing.
ghost use Rattle.std.specs.Prelude.{◌≡◌, ◌⊎◌, ℕ, List};
ghost use Rattle.mc_tree.specs.Tree.{Precedes};

/// Of two paths that differ one comes before the other, and not the other before it; a path before another, which comes before
/// a third, comes before the third.
/// Promised: paths are ordered (`trans`, `never`, `total`).
#[tactic(auto, using(crate::specs::facts::Order::paths_in_order))]
pub fn paths_are_ordered()
    ensures trans { (x y z : List ℕ) → Precedes x y → Precedes y z → Precedes x z }
    ensures never { (x y : List ℕ) → Precedes x y → Precedes y x → ⊥ }
    ensures total { (x y : List ℕ) → Precedes x y ⊎ (x ≡ y) ⊎ Precedes y x }
{}

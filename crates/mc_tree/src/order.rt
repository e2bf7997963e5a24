//! The order of paths, as a test.
ghost use Rattle.std.specs.Prelude.{◌≡◌, ◌↔◌, true};
ghost use Rattle.mc_tree.specs.Tree.{Precedes};

/// Whether a path comes before another: a prefix comes first, else the first number that differs decides.
pub fn precedes(path: &[u32], other: &[u32]) -> bool
    ensures { (result ≡ true) ↔ Precedes path.now other.now }
{
    path < other
}

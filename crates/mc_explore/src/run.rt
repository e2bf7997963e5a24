//! Numbers in runs, each of one value.
ghost use Rattle.std.specs.Prelude.{◌≡◌, ℕ, ◌<◌, ◌≤◌, length, nat_le};
ghost use Rattle.mc_explore.specs.inner.Runs.{Begins, IsSplit, begin_of};

/// Numbers, one after another, that have one value: the first of them, and that value.
#[derive(Drop)]
pub struct Run<T> {
    pub first: u32,
    pub of: T,
}

/// The first number of a run, or how many numbers there are.
pub fn begin_at<T>(runs: &[Run<T>], count: u32, index: usize) -> u32
    ensures { result ≡ begin_of runs.now count index }
{
    if index < runs.len() {
        runs[index].first
    } else {
        count
    }
}

/// The run of a number; of the number after the last one that of the last.
pub fn run_of<T>(runs: &[Run<T>], number: u32) -> usize
    ensures begins { (n : ℕ) → IsSplit runs.now n → 1 ≤ length runs.now → number ≤ n
        → Begins runs.now n number result }
    ensures bound { result ≤ length runs.now }
{
    let after = runs.partition_point(
        |run: &Run<T>| -> bool
            ensures { result ≡ nat_le run.now.first number }
        { run.first <= number },
    );
    after.saturating_sub(1)
}

/// The run of a number, of which there are so many: that run, where it has the number.
#[inline]
pub fn run_near<T>(runs: &[Run<T>], count: u32, number: u32, near: usize) -> usize
    ensures { IsSplit runs.now count → 1 ≤ length runs.now → number < count
        → Begins runs.now count number result }
{
    if near < runs.len() {
        let first = begin_at(runs, count, near);
        let next = begin_at(runs, count, near + 1);
        if first <= number && number < next {
            return near;
        }
    }
    run_of(runs, number)
}

//! How many schedules of power cuts come to what is right, and the first that does not.
ghost use Rattle.std.specs.Prelude.{◌≡◌, ◌↔◌, ◌≤◌, length, true, List, OnErr, OnOk};
ghost use Rattle.std.specs.Io.KnownBytes.{Appends};
ghost use Rattle.mc_boot.specs.Outcome.{shown};
ghost use Rattle.mc_output.specs.Text.{AppendsPrefix};
ghost use Rattle.mc_explore.specs.Right.{AllEndRight, no_rights, one_judged_more, rights_by, rights_text};
ghost use Rattle.mc_explore.specs.declared.expectation.Expectation.{Expectation as Expected};

use crate::census_text::{put_count, put_first};
use crate::expectation::Expectation;
use crate::subject::Subject;
use mc_boot::Outcome;
use mc_output::{Line, WriteFailed, write_line};
use mc_start::Schedule;
use std::io::Write;

/// How many rows come to what is right, cut off at the largest `u128`, and the key of the first of them that does not.
#[derive(Clone, Copy, Debug)]
pub struct RightsOf<K> {
    pub right: u128,
    /// By what the first row is found, in their order, that does not end right.
    pub first_not_right: Option<K>,
}

/// How many schedules are right, and the first that is not.
pub type Rights = RightsOf<Schedule>;

impl<K: Copy> RightsOf<K> {
    // Of no rows.
    pub(crate) fn new() -> RightsOf<K>
        ensures { result ≡ no_rights }
    {
        RightsOf {
            right: 0,
            first_not_right: None,
        }
    }

    // Counts one row more, of that key, which ends so.
    #[inline(always)]
    #[tactic(auto, unfolding(crate::specs::Census::cut_number))]
    pub(crate) fn add(&mut self, expectation: &Expectation, key: K, end: &Outcome)
        ensures { self.new ≡ one_judged_more expectation.now key (shown end.now) self.old }
    {
        if expectation.is_right(end) {
            self.right = self.right.saturating_add(1);
        } else {
            self.first_not_right = self.first_not_right.or(Some(key));
        }
    }
}

/// Whether each of the rows comes to what is right.
pub fn all_right<X: Subject>(rights: &RightsOf<X::Key>) -> bool
    ensures { (e : Expected) (rows : List X.Shown) → rights.now
        ≡ rights_by X.subject.ends X.subject.key e rows
        → (result ≡ true) ↔ AllEndRight X.subject.ends e rows }
{
    rights.first_not_right.is_none()
}

/// Two lines: how many rows are right, and the key of the first that is not, or `none`. A number that was cut off has `>=` before it.
pub fn rights_line<X: Subject>(rights: &RightsOf<X::Key>) -> Line
    ensures text { result ≡ rights_text X.subject rights.now }
    ensures length { length result ≤ 273 }
{
    let mut line = Line::new();
    line.put("right ");
    put_count(&mut line, rights.right);
    line.put("\nfirst-not-right ");
    put_first::<X>(&mut line, &rights.first_not_right);
    line
}

/// Writes what is right as `rights_line` puts it, or a beginning of it.
///
/// # Errors
///
/// `WriteFailed` where a write fails or takes no bytes.
pub fn write_rights<X: Subject, W: Write>(
    rights: &RightsOf<X::Key>,
    writer: &mut W,
) -> Result<(), WriteFailed>
    ensures whole { OnOk result (Appends (W.contents writer.old) (W.contents writer.new)
        (rights_text X.subject rights.now)) }
    ensures prefix { OnErr result (AppendsPrefix (W.contents writer.old) (W.contents writer.new)
        (rights_text X.subject rights.now)) }
{
    write_line(writer, &rights_line::<X>(rights))
}

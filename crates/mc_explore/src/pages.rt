//! Pages: several rows at a time, as text.
ghost use Rattle.std.specs.Prelude.{◌≡◌, ◌+◌, ◌*◌, ◌≤◌, ◌⊎◌, IfErr, OnOk, OnErr, IsErrOf};
ghost use Rattle.mc_explore.specs.Rows.{most_for_row};
ghost use Rattle.mc_explore.specs.Page.{PageBegan, PageIsOut};
ghost use Rattle.mc_explore.specs.Pages as pages;
ghost use Rattle.mc_explore.specs.Subject.{Explores, LeavesExplorer, rows_of};

use crate::error::ExploreError;
use crate::explorer::Explorer;
use crate::output::write_text;
use crate::subject::Subject;
use crate::tree_explorer::TreeExplorer;
use mc_flash::Flash;
use std::io::Write;

// Writes a page, and leaves it to the caller to make the explorer fail where that fails.
#[tactic(auto, using(crate::proofs::PageText::page_begin))]
fn write_lines<F: Flash + Drop, X: Subject, W: Write>(
    explorer: &mut TreeExplorer<'_, F, X>,
    until: &Option<X::Key>,
    limit: u32,
    writer: &mut W,
) -> Result<(), ExploreError>
    requires { 1 ≤ limit }
    ensures page { OnOk result (pages.ShownIsOut (rows_of X.subject) until.now explorer.old.state
        explorer.new.state limit (W.contents writer.old) (W.contents writer.new)) }
    ensures began { OnErr result (pages.ShownBegan (rows_of X.subject) until.now
        explorer.old.state limit (W.contents writer.old) (W.contents writer.new)) }
    ensures applied { let s = explorer.old.state.start in OnOk result (explorer.new.usage.applied
        ≤ explorer.old.usage.applied + limit * X.subject.most_for_row s.rules s.geometry) }
    ensures leaves { LeavesExplorer F.counted explorer.old result explorer.new }
    ensures unwritten { IsErrOf result ExploreError.Failed → writer.new ≡ writer.old }
    ensures err { IfErr result (λ e. (e ≡ ExploreError.Memory) ⊎ (e ≡ ExploreError.Failed)
        ⊎ (e ≡ ExploreError.Write)) }
{
    explorer.restarts();
    let mut room = limit;
    'fill: while room > 0 {
        if !explorer.write_next_row(until, writer)? {
            return write_text(writer, b"end\n");
        }
        room -= 1;
    }
    explorer.write_next(writer)
}

/// Writes a page of the next rows that come before that key, if one is given. It has at most so many rows, a line each;
/// then where to go on, or `end` where there are fewer. It takes no memory but through the flash.
/// Promised: a page up to a key (`page`, `TakesPage`).
///
/// After a full page the explorer is past its rows. After one that says `end` it is also past the next row, if there is
/// one: that one does not come before the key, and to go on with it resume after the page's last row.
///
/// # Errors
///
/// `Write`, `Memory`, `Failed`: a prefix of that page is out, and from then on the explorer returns `Failed`.
pub fn write_rows<F: Flash + Drop, X: Subject, W: Write>(
    explorer: &mut TreeExplorer<'_, F, X>,
    until: &Option<X::Key>,
    limit: u32,
    writer: &mut W,
) -> Result<(), ExploreError>
    requires { 1 ≤ limit }
    // The page of the rows to come before the key is out, and what is to come afterwards are the rows that were not taken
    // for it.
    ensures page { OnOk result (pages.ShownIsOut (rows_of X.subject) until.now explorer.old.state
        explorer.new.state limit (W.contents writer.old) (W.contents writer.new)) }
    ensures began { OnErr result (pages.ShownBegan (rows_of X.subject) until.now
        explorer.old.state limit (W.contents writer.old) (W.contents writer.new)) }
    // Each row takes as much as one by itself.
    ensures applied { let s = explorer.old.state.start in OnOk result (explorer.new.usage.applied
        ≤ explorer.old.usage.applied + limit * X.subject.most_for_row s.rules s.geometry) }
    ensures explores { Explores F.counted explorer.old result explorer.new }
    ensures unwritten { IsErrOf result ExploreError.Failed → writer.new ≡ writer.old }
    ensures err { IfErr result (λ e. (e ≡ ExploreError.Memory) ⊎ (e ≡ ExploreError.Failed)
        ⊎ (e ≡ ExploreError.Write)) }
{
    let done = write_lines(explorer, until, limit, writer);
    if done.is_err() {
        explorer.mark_failed();
    }
    done
}

/// Writes the next rows, at most so many, a line each; then where to go on, or `end` where there were fewer. It takes no
/// memory but through the flash.
/// Promised, also of `write_rows`: the restart theorem of each row printed (`page`, `began`, `PageIsOut`, `ShownIsOut`).
/// Promised, also of `write_rows`: a page: rows, then a cursor or `end` (`page`, `explores`).
/// Promised, also of `write_rows`: at 52, 54, 59 a prefix is out (`began`, `err`, `unwritten`).
///
/// # Errors
///
/// `Write`, `Memory`, `Failed`: a prefix of that page is out, and from then on the explorer returns `Failed`.
pub fn write_page<F: Flash + Drop, W: Write>(
    explorer: &mut Explorer<'_, F>,
    limit: u32,
    writer: &mut W,
) -> Result<(), ExploreError>
    requires { 1 ≤ limit }
    // The page of the rows to come is out, and what is to come afterwards is the rest of them.
    ensures page { OnOk result (PageIsOut explorer.old.state explorer.new.state limit
        (W.contents writer.old) (W.contents writer.new)) }
    ensures began { OnErr result (PageBegan explorer.old.state limit (W.contents writer.old)
        (W.contents writer.new)) }
    // Each row takes as much as one by itself.
    ensures applied { OnOk result (explorer.new.usage.applied ≤ explorer.old.usage.applied + limit
        * most_for_row explorer.old.state.start.rules explorer.old.state.start.geometry) }
    ensures explores { Explores F.counted explorer.old result explorer.new }
    ensures unwritten { IsErrOf result ExploreError.Failed → writer.new ≡ writer.old }
    ensures err { IfErr result (λ e. (e ≡ ExploreError.Memory) ⊎ (e ≡ ExploreError.Failed)
        ⊎ (e ≡ ExploreError.Write)) }
{
    write_rows(&mut explorer.inner, &None, limit, writer)
}

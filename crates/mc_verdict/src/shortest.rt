//! The shortest row that does not end as it should.
ghost use Rattle.std.specs.Prelude.{◌≡◌, ◌+◌, ◌≤◌, ◌++◌, length, IfErr, IfOk, OnErr, OnOk};
ghost use Rattle.std.specs.Io.KnownBytes.{Appends};
ghost use Rattle.mc_output.specs.Text.{AppendsPrefix};
ghost use Rattle.mc_start.specs.Start.{begun};
ghost use Rattle.mc_verdict.specs.Shortest.{HasFirst, IsShortest, key_line, shortest_text};

use mc_explore::{Expectation, ExploreError, Line, MOST_LINE, Start, Subject, take_rights};
use mc_flash::JournalFlash;
use mc_options::Refusal;
use mc_output::{WriteFailed, write_line};
use std::alloc::Global;
use std::io::Write;

/// By what the shortest row is found that does not end in a boot, and the shortest that is not right. Of those of the same length it is
/// the first in their order.
#[derive(Clone, Copy, Debug)]
pub struct Shortest<K> {
    pub not_boot: Option<K>,
    pub not_right: Option<K>,
}

/// The key of the shortest row that is not right, where that of the first is known. Only where there is one the rows are counted again, of
/// none, of one and of more cuts, up to the first number of which one is not right.
///
/// # Errors
///
/// `Explore` where memory failed.
pub(crate) fn shortest_wrong<X: Subject>(
    alloc: Global,
    start: &Start,
    cuts: u8,
    chosen: X::Choice,
    expectation: &Expectation,
    first: &Option<X::Key>,
) -> Result<Option<X::Key>, Refusal>
    requires few { cuts ≤ 16 }
    requires first { HasFirst X.subject expectation.now (begun start.now) chosen cuts first.now }
    ensures shortest { IfOk result (IsShortest X.subject expectation.now (begun start.now) chosen
        cuts) }
    ensures err { IfErr result (λ e. e ≡ Refusal.Explore ExploreError.Memory) }
{
    let Some(last) = first else {
        return Ok(None);
    };
    for bound in 0..cuts {
        let rights = take_rights::<JournalFlash, X>(alloc, start, bound, chosen, expectation)?;
        if let Some(key) = rights.first_not_right {
            return Ok(Some(key));
        }
    }
    Ok(Some(*last))
}

/// Adds a word, and a key or `none`, and ends the line.
fn put_key<X: Subject>(line: &mut Line, word: &str, key: &Option<X::Key>)
    requires { length line.old + (length word.now + 209) ≤ MOST_LINE }
    ensures text { line.new ≡ line.old ++ key_line X.subject word.now key.now }
    ensures length { length line.new ≤ length line.old + (length word.now + 209) }
{
    line.put(word);
    match key {
        Some(key) => X::put_key(key, line),
        None => line.put("none"),
    }
    line.put("\n");
}

/// Writes the key of the shortest row that does not end in a boot; and, where something is expected of the slots, of the shortest that is not
/// right; or a beginning of it.
///
/// # Errors
///
/// `WriteFailed`.
pub(crate) fn write_shortest<X: Subject, O: Write>(
    shortest: &Shortest<X::Key>,
    is_judged: bool,
    out: &mut O,
) -> Result<(), WriteFailed>
    ensures whole { OnOk result (Appends (O.contents out.old) (O.contents out.new)
        (shortest_text X.subject is_judged shortest.now)) }
    ensures prefix { OnErr result (AppendsPrefix (O.contents out.old) (O.contents out.new)
        (shortest_text X.subject is_judged shortest.now)) }
{
    let mut line = Line::new();
    put_key::<X>(&mut line, "shortest-not-boot ", &shortest.not_boot);
    if is_judged {
        put_key::<X>(&mut line, "shortest-not-right ", &shortest.not_right);
    }
    write_line(out, &line)
}

//! Censuses as text.
ghost use Rattle.std.specs.Prelude.{◌≡◌, ◌+◌, ◌≤◌, ◌++◌, codes, length, OnErr, OnOk};
ghost use Rattle.std.specs.Io.KnownBytes.{Appends};
ghost use Rattle.mc_explore.specs.Census.{census_text, count_text, counts_text, key_or_none};
ghost use Rattle.mc_output.specs.Text.{AppendsPrefix};

use crate::census::CensusOf;
use crate::subject::Subject;
use mc_output::{Line, MOST_LINE, WriteFailed, write_line};
use std::io::Write;

/// Adds a number of rows to a line, with `>=` before it where it was cut off.
pub(crate) fn put_count(line: &mut Line, count: u128)
    requires { length line.old + 41 ≤ MOST_LINE }
    ensures text { line.new ≡ line.old ++ count_text count }
    ensures length { length line.new ≤ length line.old + 41 }
{
    if count == u128::MAX {
        line.put(">=");
    }
    line.put(itoa::Buffer::new().format(count));
}

/// Adds the key of a first row, or `none`, and ends the line.
pub(crate) fn put_first<X: Subject>(line: &mut Line, first: &Option<X::Key>)
    requires { length line.old + 209 ≤ MOST_LINE }
    ensures text { line.new ≡ line.old ++ (key_or_none X.subject.key_text first.now ++ codes "\n") }
    ensures length { length line.new ≤ length line.old + 209 }
{
    match first {
        Some(key) => X::put_key(key, line),
        None => line.put("none"),
    }
    line.put("\n");
}

// Adds a word, and a number of rows.
fn put_counted(line: &mut Line, word: &str, count: u128)
    requires { length line.old + length word.now + 41 ≤ MOST_LINE }
    ensures text { line.new ≡ line.old ++ (word.now ++ count_text count) }
    ensures length { length line.new ≤ length line.old + length word.now + 41 }
{
    line.put(word);
    put_count(line, count);
}

// The first six lines of a census: how many rows, how many of them with each result, the largest number of operations.
fn counts_line<K: Copy>(census: &CensusOf<K>) -> Line
    ensures text { result ≡ counts_text census.now }
    ensures length { length result ≤ 262 }
{
    let mut line = Line::new();
    put_counted(&mut line, "schedules ", census.schedules);
    put_counted(&mut line, "\nboot ", census.boot);
    put_counted(&mut line, "\nnone ", census.none);
    put_counted(&mut line, "\npanic ", census.panic);
    put_counted(&mut line, "\nfault ", census.fault);
    line.put("\nmost-ops ");
    line.put_number(census.most_operations);
    line.put("\n");
    line
}

/// Seven lines: how many rows there are, how many with each result, the largest number of operations, and the key of the first row
/// that does not end in a boot, or `none`. A number that was cut off has `>=` before it.
pub fn census_line<X: Subject>(census: &CensusOf<X::Key>) -> Line
    ensures { result ≡ census_text X.subject census.now }
{
    let mut line = counts_line(census);
    line.put("first-not-boot ");
    put_first::<X>(&mut line, &census.first_not_boot);
    line
}

/// Writes a census as `census_line` puts it, or a beginning of it.
///
/// # Errors
///
/// `WriteFailed` where a write fails or takes no bytes.
pub fn write_census<X: Subject, W: Write>(
    census: &CensusOf<X::Key>,
    writer: &mut W,
) -> Result<(), WriteFailed>
    ensures whole { OnOk result (Appends (W.contents writer.old) (W.contents writer.new)
        (census_text X.subject census.now)) }
    ensures prefix { OnErr result (AppendsPrefix (W.contents writer.old) (W.contents writer.new)
        (census_text X.subject census.now)) }
{
    write_line(writer, &census_line::<X>(census))
}

//! What frames are of: the program, the board, the images, what is expected, and the schedule.
ghost use Rattle.std.specs.Prelude.{◌≡◌, ◌+◌, ◌≤◌, ◌++◌, length};
ghost use Rattle.mc_trace.specs.inner.Boots.{WritesText};
ghost use Rattle.mc_trace.specs.Frames.{board_text, expectation_text, header_text, images_text, rules_options, schedule_line, sector_options, slot_options, wanted_text};

use mc_explore::{Expectation, Schedule, Start, Wanted};
use mc_flash::{Layout, Slot};
use mc_output::{Line, MOST_LINE, WriteFailed, write_line};
use mc_trailer::Rules;
use std::io::Write;

/// The names of the fields of a frame as text.
pub const NAMES: &str = "boot\tnumber\tcut\toperation\tsector\tprimary\tsecondary\toutcome\tends\n";

// Adds the first options of a layout to a line.
fn put_sector_options(line: &mut Line, layout: &Layout)
    requires { length line.old + 70 ≤ MOST_LINE }
    ensures text { line.new ≡ line.old ++ sector_options layout.now }
    ensures length { length line.new ≤ length line.old + 70 }
{
    line.put("layout --sector ");
    line.put_number(layout.sector());
    line.put(" --unit ");
    line.put_number(layout.unit());
    line.put(" --max-sectors ");
    line.put_number(layout.max_sectors());
}

// Adds its other options to a line.
fn put_slot_options(line: &mut Line, layout: &Layout)
    requires { length line.old + 70 ≤ MOST_LINE }
    ensures text { line.new ≡ line.old ++ slot_options layout.now }
    ensures length { length line.new ≤ length line.old + 70 }
{
    line.put(" --chunk ");
    line.put_number(layout.chunk());
    line.put(" --primary ");
    line.put_number(layout.sectors(Slot::Primary));
    line.put(" --secondary ");
    line.put_number(layout.sectors(Slot::Secondary));
    line.put("\n");
}

// Adds the options of rules to a line.
fn put_rules(line: &mut Line, rules: Rules)
    requires { length line.old + 40 ≤ MOST_LINE }
    ensures text { line.new ≡ line.old ++ rules_options rules }
    ensures length { length line.new ≤ length line.old + 40 }
{
    line.put("rules --grain ");
    line.put(rules.grain.name());
    line.put(" --profile ");
    line.put(rules.profile.name());
    line.put("\n");
}

// The program's version, the layout and the rules.
fn board_line(version: &str, start: &Start) -> Line
    requires { length version.now ≤ 40 }
    ensures { result ≡ board_text version.now start.now }
{
    let mut line = Line::new();
    line.put("mcsim ");
    line.put(version);
    line.put("\n");
    put_sector_options(&mut line, start.layout());
    put_slot_options(&mut line, start.layout());
    put_rules(&mut line, start.rules());
    line
}

// The images that a start names, or what distinguishes its flash.
fn images_line(start: &Start) -> Line
    ensures { result ≡ images_text start.now }
{
    let mut line = Line::new();
    match start.named() {
        None => {
            line.put("start ");
            line.put_hex(&start.digest());
        }
        Some((named, other)) => {
            line.put("named ");
            named.put_into(&mut line);
            line.put("\nother ");
            other.put_into(&mut line);
        }
    }
    line.put("\n");
    line
}

// Adds what a slot is to hold to a line.
fn put_wanted(line: &mut Line, wanted: &Wanted)
    requires { length line.old + 64 ≤ MOST_LINE }
    ensures text { line.new ≡ line.old ++ wanted_text wanted.now }
    ensures length { length line.new ≤ length line.old + 64 }
{
    match wanted {
        Wanted::Anything => line.put("any"),
        Wanted::Nothing => line.put("none"),
        Wanted::Version(version) => version.put_into(line),
        Wanted::Digest(digest) => line.put_hex(digest),
    }
}

// What is expected of both slots.
fn expectation_line(expectation: &Expectation) -> Line
    ensures { result ≡ expectation_text expectation.now }
{
    let mut line = Line::new();
    line.put("expect-primary ");
    put_wanted(&mut line, &expectation.primary);
    line.put("\nexpect-secondary ");
    put_wanted(&mut line, &expectation.secondary);
    line.put("\n");
    line
}

// The schedule.
fn schedule_line(schedule: &Schedule) -> Line
    ensures { result ≡ schedule_line schedule.now }
{
    let mut line = Line::new();
    line.put("schedule ");
    schedule.put_into(&mut line);
    line.put("\n");
    line
}

/// Writes what frames are of.
///
/// # Errors
///
/// `WriteFailed`: a prefix of it is out.
pub fn write_header<W: Write>(
    version: &str,
    start: &Start,
    expectation: &Expectation,
    schedule: &Schedule,
    writer: &mut W,
) -> Result<(), WriteFailed>
    requires { length version.now ≤ 40 }
    ensures { WritesText result (W.contents writer.old) (W.contents writer.new)
        (header_text version.now start.now expectation.now schedule.now) }
{
    write_line(writer, &board_line(version, start))?;
    write_line(writer, &images_line(start))?;
    write_line(writer, &expectation_line(expectation))?;
    write_line(writer, &schedule_line(schedule))
}

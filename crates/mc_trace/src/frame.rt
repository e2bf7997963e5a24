//! A frame: an operation of a boot, the flash before it, and what a cut there comes to.
ghost use Rattle.std.specs.Prelude.{◌≡◌, ◌+◌, ◌≤◌, ◌++◌, length};
ghost use Rattle.mc_boot.specs.Outcome.{shown};
ghost use Rattle.mc_trace.specs.Frames.{between_slots, cut_class, cut_text, erase_class, fields_begin, fields_end, first_fields, flash_cells, frame_begin, frame_end, frame_text, framed_in, report_text, row_begin, row_end, sign_class, sign_of, sign_text, target_in, target_of, target_text};
ghost use Rattle.mc_trace.specs.inner.Boots.{WritesText};
ghost use Rattle.mc_trace.specs.inner.Walking.{shown_frame};
ghost use Rattle.mc_trace.specs.Trace.{operation_text};
ghost use Rattle.mc_trace.specs.Wear.{is_erase};

use crate::operation::put_operation;
use crate::patch::put_sector;
use crate::slot_cells::write_cells;
use crate::trace::Span;
use crate::verdict::is_boot;
use mc_boot::Outcome;
use mc_explore::{Expectation, Labels, Start, put_outcome, put_slots};
use mc_flash::{Flash, Layout, Op, Slot};
use mc_output::{Line, MOST_LINE, WriteFailed, write_line, write_text};
use mc_tears::Erasing;
use std::io::Write;

/// How frames are written.
#[derive(Clone, Copy, Debug, PartialEq, Eq)]
pub enum Form {
    /// A line of text for each, with tabs between its fields.
    Text,
    /// A row of a page that a browser shows.
    Page,
}

/// How frames are shown: how they are written, whether sectors that go on with one another are one, what is right, which operations of
/// a boot are seen, and how an erase fails, where torn operations are shown too.
#[derive(Clone, Copy, Debug)]
pub struct Look {
    pub form: Form,
    pub merges: bool,
    pub expectation: Expectation,
    pub span: Span,
    pub torn: Option<Erasing>,
}

/// How an outcome is judged: it is right; or an image runs, and not all is as expected; or none runs.
#[derive(Clone, Copy, Debug, PartialEq, Eq)]
pub enum Sign {
    Right,
    Wrong,
    NoBoot,
}

/// An operation of a boot with its number, whether power fails before it, and what a cut there comes to.
#[derive(Clone, Copy)]
pub struct Frame {
    pub boot: u32,
    pub number: u32,
    pub is_cut: bool,
    pub op: Op,
    pub outcome: Outcome,
}

impl Sign {
    /// The sign of an outcome.
    pub fn of(expectation: &Expectation, outcome: &Outcome) -> Sign
        ensures { result ≡ sign_of expectation.now (shown outcome.now) }
    {
        if expectation.is_right(outcome) {
            Sign::Right
        } else if is_boot(outcome.result) {
            Sign::Wrong
        } else {
            Sign::NoBoot
        }
    }

    /// Its word.
    pub fn name(self) -> &'static str
        ensures value { result.now ≡ sign_text self }
        ensures length { length result.now ≤ 7 }
    {
        match self {
            Sign::Right => "right",
            Sign::Wrong => "wrong",
            Sign::NoBoot => "no-boot",
        }
    }

    /// Its class on a page.
    pub fn class(self) -> &'static str
        ensures value { result.now ≡ sign_class self }
        ensures length { length result.now ≤ 1 }
    {
        match self {
            Sign::Right => "y",
            Sign::Wrong => "w",
            Sign::NoBoot => "z",
        }
    }
}

// The sector that an operation changes.
fn target_of(layout: &Layout, op: Op) -> (Slot, u32)
    ensures { result ≡ target_of layout.now op }
{
    match op {
        Op::Erase(slot, sector) => (slot, sector),
        Op::Program(slot, start, _) => (slot, start / layout.sector()),
        Op::Copy(_, _, to, offset, _) => (to, offset / layout.sector()),
    }
}

// That sector, where it is one of the slot.
fn target_in(slot: Slot, target: (Slot, u32)) -> Option<u32>
    ensures { result ≡ target_in slot target }
{
    match (slot, target.0) {
        (Slot::Primary, Slot::Primary) | (Slot::Secondary, Slot::Secondary) => Some(target.1),
        _ => None,
    }
}

// The sector of a slot that stands in a frame: on a page the one that the operation changes.
fn framed_in(form: Form, slot: Slot, target: (Slot, u32)) -> Option<u32>
    ensures { result ≡ framed_in form slot target }
{
    match form {
        Form::Text => None,
        Form::Page => target_in(slot, target),
    }
}

// What stands between the slots.
fn between_slots(form: Form) -> &'static str
    ensures { result.now ≡ between_slots form }
{
    match form {
        Form::Text => "\t",
        Form::Page => "<u></u>",
    }
}

// Whether an operation is an erase.
fn is_erase(op: Op) -> bool
    ensures { result ≡ is_erase op }
{
    matches!(op, Op::Erase(..))
}

// The class of a row of an erase.
fn erase_class(erase: bool) -> &'static str
    ensures value { result.now ≡ erase_class erase }
    ensures length { length result.now ≤ 2 }
{
    if erase { " e" } else { "" }
}

// The class of a row at a cut.
fn cut_class(cut: bool) -> &'static str
    ensures value { result.now ≡ cut_class cut }
    ensures length { length result.now ≤ 2 }
{
    if cut { " c" } else { "" }
}

// Whether power fails before an operation, in a word.
fn cut_text(cut: bool) -> &'static str
    ensures value { result.now ≡ cut_text cut }
    ensures length { length result.now ≤ 3 }
{
    if cut { "cut" } else { "-" }
}

// Adds an outcome to a line, as rows print it.
fn put_report(line: &mut Line, outcome: &Outcome)
    requires { length line.old + 140 ≤ MOST_LINE }
    ensures text { line.new ≡ line.old ++ report_text (shown outcome.now) }
    ensures length { length line.new ≤ length line.old + 140 }
{
    put_outcome(line, outcome);
    line.put(" ");
    put_slots(line, outcome, &Labels::none());
}

impl Frame {
    // Its first three fields, with a tab after each.
    fn first_fields(&self) -> Line
        ensures text { result ≡ first_fields (shown_frame self.now) }
        ensures length { length result ≤ 26 }
    {
        let mut line = Line::new();
        line.put_number(self.boot);
        line.put("\t");
        line.put_number(self.number);
        line.put("\t");
        line.put(cut_text(self.is_cut));
        line.put("\t");
        line
    }

    // Its fields before the sectors.
    fn fields_begin(&self, layout: &Layout) -> Line
        ensures { result ≡ fields_begin layout.now (shown_frame self.now) }
    {
        let mut line = self.first_fields();
        put_operation(&mut line, layout, self.op);
        line.put("\t");
        let (slot, sector) = target_of(layout, self.op);
        put_sector(&mut line, slot, sector);
        line.put("\t");
        line
    }

    // Its fields after the sectors.
    fn fields_end(&self, expectation: &Expectation) -> Line
        ensures { result ≡ fields_end expectation.now (shown self.now.outcome) }
    {
        let mut line = Line::new();
        line.put("\t");
        put_report(&mut line, &self.outcome);
        line.put("\t");
        line.put(Sign::of(expectation, &self.outcome).name());
        line.put("\n");
        line
    }

    // How its row begins.
    fn row_begin(&self) -> Line
        ensures { result ≡ row_begin (shown_frame self.now) }
    {
        let mut line = Line::new();
        line.put("<div class=\"r");
        line.put(erase_class(is_erase(self.op)));
        line.put(cut_class(self.is_cut));
        line.put("\"><b>");
        line.put_number(self.number);
        line.put("</b>");
        line
    }

    // How its row ends.
    fn row_end(&self, layout: &Layout, expectation: &Expectation) -> Line
        ensures { result
            ≡ row_end layout.now expectation.now (shown_frame self.now) }
    {
        let mut line = Line::new();
        line.put("<span>");
        put_operation(&mut line, layout, self.op);
        line.put("</span><em class=\"");
        line.put(Sign::of(expectation, &self.outcome).class());
        line.put("\">");
        put_report(&mut line, &self.outcome);
        line.put("</em></div>\n");
        line
    }

    // What stands before the sectors.
    fn begin(&self, form: Form, layout: &Layout) -> Line
        ensures { result
            ≡ frame_begin form layout.now (shown_frame self.now) }
    {
        match form {
            Form::Text => self.fields_begin(layout),
            Form::Page => self.row_begin(),
        }
    }

    // What stands after the sectors.
    fn end(&self, form: Form, layout: &Layout, expectation: &Expectation) -> Line
        ensures { result ≡ frame_end form layout.now expectation.now (shown_frame self.now) }
    {
        match form {
            Form::Text => self.fields_end(expectation),
            Form::Page => self.row_end(layout, expectation),
        }
    }
}

// Writes the sectors of both slots.
fn write_flash<F: Flash, W: Write>(
    flash: &F,
    start: &Start,
    look: &Look,
    target: (Slot, u32),
    writer: &mut W,
) -> Result<(), WriteFailed>
    requires { (F.seen flash.now).geometry ≡ start.now.geometry }
    ensures { WritesText result (W.contents writer.old) (W.contents writer.new)
        (flash_cells look.now start.now.geometry start.now.content (F.seen flash.now).content
        target) }
{
    let (primary, secondary) = (flash.read(Slot::Primary), flash.read(Slot::Secondary));
    let first = framed_in(look.form, Slot::Primary, target);
    write_cells(start, Slot::Primary, primary, first, look, writer)?;
    write_text(writer, between_slots(look.form).as_bytes())?;
    let second = framed_in(look.form, Slot::Secondary, target);
    write_cells(start, Slot::Secondary, secondary, second, look, writer)
}

/// Writes a frame, of the flash as it is.
///
/// # Errors
///
/// `WriteFailed`: a prefix of it is out.
pub fn write_frame<F: Flash, W: Write>(
    flash: &F,
    start: &Start,
    look: &Look,
    frame: &Frame,
    writer: &mut W,
) -> Result<(), WriteFailed>
    requires { (F.seen flash.now).geometry ≡ start.now.geometry }
    ensures { WritesText result (W.contents writer.old) (W.contents writer.new)
        (frame_text look.now start.now.geometry start.now.content (F.seen flash.now).content
        (shown_frame frame.now)) }
{
    let layout = start.layout();
    write_line(writer, &frame.begin(look.form, layout))?;
    write_flash(flash, start, look, target_of(layout, frame.op), writer)?;
    write_line(writer, &frame.end(look.form, layout, &look.expectation))
}

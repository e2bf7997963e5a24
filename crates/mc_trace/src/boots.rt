//! One boot, traced operation by operation.
ghost use Rattle.std.specs.Prelude.{◌≡◌, ◌+◌, ◌<◌, ◌≤◌, ◌++◌, ◌⊎◌, [], length, IfErr, IfSome, OnOk, OnErr, Some};
ghost use Rattle.std.specs.Io.KnownBytes.{Appends};
ghost use Rattle.mc_output.specs.Text.{AppendsPrefix};
ghost use Rattle.mc_flash.specs.Usage.{Allows};
ghost use Rattle.mc_boot.specs.Boot.{left_of, progress, to_come, IsBootOf};
ghost use Rattle.mc_explore.specs.inner.OneRound.{most_of};
ghost use Rattle.mc_explore.specs.Boots.{at_cut};
ghost use Rattle.mc_boot.specs.Plan.{powered};
ghost use Rattle.mc_boot.specs.Outcome.{ops_of};
ghost use Rattle.mc_trace.specs.inner.Boots.{CountsUpTo, GoesUpTo, WritesText};
ghost use Rattle.mc_trace.specs.Trace.{numbered_text, operation_lines, up_to, head_line, cut_line, cut_text, last_text, shown};

use crate::error::TraceError;
use crate::operation::Numbered;
use crate::trace::Span;
use mc_boot::Boot;
use mc_flash::{Flash, FlashError};
use mc_output::{Line, write_line};
use mc_trailer::{Rules, SwapType};
use std::io::Write;

// The number and the type of a boot.
fn head_line(boot: u32, kind: SwapType) -> Line
    ensures { result ≡ head_line boot kind }
{
    let mut line = Line::new();
    line.put("boot ");
    line.put_number(boot);
    line.put(" ");
    line.put(kind.name());
    line.put("\n");
    line
}

// An operation, and what is said after it, where its number lies in a span; else nothing.
fn line_with(span: Span, numbered: &Numbered<'_>, end: &str) -> Line
    requires { length end.now ≤ 9 }
    ensures { let o = numbered.now in result
        ≡ shown span o.number (numbered_text o.layout.now o.number o.op ++ end.now) }
{
    let mut line = Line::new();
    if span.has(numbered.number) {
        numbered.put_into(&mut line);
        line.put(end);
    }
    line
}

// The operation before which the power is cut.
fn cut_line(numbered: &Numbered<'_>) -> Line
    ensures { let o = numbered.now in result ≡ cut_line o.layout.now o.number (Some o.op) }
{
    let mut line = Line::new();
    line.put("cut before ");
    numbered.put_into(&mut line);
    line.put("\n");
    line
}

// Makes the operations of a boot up to a number, or all that are left, and writes a line for each whose number lies in a span.
fn write_operations<F: Flash, W: Write>(
    flash: &mut F,
    boot: &mut Boot,
    until: Option<u32>,
    span: Span,
    writer: &mut W,
) -> Result<(), TraceError>
    requires layout { IsBootOf (F.seen flash.old).geometry boot.old }
    requires before { IfSome until (λ n. (progress boot.old).count ≤ n) }
    requires room { let f = F.seen flash.old in Allows (left_of f.geometry (progress boot.old)) f }
    ensures written { let p = progress boot.old in WritesText result
        (W.contents writer.old) (W.contents writer.new)
        (operation_lines span (F.seen flash.old).geometry p.count
        (up_to until p.count p.to_come) (F.seen flash.old).content) }
    ensures goes { GoesUpTo until boot.old (F.seen flash.old) boot.new (F.seen flash.new) }
    ensures end { OnOk result ((to_come boot.new ≡ [])
        ⊎ IfSome until (λ n. (progress boot.new).count ≡ n)) }
    ensures counts { let f = F.seen flash.old in
        CountsUpTo (left_of f.geometry (progress boot.old)) f result (F.seen flash.new) }
    ensures err { IfErr result (λ e. (e ≡ TraceError.Memory) ⊎ (e ≡ TraceError.Write)) }
{
    let layout = *flash.layout();
    'operations: while until.is_none_or(|until| boot.count() < until) {
        let Some(op) = boot.peek() else {
            return Ok(());
        };
        let numbered = Numbered {
            layout: &layout,
            number: boot.count(),
            op,
        };
        match boot.step(flash) {
            Ok(()) => write_line(writer, &line_with(span, &numbered, "\n"))?,
            Err(FlashError::NotErased) => write_line(
                writer,
                &line_with(span, &numbered, " refused\n"),
            )?,
            Err(FlashError::Memory) => return Err(TraceError::Memory),
        }
    }
    Ok(())
}

/// Traces a boot that is cut before its operation of that number.
///
/// # Errors
///
/// `Memory` where the flash was refused memory, which one that counts never is; `Write`.
pub fn write_cut_boot<F: Flash, W: Write>(
    flash: &mut F,
    rules: Rules,
    boot: u32,
    cut: u32,
    span: Span,
    writer: &mut W,
) -> Result<(), TraceError>
    requires inside { cut < length (ops_of (powered rules (F.seen flash.old))) }
    requires room { let f = F.seen flash.old in Allows (most_of (powered rules f)) f }
    ensures whole { let f = F.seen flash.old in OnOk result
        (Appends (W.contents writer.old) (W.contents writer.new)
        (cut_text span rules f.geometry boot f.content cut)) }
    ensures prefix { let f = F.seen flash.old in OnErr result
        (AppendsPrefix (W.contents writer.old) (W.contents writer.new)
        (cut_text span rules f.geometry boot f.content cut)) }
    ensures left { let x = powered rules (F.seen flash.old) in OnOk result
        ((F.seen flash.new).content ≡ at_cut x cut) }
    ensures layout { (F.seen flash.new).geometry ≡ (F.seen flash.old).geometry }
    ensures counts { let f = F.seen flash.old in
        CountsUpTo (most_of (powered rules f)) f result (F.seen flash.new) }
    ensures err { IfErr result (λ e. (e ≡ TraceError.Memory) ⊎ (e ≡ TraceError.Write)) }
{
    let layout = *flash.layout();
    let mut machine = Boot::cold(flash, rules);
    write_line(writer, &head_line(boot, machine.kind()))?;
    write_operations(flash, &mut machine, Some(cut), span, writer)?;
    if let Some(op) = machine.peek() {
        let numbered = Numbered {
            layout: &layout,
            number: cut,
            op,
        };
        write_line(writer, &cut_line(&numbered))?;
    }
    Ok(())
}

/// Traces a boot that is not cut.
///
/// # Errors
///
/// `Memory` where the flash was refused memory, which one that counts never is; `Write`.
pub fn write_last_boot<F: Flash, W: Write>(
    flash: &mut F,
    rules: Rules,
    boot: u32,
    span: Span,
    writer: &mut W,
) -> Result<(), TraceError>
    requires { let f = F.seen flash.old in Allows (most_of (powered rules f)) f }
    ensures whole { let f = F.seen flash.old in OnOk result
        (Appends (W.contents writer.old) (W.contents writer.new)
        (last_text span rules f.geometry boot f.content)) }
    ensures prefix { let f = F.seen flash.old in OnErr result
        (AppendsPrefix (W.contents writer.old) (W.contents writer.new)
        (last_text span rules f.geometry boot f.content)) }
    ensures counts { let f = F.seen flash.old in
        CountsUpTo (most_of (powered rules f)) f result (F.seen flash.new) }
    ensures err { IfErr result (λ e. (e ≡ TraceError.Memory) ⊎ (e ≡ TraceError.Write)) }
{
    let mut machine = Boot::cold(flash, rules);
    write_line(writer, &head_line(boot, machine.kind()))?;
    write_operations(flash, &mut machine, None, span, writer)
}

//! `layout`: what follows from the numbers of a layout.
ghost use Rattle.std.specs.Prelude.{IfErr, IfOk, Option};
ghost use Rattle.clap.specs.Matches.{found_of};
ghost use Rattle.mc_actions.specs.Layouts.{AnswersLayout, LacksTimedLayout};
ghost use Rattle.mc_flash.specs.Geometry.{Geometry, refusal_of};
ghost use Rattle.mc_options.specs.Arguments.{GivesLayout, Judges, MayGiveTimes};
ghost use Rattle.mc_trace.specs.declared.wear.Times.{Times as GivenTimes};

use clap::ArgMatches;
use mc_flash::Layout;
use mc_options::{Refusal, layout_options, times_options};
use mc_trace::{Times, write_layout};
use std::io::Write;

/// What `layout` is asked for: six numbers, and how long the flash takes, if that is given.
///
/// # Errors
///
/// What `layout_options` and `times_options` refuse of the words.
pub fn read(arguments: &ArgMatches<'_>) -> Result<(Layout, Option<Times>), Refusal>
    ensures layout { IfOk result (λ asked. GivesLayout (found_of arguments.now) asked.0) }
    ensures times { IfOk result (λ asked. MayGiveTimes (found_of arguments.now) asked.1) }
    ensures judged { (g : Geometry) (times : Option GivenTimes)
        → GivesLayout (found_of arguments.now) g → MayGiveTimes (found_of arguments.now) times
        → Judges (refusal_of g) result }
    ensures refused { IfErr result (LacksTimedLayout (found_of arguments.now)) }
{
    let layout = layout_options(arguments)?;
    let times = times_options(arguments)?;
    Ok((layout, times))
}

/// Prints what the trailers take, how large an image may be, where each field stands, how many operations boots have, how often a swap
/// erases a sector, and how long it takes where the times of the flash are given.
///
/// # Errors
///
/// `Trace` where the output fails.
pub fn answer<O: Write>(layout: &Layout, times: Option<Times>, out: &mut O) -> Result<(), Refusal>
    ensures { AnswersLayout layout.now times (O.contents out.old) (O.contents out.new) result }
{
    write_layout(layout, times, out).map_err(Refusal::Trace)?;
    Ok(())
}

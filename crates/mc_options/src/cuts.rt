//! A cut that can't occur, and the boot in which it can't.
use crate::options::{flash_options, has_two_rounds};
use crate::source::read_start;
use clap::ArgMatches;
use mc_campaign::{Campaign, Round, start_of_second};
use mc_cli::KnownFiles;
use mc_explore::{Schedule, Start, replay};
use mc_flash::JournalFlash;
use std::alloc::Global;
use std::io;
use std::io::Write;

/// A cut, and how many operations its boot has.
#[derive(Clone, Copy)]
struct CutBoot {
    cut: u32,
    operations: u32,
}

/// The cut of a number of a schedule, with its boot.
fn in_schedule(alloc: Global, start: &Start, schedule: &Schedule, index: usize) -> Option<CutBoot> {
    let cuts = schedule.cuts();
    let cut = *cuts.get(index)?;
    let before = Schedule::of(&cuts[..index]);
    let (outcome, _) = replay::<JournalFlash>(alloc, start, &before).ok()?;
    Some(CutBoot {
        cut,
        operations: outcome.ops,
    })
}

/// The cut of a number of a campaign, with its boot.
fn in_campaign(
    alloc: Global,
    start: &Start,
    campaign: &Campaign,
    confirms: bool,
    index: usize,
) -> Option<CutBoot> {
    let firsts = campaign.schedule(Round::First);
    match index.checked_sub(firsts.cuts().len()) {
        None => in_schedule(alloc, start, &firsts, index),
        Some(later) => {
            let then = start_of_second::<JournalFlash>(alloc, start, &firsts, confirms).ok()?;
            in_schedule(alloc, &then, &campaign.schedule(Round::Second), later)
        }
    }
}

/// The cut of a number that the words give, with its boot, if all that is read to find it is as it was.
fn boot_of<F: KnownFiles>(
    files: &F,
    alloc: Global,
    arguments: &ArgMatches<'_>,
    index: usize,
) -> Option<CutBoot> {
    let text = arguments.get_str("schedule")?;
    let Ok(options) = flash_options(arguments) else {
        return None;
    };
    let Ok(start) = read_start(files, alloc, &options) else {
        return None;
    };
    if has_two_rounds(arguments).ok()? {
        let confirms = arguments.get_flag("confirm");
        return in_campaign(alloc, &start, &Campaign::read(text).ok()?, confirms, index);
    }
    in_schedule(alloc, &start, &Schedule::read(text).ok()?, index)
}

/// Prints a cut that can't occur, and how many operations its boot has.
///
/// # Errors
///
/// Where the output fails.
pub fn report_cut<F: KnownFiles, E: Write>(
    files: &F,
    alloc: Global,
    arguments: &ArgMatches<'_>,
    index: usize,
    err: &mut E,
) -> io::Result<()> {
    match boot_of(files, alloc, arguments, index) {
        Some(CutBoot { cut, operations }) => writeln!(
            err,
            "mcsim: cut {index} is {cut}, and its boot has {operations} operations"
        ),
        None => Ok(()),
    }
}

//! `type`: what the trailers of a flash ask for.
ghost use Rattle.std.specs.Prelude.{◌≡◌, IfErr, IfOk};
ghost use Rattle.clap.specs.Matches.{found_of};
ghost use Rattle.mc_actions.specs.Layouts.{AnswersType, yes_or_no};
ghost use Rattle.mc_options.specs.Sources.{GivesStart, LacksStart};
ghost use Rattle.mc_trailer.specs.Trailer.{trailer_of};

use clap::ArgMatches;
use mc_cli::KnownFiles;
use mc_explore::Start;
use mc_flash::{Flash, FlashError, JournalFlash, Slot};
use mc_options::{Refusal, flash_options, read_start};
use mc_output::write_text;
use mc_trailer::{Trailer, resumes_by, swap_type};
use std::alloc::Global;
use std::io::Write;

/// What `type` is asked for: the start of a source. The words are checked before a file is touched.
///
/// # Errors
///
/// `Source` and `Layout` of the options; what `read_start` refuses.
pub fn read<F: KnownFiles>(
    files: &F,
    alloc: Global,
    arguments: &ArgMatches<'_>,
) -> Result<Start, Refusal>
    ensures given { IfOk result (GivesStart (F.holds files.now) (found_of arguments.now)) }
    ensures refused { IfErr result (LacksStart (F.holds files.now) (found_of arguments.now)) }
{
    let options = match flash_options(arguments) {
        Ok(options) => options,
        Err(refusal) => return Err(refusal),
    };
    let start = read_start(files, alloc, &options)?;
    Ok(start)
}

/// `yes` or `no`.
pub fn yes_or_no(is: bool) -> &'static str
    ensures { result.now ≡ yes_or_no is }
{
    if is { "yes" } else { "no" }
}

// Both trailers of a start's flash.
fn trailers_of(alloc: Global, start: &Start) -> Result<(Trailer, Trailer), FlashError>
    ensures primary { let s = start.now in IfOk result (λ both. both.0
        ≡ trailer_of s.geometry s.content Slot.Primary) }
    ensures secondary { let s = start.now in IfOk result (λ both. both.1
        ≡ trailer_of s.geometry s.content Slot.Secondary) }
{
    let flash = JournalFlash::load(
        alloc,
        start.layout(),
        start.rules().grain,
        start.primary(),
        start.secondary(),
        1,
    )?;
    let primary = Trailer::read(&flash, Slot::Primary);
    let secondary = Trailer::read(&flash, Slot::Secondary);
    Ok((primary, secondary))
}

/// Prints both trailers of a flash, whether a boot would go on with a swap, and the type that the swap tables give, also where a boot
/// would go on.
///
/// # Errors
///
/// `Flash` and `Memory` where an allocation failed; `Write` where the output cannot be written.
pub fn answer<O: Write>(alloc: Global, start: &Start, out: &mut O) -> Result<(), Refusal>
    ensures { AnswersType start.now (O.contents out.old) (O.contents out.new) result }
{
    let (primary, secondary) = match trailers_of(alloc, start) {
        Ok(both) => both,
        Err(error) => return Err(Refusal::Flash(error)),
    };
    let profile = start.rules().profile;
    let resume = yes_or_no(resumes_by(profile, &primary, &secondary));
    let table = swap_type(profile, &primary, &secondary);
    let Ok(text) = format!(in alloc;
        "primary {primary}\nsecondary {secondary}\nresume {resume}\ntable {table}\n"
    ) else {
        return Err(Refusal::Memory);
    };
    write_text(out, text.as_bytes())?;
    Ok(())
}

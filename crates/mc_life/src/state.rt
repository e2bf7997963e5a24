//! The state of a device, and the line of an event.
ghost use Rattle.std.specs.Prelude.{◌≡◌, ◌+◌, ◌≤◌, ◌^◌, ◌++◌, [], ◌∷◌, codes, decimal, length, option_map, OnOk, OnErr};
ghost use Rattle.std.specs.Io.KnownBytes.{Appends};
ghost use Rattle.mc_boot.specs.Plan.{identity_of};
ghost use Rattle.mc_boot.specs.Life.{device_state, is_on_trial};
ghost use Rattle.mc_boot.specs.Outcome.{shown};
ghost use Rattle.mc_flash.specs.Flash.{bytes_of};
ghost use Rattle.mc_life.specs.Replay.{stated, event_line, outcome_text, slot_text, state_text, trial_text};
ghost use Rattle.mc_output.specs.Text.{AppendsPrefix};

use mc_boot::{Boot, ImageId, KnownImage, Outcome, image_in};
use mc_flash::{Flash, Slot};
use mc_output::{Line, MOST_LINE, WriteFailed, write_line, write_text};
use mc_trailer::{Flag, Magic, Rules, SwapType, Trailer};
use std::io::Write;

/// The state of a device: the image of the primary, and whether it is on trial; the image of the secondary; and the type that the
/// next boot will have.
#[derive(Clone, Copy, Debug)]
pub struct State {
    pub primary: Option<ImageId>,
    pub trial: bool,
    pub secondary: Option<ImageId>,
    pub next: SwapType,
}

// Whether the image of a trailer is on trial.
fn is_on_trial(primary: &Trailer) -> bool
    ensures { result ≡ is_on_trial primary.now }
{
    match (primary.magic, primary.image_ok, primary.copy_done) {
        (Magic::Good, Flag::Unset, Flag::Set) => true,
        _ => false,
    }
}

// The bytes of a slot, as many as its layout says.
fn slot_bytes<F: Flash>(flash: &F, slot: Slot) -> &[u8]
    ensures value { result.now ≡ bytes_of (F.seen flash.now).content slot }
    ensures at_most { length result.now ≤ 2 ^ 24 }
{
    let size = flash.layout().size(slot) as usize;
    &flash.read(slot)[..size]
}

/// The state of a flash. Images that are known are not hashed.
pub fn state_of<F: Flash>(flash: &F, rules: Rules, known: &[Option<KnownImage<'_>>]) -> State
    ensures { let f = F.seen flash.now in stated result ≡ device_state rules f.geometry f.content }
{
    State {
        primary: image_in(slot_bytes(flash, Slot::Primary), known),
        trial: is_on_trial(&Trailer::read(flash, Slot::Primary)),
        secondary: image_in(slot_bytes(flash, Slot::Secondary), known),
        next: Boot::cold_among(flash, rules, known).kind(),
    }
}

// Adds what a slot holds: at most 54 bytes.
fn put_slot(line: &mut Line, held: &Option<ImageId>)
    requires { length line.old + 54 ≤ MOST_LINE }
    ensures text { line.new ≡ line.old ++ slot_text (option_map identity_of held.now) }
    ensures length { length line.new ≤ length line.old + 54 }
{
    match held {
        None => line.put("none"),
        Some(image) => {
            image.version.put_into(line);
            line.put("/");
            line.put_number(image.size);
        }
    }
}

// Adds how a boot ended, if there was one.
fn put_outcome(line: &mut Line, outcome: &Option<Outcome>)
    requires { line.old ≡ [] }
    ensures text { line.new ≡ outcome_text (option_map shown outcome.now) }
    ensures length { length line.new ≤ 24 }
{
    match outcome {
        None => {}
        Some(outcome) => {
            line.put(" ");
            line.put(outcome.result.name());
            line.put(" ");
            line.put(outcome.kind.name());
            line.put(" ");
            line.put_number(outcome.ops);
        }
    }
}

impl State {
    // Adds its text: at most 126 bytes.
    fn put_into(&self, line: &mut Line)
        requires { length line.old + 126 ≤ MOST_LINE }
        ensures text { line.new ≡ line.old ++ state_text (stated self.now) }
        ensures length { length line.new ≤ length line.old + 126 }
    {
        line.put(" ");
        put_slot(line, &self.primary);
        line.put(" ");
        line.put(if self.trial { "trial" } else { "settled" });
        line.put(" ");
        put_slot(line, &self.secondary);
        line.put(" ");
        line.put(self.next.name());
    }
}

// The first word of the line of an event.
fn number_line(number: u32) -> Line
    ensures { result ≡ decimal number ++ codes " " }
{
    let mut line = Line::new();
    line.put_number(number);
    line.put(" ");
    line
}

// What stands after the words of an event.
fn end_line(outcome: &Option<Outcome>, state: &State) -> Line
    ensures { let ended = outcome_text (option_map shown outcome.now) in result
        ≡ (ended ++ state_text (stated state.now)) ++ 10 ∷ [] }
{
    let mut line = Line::new();
    put_outcome(&mut line, outcome);
    state.put_into(&mut line);
    line.put("\n");
    line
}

/// Writes the line of an event: its number, its words, how a boot ended, and the state that it leads to.
///
/// # Errors
///
/// `WriteFailed` where a write fails or takes no bytes.
pub fn write_event<W: Write>(
    number: u32,
    words: &str,
    outcome: &Option<Outcome>,
    state: &State,
    writer: &mut W,
) -> Result<(), WriteFailed>
    ensures whole { OnOk result (Appends (W.contents writer.old) (W.contents writer.new)
        (event_line number words.now (option_map shown outcome.now) (stated state.now))) }
    ensures prefix { OnErr result (AppendsPrefix (W.contents writer.old) (W.contents writer.new)
        (event_line number words.now (option_map shown outcome.now) (stated state.now))) }
{
    write_line(writer, &number_line(number))?;
    write_text(writer, words.as_bytes())?;
    write_line(writer, &end_line(outcome, state))
}

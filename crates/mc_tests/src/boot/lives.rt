//! Lives of a device, event by event, against the automaton of `docs/LIFE.md`.
use super::*;
use crate::common::{flash_with, number_of, parts_of, rules_named, same_at};
use mc_boot::ImageId;
use mc_flash::Slot;
use mc_trailer::{Flag, Magic, Trailer};
use std::alloc::Global;

/// The bytes of both slots.
fn bytes_of(rt: &impl Abort, alloc: Global, flash: &SnapFlash) -> Vec<u8> {
    let mut bytes = flash.read(Slot::Primary).to_vec(alloc).expect(rt, "memory");
    bytes
        .extend_from_slice(flash.read(Slot::Secondary))
        .expect(rt, "memory");
    bytes
}

/// A boot that is left alone, or loses the power before an operation of it.
fn boots(rt: &impl Abort, flash: &mut SnapFlash, rules: Rules, event: &str) {
    match event.strip_prefix("cut ") {
        Some(cut) => {
            let mut boot = Boot::cold(flash, rules);
            run(flash, &mut boot, number_of(rt, cut));
        }
        None => {
            let _ = shown(flash, rules);
        }
    }
}

/// The same flash with some bytes changed.
fn changed(rt: &impl Abort, alloc: Global, flash: &SnapFlash, changes: &str) -> SnapFlash {
    let mut bytes = bytes_of(rt, alloc, flash);
    flash_with(rt, alloc, bytes.as_mut_slice(), changes)
}

/// Lets an event happen: the power comes on, and the boot is left alone, or the power is lost before an operation of it; the image
/// confirms itself, or changes bytes: of the secondary, after the primary's, or of a confirmation that is torn.
fn live(rt: &impl Abort, alloc: Global, flash: &mut SnapFlash, rules: Rules, event: &str) {
    if event == "confirm" {
        let _ = confirm(flash).expect(rt, "a confirmation");
    } else if event.contains('=') {
        *flash = changed(rt, alloc, flash, event);
    } else {
        boots(rt, flash, rules, event)
    }
}

/// The name of an image: A, B and C are `first`, `second` and `plain`.
fn name_of(image: Option<ImageId>) -> &'static str {
    match image {
        None => "0",
        Some(image) if image.version.major == 2 => "B",
        Some(image) if image.version.minor == 2 => "C",
        Some(_) => "A",
    }
}

/// The state of a flash at rest: the primary's image, whether it is on trial, the secondary's, and the type of the next boot.
fn state_of(rt: &impl Abort, alloc: Global, flash: &SnapFlash, rules: Rules) -> String {
    let primary = Trailer::read(flash, Slot::Primary);
    let trial = matches!(primary.magic, Magic::Good)
        && matches!(primary.image_ok, Flag::Unset)
        && matches!(primary.copy_done, Flag::Set);
    let outcome = Boot::cold(flash, rules).outcome(flash);
    let trial = if trial { "trial" } else { "-" };
    let (runs, other) = (name_of(outcome.primary), name_of(outcome.secondary));
    format!(in alloc; "{runs} {trial} {other} {}", outcome.next).expect(rt, "memory")
}

/// Lives, with an empty line between them: a line of the rules, one of the flash that the device is delivered with, and one for
/// each event with the state that it leaves; no state after a cut, where the device does not rest.
///
/// A download, a request, a test with two cuts, and the image confirms itself. It does not, and is taken back for good. An upgrade
/// for good. A request where no image stands fails, until one stands there. What is downloaded while an image is on trial is taken
/// in by the revert. Half of it takes the way back, for as long as it stands there. A request on trial: the image that never
/// confirmed itself comes back for good. A confirmation keeps what was requested. A confirmation that is torn ends the trial, and
/// so does nothing that is written after it. A torn request on trial, by the first profile and by the second. A revert that is cut
/// within the secondary's magic is forgotten by these rules, and comes back when that magic is erased.
const LIVES: &str = "\
call-1,call-2,unit-1,unit-2
0=first
boot: A - 0 none
1024=second: A - B none
boot: A - B none
1776=MAGIC: A - B test
cut 9:
cut 1:
boot: B trial A revert
confirm: B - A none
boot: B - A none

call-1,call-2,unit-1,unit-2
IMAGES
boot: B trial A revert
cut 0:
boot: A - B none
confirm: A - B none
boot: A - B none

call-1,call-2,unit-1,unit-2
IMAGES,1768=01
confirm: A - B perm
cut 5:
boot: B - A none
confirm: B - A none

call-1,call-2,unit-1,unit-2
0=first
1776=MAGIC: A - 0 fail
boot: A - 0 fail
1024=second,1100=00: A - 0 fail
1100=69: A - B test

call-1,call-2,unit-1,unit-2
IMAGES
boot: B trial A revert
1024=plain: B trial C revert
boot: C - B none

call-1,call-2,unit-1,unit-2
IMAGES
boot: B trial A revert
1024=plain,1103=00: B trial 0 fail
boot: B trial 0 fail
1103=d4: B trial C revert
boot: C - B none

call-1,call-2,unit-1,unit-2
IMAGES
boot: B trial A revert
1024=plain,1776=MAGIC: B trial C test
boot: C trial B revert
boot: B - C none

call-1,call-2,unit-1,unit-2
IMAGES
boot: B trial A revert
1024=plain,1776=MAGIC: B trial C test
confirm: B - C test
boot: C trial B revert

call-1,call-2,unit-1,unit-2
IMAGES
boot: B trial A revert
1000=7f: B - A none
boot: B - A none
confirm: B - A none

call-1,unit-1
IMAGES
boot: B trial A revert
1776=77c295f3: B trial A none
boot: B trial A none

call-2,unit-2
IMAGES
boot: B trial A revert
1776=77c295f3: B trial A revert
cut 4:
boot: A - B none

unit-1
IMAGES
boot: B trial A revert
cut 4:
boot: B trial A none
1776=ffffffffffffffffffffffffffffffff: B trial A revert
boot: A - B none

unit-2
IMAGES
boot: B trial A revert
cut 4:
boot: A - B none
";

/// A flash lives through some events as they are told.
fn is_shown(rt: &impl Abort, alloc: Global, start: &str, rules: Rules, events: &str) {
    let mut flash = flash_of(rt, alloc, start);
    for line in events.lines() {
        let (event, state) = parts_of(rt, line, ":");
        live(rt, alloc, &mut flash, rules, event);
        if !state.is_empty() {
            let found = state_of(rt, alloc, &flash, rules);
            same_at(rt, &(rules, events, event), &found.as_str(), &state.trim());
        }
    }
}

/// A life is as it is given, under each of its rules.
fn are_shown(rt: &impl Abort, alloc: Global, life: &str) {
    let (names, rest) = parts_of(rt, life, "\n");
    let (start, events) = parts_of(rt, rest, "\n");
    for name in names.split(',') {
        is_shown(rt, alloc, start, rules_named(name), events);
    }
}

#[test]
fn lives(rt: HostRuntime) {
    for life in LIVES.split("\n\n") {
        are_shown(&rt, rt.alloc(), life);
    }
}

//! What is predicted of the boot after a cut, against the boot that ran.
ghost use Rattle.std.specs.Prelude.{◌≡◌};

use super::*;
use crate::common::{change, number_of, parts_of, rules_named, same_at};
use mc_boot::outcome_after;
use mc_flash::{Grain, Layout};
use std::alloc::Global;

/// What is predicted of the boot after a cut, of which the outcome is known that is not cut. The flash is as the cut leaves it.
fn predicted<F: Flash>(flash: &mut F, rules: Rules, whole: &Outcome, cut: u32) -> Option<Outcome>
    ensures { (F.seen flash.new).checkpoints ≡ (F.seen flash.old).checkpoints }
{
    let mut boot = Boot::cold(flash, rules);
    run(flash, &mut boot, cut);
    let next = Boot::cold(flash, rules);
    outcome_after(&boot, whole, &next)
}

/// What is predicted of the boot after a cut, and what the boot does that runs then. The flash is as it was.
fn after_cut<F: Flash>(
    rt: &impl Abort,
    flash: &mut F,
    rules: Rules,
    whole: &Outcome,
    cut: u32,
) -> (Option<Outcome>, Outcome) {
    let offset = flash.mark().expect(rt, "a checkpoint");
    let predicted = predicted(flash, rules, whole, cut);
    let ran = shown(flash, rules);
    flash.back_to(offset);
    (predicted, ran)
}

/// Whether so many operations are predicted, and made; or none are predicted.
fn is_shown(ops: Option<u32>, predicted: Option<Outcome>, ran: Outcome) -> bool {
    match (ops, predicted) {
        (Some(ops), Some(outcome)) => outcome == ran && ran.ops == ops,
        (None, None) => true,
        _ => false,
    }
}

/// A word of a boot's cuts, as in `5:18`: the cut at which it ends, and how many operations the boot after each of its cuts makes,
/// or `-` where no outcome is predicted.
fn ends_of(rt: &impl Abort, word: &str) -> (u32, Option<u32>) {
    let (end, ops) = parts_of(rt, word, ":");
    let ops = if ops == "-" {
        None
    } else {
        Some(number_of(rt, ops))
    };
    (number_of(rt, end), ops)
}

/// Whether a cut of a boot is as it is told: so many operations are made after it, or no outcome is told.
fn is_so<F: Flash>(
    rt: &impl Abort,
    flash: &mut F,
    rules: Rules,
    whole: &Outcome,
    cut: u32,
    ops: Option<u32>,
) -> bool {
    let (predicted, ran) = after_cut(rt, flash, rules, whole, cut);
    is_shown(ops, predicted, ran)
}

/// The first cut of a boot that is not as its words say, or the last word's end, where that is not the boot's.
fn first_amiss<F: Flash>(rt: &impl Abort, flash: &mut F, rules: Rules, words: &str) -> Option<u32> {
    let whole = whole_of(rt, flash, rules);
    let mut start = 0;
    for word in words.split(' ') {
        let (end, ops) = ends_of(rt, word);
        for cut in start..end {
            if !is_so(rt, flash, rules, &whole, cut, ops) {
                return Some(cut);
            }
        }
        start = end;
    }
    if start == whole.ops {
        None
    } else {
        Some(start)
    }
}

/// The cuts of boots that follow each other are as their words say.
fn are_shown<F: Flash>(rt: &impl Abort, flash: &mut F, rules: Rules, boots: &str) {
    for words in boots.split(" / ") {
        let amiss = first_amiss(rt, flash, rules, words);
        same_at(rt, &(rules, words), &amiss, &None);
        let _ = shown(flash, rules);
    }
}

/// A line has some rules, a flash, and the cuts of the boots from there, which follow each other under each of the rules. A boot
/// that makes no operations has no cut.
///
/// Boots by calls, in each profile. A revert that was cut between its preparation and the erase of the secondary's trailer is
/// followed by a swap for good, after which nothing is swapped, and there is no cut. Then boots from flashes that hold no images:
/// another type is none; where copy-done reads as unset it can't be written; then with status entries. Then a primary that begins
/// with an image but for its last entry, of which the swap-size makes an empty one: it is too large then; the area's length stands
/// before it, and an entry up to the swap-size after it. Before that, an upgrade that is under way, where the secondary asks for none that is
/// clear: the third profile alone goes on with it.
///
/// Boots by units: a test and its revert in either profile, where after one half of the secondary's magic the first one swaps
/// nothing; in both, a swap for good, and boots from flashes that hold no images.
const CASES: &str = "\
call-1,call-2,call-3 IMAGES 5:18 9:14 13:9 17:5 18:1 / 4:23 10:- 14:14 18:9 22:5 23:1
call-1,call-2 IMAGES,1768=01 6:19 10:14 14:9 18:5 19:1 / 0:-
call-1,call-2 BEGUN,984=02 5:14 9:9 13:5 14:1
call-1,call-2 BEGUN,984=03 5:15 9:10 13:6 14:2 15:1
call-1,call-2 BEGUN,984=04 5:15 9:10 13:6 14:2 15:1
call-1,call-2 BEGUN,984=13 0:-
call-1,call-2 BEGUN,984=02,993=00 5:13 9:8 13:4
call-1,call-2 BEGUN,984=02,920=01,993=00 0:-
call-1,call-2 BEGUN,984=02,880=01 4:9 8:5 9:1
call-1,call-2 BEGUN,984=02,912=01 4:5 5:1
call-1,call-2 BEGUN,984=02,920=01 1:1
call-1,call-2 BEGUN,984=03,920=01 1:2 2:1
call-1,call-2 BEGUN,984=02,888=01 0:-
call-1,call-2 IMAGES,976=50000000,984=03,1000=01,1008=MAGIC,1768=03 0:-
call-3 IMAGES,976=50000000,984=03,1000=01,1008=MAGIC,1768=03 5:14 9:9 13:5 14:1
call-1 IMAGES,42=ac03,80=a0007c03 3:18 5:- 9:14 13:9 17:5 18:1
unit-1 IMAGES 6:109 40:104 74:69 108:35 109:1 / 4:115 12:- 46:104 80:69 114:35 115:1
unit-2,unit-3 IMAGES 6:109 40:104 74:69 108:35 109:1 / 5:115 12:- 46:104 80:69 114:35 115:1
unit-1,unit-2 IMAGES,1768=01 7:110 41:104 75:69 109:35 110:1
unit-1,unit-2 BEGUN,984=02 35:104 69:69 103:35 104:1
unit-1,unit-2 BEGUN,984=03 35:105 69:70 103:36 104:2 105:1
unit-1,unit-2 BEGUN,984=02,993=00 35:103 69:68 103:34
unit-1,unit-2 BEGUN,984=02,880=01 34:69 68:35 69:1
";

/// The boots from a flash are as told under each of some rules.
fn are_shown_under(rt: &impl Abort, alloc: Global, names: &str, start: &str, boots: &str) {
    for name in names.split(',') {
        let mut flash = flash_of(rt, alloc, start);
        are_shown(rt, &mut flash, rules_named(name), boots);
    }
}

#[test]
fn cuts_of_boots(rt: HostRuntime) {
    for line in CASES.lines() {
        let (names, rest) = parts_of(&rt, line, " ");
        let (start, boots) = parts_of(&rt, rest, " ");
        are_shown_under(&rt, rt.alloc(), names, start, boots);
    }
}

/// A test and a revert on trailers of two sectors: the first of their erases takes the magic away.
const TWO_SECTORS: &str = "6:17 10:12 13:7 16:4 17:1 / 5:23 12:- 16:12 19:7 22:4 23:1";

/// A flash of such trailers that holds the two images. A swap for a test is asked for.
#[test]
fn cuts_of_trailers_of_two_sectors(rt: HostRuntime) {
    let mut bytes = [0xff; 1152];
    change(&rt, rt.alloc(), &mut bytes, "0=first,640=second,1136=MAGIC");
    let (primary, secondary) = bytes.split_at(640);
    let layout = Layout::new(128, 8, 4, 128, 5, 4).expect(&rt, "a layout");
    let mut flash = SnapFlash::load(rt.alloc(), &layout, Grain::Call, primary, secondary, 1).expect(
        &rt, "a flash",
    );
    are_shown(&rt, &mut flash, Rules::PLAIN, TWO_SECTORS)
}

//! What the tests share.
ghost use Rattle.std.specs.Prelude.{◌≡◌, ◌≤◌, []};
ghost use Rattle.mc_flash.specs.inner.Worked.{worked};

use mc_fixtures::{change_at, worked};
use mc_flash::{Flash, Grain, SnapFlash};
use mc_trailer::{Profile, Rules};
use std::alloc::Global;
use std::fmt::Debug;
use std::process::Abort;

/// What was found is what is wanted.
pub fn same<T: PartialEq + Debug>(rt: &impl Abort, found: &T, wanted: &T) {
    assert_eq!(rt; *found, *wanted);
}

/// The same of one row of a table, which is printed where it is not so.
pub fn same_at<T: PartialEq + Debug, A: Debug>(rt: &impl Abort, at: &A, found: &T, wanted: &T) {
    assert_eq!(rt; *found, *wanted, "at {at:?}");
}

/// A text with a word in full.
fn with_word(rt: &impl Abort, alloc: Global, text: &str, word: &str, full: &str) -> String {
    text.replace(alloc, word, full).expect(rt, "memory")
}

/// A text with its words in full: the two images with the swap for a test asked for; the primary's trailer of a swap of 80 bytes
/// that was begun; and the magic of a trailer.
fn in_full(rt: &impl Abort, alloc: Global, text: &str) -> String {
    let images = "0=first,1024=second,1776=MAGIC";
    let placed = with_word(rt, alloc, text, "IMAGES", images);
    let begun = with_word(
        rt,
        alloc,
        placed.as_str(),
        "BEGUN",
        "976=50000000,1008=MAGIC",
    );
    let magic = "77c295f360d2ef7f3552500f2cb67980";
    with_word(rt, alloc, begun.as_str(), "MAGIC", magic)
}

/// The number that a text says.
pub fn number_of(rt: &impl Abort, text: &str) -> u32 {
    text.parse::<u32>().expect(rt, "a number")
}

/// The two parts of a text on both sides of the first such text.
pub fn parts_of<'a>(rt: &impl Abort, text: &'a str, between: &str) -> (&'a str, &'a str) {
    text.split_once(between).expect(rt, "two parts")
}

/// The rules of a name: those of whole calls or of units, in the profile of that number, 1 unless it has one.
pub fn rules_named(name: &str) -> Rules {
    let grain = if name.starts_with("unit") {
        Grain::Unit
    } else {
        Grain::Call
    };
    let profile = match name.as_bytes().last() {
        Some(b'2') => Profile::Two,
        Some(b'3') => Profile::Three,
        _ => Profile::One,
    };
    Rules { grain, profile }
}

/// Puts named bytes, or those of some digits, in their places, as in `0=first,984=02`. What there is no room for is left out.
pub fn change(rt: &impl Abort, alloc: Global, bytes: &mut [u8], changes: &str) {
    let changes = in_full(rt, alloc, changes);
    for shown in changes.as_str().split(',') {
        change_at(alloc, bytes, shown).expect(rt, "a change");
    }
}

/// A flash of the worked layout with these bytes, changed as given. The secondary's offsets come after the primary's.
pub fn flash_with(rt: &impl Abort, alloc: Global, bytes: &mut [u8], changes: &str) -> SnapFlash {
    let layout = worked().expect(rt, "a layout");
    change(rt, alloc, bytes, changes);
    assert!(rt; bytes.len() == 1792);
    let (primary, secondary) = bytes.split_at(1024);
    SnapFlash::load(alloc, &layout, Grain::Call, primary, secondary, 1).expect(rt, "a flash")
}

/// A flash of the worked layout that is 0xff but for some changes.
pub fn flash_of(rt: &impl Abort, alloc: Global, changes: &str) -> SnapFlash {
    flash_with(rt, alloc, &mut [0xff; 1792], changes)
}

/// A flash of the worked layout for so many boots: the primary is blank, and the secondary holds 0xaa.
pub fn loaded<F: Flash>(rt: &impl Abort, alloc: Global, boots: u32) -> F
    requires { (1 ≤ boots) × (boots ≤ 32) }
    ensures geometry { (F.seen result).geometry ≡ worked }
    ensures checkpoints { (F.seen result).checkpoints ≡ [] }
{
    let layout = worked().expect(rt, "a layout");
    let flash = F::load(
        alloc,
        &layout,
        Grain::Call,
        &[0xff; 1024],
        &[0xaa; 768],
        boots,
    )
    .expect(rt, "a flash");
    flash
}

/// A secondary of the worked layout that holds 0xaa, but for its sector in the middle, which is erased.
pub fn with_an_erased_sector() -> [u8; 768] {
    let mut bytes = [0xaa; 768];
    bytes[256..512].fill(0xff);
    bytes
}

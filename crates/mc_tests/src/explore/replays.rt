//! Each row that an explorer lists is replayed, over the other kind of flash: those of the worked starts, whose images are in the
//! slots as they are named, and those of starts with a byte of a trailer changed.
ghost use Rattle.std.specs.Prelude.{◌≤◌};

use super::pages::pages_of;
use crate::common::{change, same_at};
use mc_boot::{BootResult, ImageId, Outcome};
use mc_explore::{Explorer, Kind, Row, Start, replay};
use mc_fixtures::{FIRST_IMAGE, SECOND_IMAGE, image_of, worked};
use mc_flash::{JournalFlash, Layout, SnapFlash};
use mc_image::Version;
use std::alloc::Global;
use std::process::Abort;

/// Looks whether the schedule of a row has the row's outcome where it is replayed.
fn is_replayed(rt: &impl Abort, alloc: Global, start: &Start, row: &Row) {
    let (outcome, _flash): (Outcome, SnapFlash) = replay(alloc, start, &row.schedule).expect(
        rt, "a replay",
    );
    same_at(rt, &row.schedule, &outcome, &row.outcome)
}

/// Looks whether a row boots with the images in the slots as the start names them, if it names any.
fn is_as_named(rt: &impl Abort, start: &Start, row: &Row) {
    if let Some((named, other)) = start.named() {
        let outcome = &row.outcome;
        let found = (outcome.result, outcome.primary, outcome.secondary);
        let wanted = (BootResult::Boot, Some(named), Some(other));
        same_at(rt, &row.schedule, &found, &wanted);
    }
}

/// How many rows a start has, with at most so many cuts, and how many operations the boot of the first one makes. Each is
/// replayed.
fn rows_of(rt: &impl Abort, alloc: Global, start: &Start, bound: u8) -> (u32, u32)
    requires { bound ≤ 16 }
{
    let mut explorer = Explorer::<JournalFlash>::start(alloc, start, bound).expect(
        rt,
        "an explorer",
    );
    let mut first = 0;
    for offset in 0u32..1000 {
        let Some(row) = explorer.next_row().expect(rt, "a row") else {
            return (offset, first);
        };
        is_replayed(rt, alloc, start, &row);
        is_as_named(rt, start, &row);
        if offset == 0 {
            first = row.outcome.ops;
        }
    }
    (1000, first)
}

/// The six numbers of a layout.
type Numbers = [u32; 6];

/// The worked layout, one of slots that are equally long, one of units of one byte, and one whose trailers have two sectors.
const WORKED: Numbers = [256, 8, 4, 128, 4, 3];

const THREE: Numbers = [256, 8, 4, 128, 3, 3];

const SMALL: Numbers = [64, 1, 4, 32, 4, 3];

const TWO: Numbers = [128, 8, 4, 128, 5, 4];

/// A layout, the length of the second image's payload, and the kind of the start; how many operations the uncut boot makes; and
/// how many rows there are with at most no cut, one and two.
static STARTS: [(Numbers, usize, Kind, u32, [u32; 3]); 8] = [
    (WORKED, 8, Kind::None, 0, [1, 1, 1]),
    (WORKED, 8, Kind::Test, 18, [1, 19, 222]),
    (WORKED, 8, Kind::Perm, 19, [1, 20, 247]),
    (WORKED, 8, Kind::Revert, 23, [1, 24, 343]),
    (WORKED, 228, Kind::Test, 30, [1, 31, 546]),
    (THREE, 8, Kind::Test, 18, [1, 19, 222]),
    (SMALL, 8, Kind::Test, 30, [1, 31, 546]),
    (TWO, 8, Kind::Test, 17, [1, 18, 202]),
];

/// The start of the first image and of one with a payload of so many zeros.
fn start_of(rt: &impl Abort, alloc: Global, numbers: &Numbers, len: usize, kind: Kind) -> Start {
    let [sector, unit, most, chunk, primary, secondary] = *numbers;
    let layout = Layout::new(sector, unit, most, chunk, primary, secondary).expect(rt, "a layout");
    let payload = vec![in alloc; 0u8; len].expect(rt, "memory");
    let second = image_of(alloc, payload.as_slice()).expect(rt, "an image");
    Start::from_images(alloc, &layout, kind, &FIRST_IMAGE, second.as_slice()).expect(rt, "a start")
}

#[test]
fn rows_are_replayed(rt: HostRuntime) {
    for (numbers, len, kind, ops, counts) in &STARTS {
        let start = start_of(&rt, rt.alloc(), numbers, *len, *kind);
        for (bound, count) in (0u8..3).zip(counts) {
            let found = rows_of(&rt, rt.alloc(), &start, bound.min(16));
            same_at(&rt, &(kind, bound), &found, &(*count, *ops));
        }
    }
}

/// The identity of one of the two images: its digest stands at its end.
fn id_of(image: &[u8; 80], major: u8) -> ImageId {
    let mut digest = [0; 32];
    digest.copy_from_slice(&image[48..]);
    ImageId {
        version: Version {
            major,
            minor: 0,
            revision: 0,
            build: 0,
        },
        size: 80,
        digest,
    }
}

#[test]
fn starts_of_images_name_them(rt: HostRuntime) {
    let layout = worked().expect(&rt, "a layout");
    let (first, second) = (id_of(&FIRST_IMAGE, 1), id_of(&SECOND_IMAGE, 2));
    for kind in [Kind::None, Kind::Test, Kind::Perm, Kind::Revert] {
        let start = Start::from_images(
            rt.alloc(),
            &layout,
            kind,
            &FIRST_IMAGE,
            &SECOND_IMAGE,
        ).expect(&rt, "a start");
        let wanted = if kind == Kind::None {
            (first, second)
        } else {
            (second, first)
        };
        same_at(&rt, &kind, &start.named(), &Some(wanted));
    }
    let start = Start::from_flash(rt.alloc(), &layout, &[0xff; 1792]).expect(&rt, "a start");
    same_at(&rt, &"a flash", &start.named(), &None);
}

/// The bytes of both slots of a start in the worked layout.
fn bytes_of(start: &Start) -> [u8; 1792] {
    let mut bytes = [0; 1792];
    for (byte, shown) in bytes[..1024].iter_mut().zip(start.primary()) {
        *byte = *shown;
    }
    for (byte, shown) in bytes[1024..].iter_mut().zip(start.secondary()) {
        *byte = *shown;
    }
    bytes
}

/// Replays the rows of a flash with one byte put in the place of another.
fn replay_changed(
    rt: &impl Abort,
    alloc: Global,
    layout: &Layout,
    bytes: &[u8; 1792],
    offset: usize,
    byte: u8,
) {
    let mut changed = *bytes;
    if let Some(place) = changed.get_mut(offset) {
        *place = byte;
    }
    let start = Start::from_flash(alloc, layout, &changed).expect(rt, "a start");
    let (count, first) = rows_of(rt, alloc, &start, 1);
    // Each operation of the uncut boot gives a row of one cut.
    same_at(rt, &(offset, byte), &count.checked_sub(1), &Some(first));
}

/// Replaces each byte of the two trailers of a start by others in turn.
fn replay_hostile(rt: &impl Abort, alloc: Global, kind: Kind) {
    let layout = worked().expect(rt, "a layout");
    let bytes = bytes_of(&start_of(rt, alloc, &WORKED, 8, kind));
    for offset in (880..1024usize).chain(1648..1792) {
        for byte in [0x00, 0x01, 0x7f, 0xff] {
            if bytes.get(offset) != Some(&byte) {
                replay_changed(rt, alloc, &layout, &bytes, offset, byte);
            }
        }
    }
}

#[test]
fn rows_of_a_test_with_a_changed_trailer_are_replayed(rt: HostRuntime) {
    replay_hostile(&rt, rt.alloc(), Kind::Test)
}

#[test]
fn rows_of_a_revert_with_a_changed_trailer_are_replayed(rt: HostRuntime) {
    replay_hostile(&rt, rt.alloc(), Kind::Revert)
}

/// The bytes of the worked flash that are not 0xff, and the only row that it has, whatever the bound: nothing, a swap that is asked
/// for without an image, one that was begun with no size, of no type, and with an entry that no transfer has; and one whose copy-done
/// reads as unset and can't be written.
static FLASHES: [(&str, &str); 6] = [
    ("0=ff", "- none none 0 none none none"),
    ("1776=MAGIC", "- none fail 0 none none fail"),
    ("1008=MAGIC,984=02", "- panic panic 0 none none panic"),
    ("1008=MAGIC", "- none none 0 none none none"),
    (
        "BEGUN,984=02,888=01,993=00",
        "- panic panic 0 none none panic",
    ),
    (
        "BEGUN,984=02,920=01,993=00",
        "- fault test 0 none none test",
    ),
];

/// The only row of a flash.
fn has_one_row(rt: &impl Abort, alloc: Global, changes: &str, wanted: &str) {
    let mut bytes = [0xff; 1792];
    change(rt, alloc, &mut bytes, changes);
    let layout = worked().expect(rt, "a layout");
    let start = Start::from_flash(alloc, &layout, &bytes).expect(rt, "a start");
    let wanted = format!(in alloc; "{wanted}\nend\nend\n").expect(rt, "memory");
    for bound in [0, 2, 16] {
        let pages = pages_of(rt, alloc, &start, bound, 2);
        same_at(
            rt,
            &(changes, bound),
            &pages.as_slice(),
            &wanted.as_str().as_bytes(),
        );
    }
}

#[test]
fn flashes_without_operations_have_one_row(rt: HostRuntime) {
    for (changes, wanted) in &FLASHES {
        has_one_row(&rt, rt.alloc(), *changes, *wanted);
    }
}

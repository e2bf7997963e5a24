//! The engines on the largest inputs. The digests are those of an independent program.
ghost use Rattle.std.specs.Prelude.{◌≡◌, true};

use super::{Engine, WORKED, is_shown};
use crate::common::same;
use mc_image::Version;
use mc_imgtool::{CreateOptions, create, read_bounded};
use std::alloc::Global;
use std::io;
use std::io::Read;
use std::process::Abort;

/// The most bytes of an input.
const MOST: usize = 1 << 24;

/// The magic of a trailer.
const MAGIC: &str = "77c295f360d2ef7f3552500f2cb67980";

/// The digest of the image of 2^24 zero bytes.
const LARGEST_PAYLOAD: &str = "1d5bee2d33ee417fd3769e2aceaa15f768ea28cc312b39afc3f49fb98b2d8b45";

/// The line for the image of 2^24 bytes with a payload of zeros.
const LARGEST_LINE: &str =
    "good 1.2.3+4 16777216 2a34df55f482e58167a8b8ca8593f12ffd4a81ca0d2d4880bba08ed3f6d91a89\n";

/// The report of that image.
const LARGEST_REPORT: &str = "\
magic 0x96f3b83d
load 0x00000000
header-size 32
protected-size 0
image-size 16777144
flags 0x00000000
version 1.2.3+4
padding 0x00000000
plain 0x0010 32 2a34df55f482e58167a8b8ca8593f12ffd4a81ca0d2d4880bba08ed3f6d91a89
total 16777216
rest 0
digest good
";

/// A reader that makes so many zero bytes.
#[derive(Drop)]
struct Zeros {
    left: usize,
}

impl Read for Zeros {
    fn read(&mut self, buffer: &mut [u8]) -> io::Result<usize> {
        let count = self.left.min(buffer.len());
        buffer[..count].fill(0);
        self.left -= count;
        Ok(count)
    }
}

/// The image of so many zero bytes.
fn created(rt: &impl Abort, alloc: Global, left: usize, options: &CreateOptions) -> Vec<u8> {
    assert!(rt; options.header_size >= 32);
    let mut out = Vec::with_capacity(alloc, 2 * MOST).expect(rt, "memory");
    create(alloc, options, &mut Zeros { left }, &mut out).expect(rt, "an image");
    out
}

/// Some bytes are so many, and end with those that these digits say.
fn end_with(rt: &impl Abort, alloc: Global, bytes: &[u8], length: usize, digits: &str) {
    let end = hex::decode(alloc, digits).expect(rt, "digits");
    let shown = (bytes.len(), bytes.ends_with(end.as_slice()));
    same(rt, &shown, &(length, true));
}

/// The options of the largest slot.
const PADDED: CreateOptions = CreateOptions {
    pad: true,
    slot_size: Some(1 << 25),
    ..WORKED
};

#[test]
fn the_largest_payload_is_taken_and_the_largest_slot_filled(rt: HostRuntime) {
    let image = created(&rt, rt.alloc(), MOST, &WORKED);
    end_with(
        &rt,
        rt.alloc(),
        image.as_slice(),
        MOST + 72,
        LARGEST_PAYLOAD,
    );
    let slot = created(&rt, rt.alloc(), MOST, &PADDED);
    end_with(&rt, rt.alloc(), slot.as_slice(), 2 * MOST, MAGIC);
    same(&rt, &slot.as_slice().starts_with(image.as_slice()), &true);
}

/// Inputs of zeros, and why they are refused.
static ZEROS: [(Engine, usize, &str); 3] = [
    (Engine::Create, MOST + 1, "E23 InputTooLong\n"),
    (Engine::Verify, MOST, "E2 BadMagic\n"),
    (Engine::Verify, MOST + 1, "E23 InputTooLong\n"),
];

/// Zeros are read to the end or the limit.
#[test]
fn zeros_are_refused(rt: HostRuntime) {
    for (engine, left, wanted) in &ZEROS {
        let mut input = Zeros { left: *left };
        is_shown(&rt, rt.alloc(), *engine, &mut input, *wanted);
        same(&rt, &input.left, &0);
    }
}

/// What is reported of the largest image, and of so many bytes after it.
static LARGEST: [(Engine, usize, &str); 4] = [
    (Engine::Verify, 0, LARGEST_LINE),
    (Engine::Dumpinfo, 0, LARGEST_REPORT),
    (Engine::Verify, 1, "E23 InputTooLong\n"),
    (Engine::Dumpinfo, 1, "E23 InputTooLong\n"),
];

#[test]
fn the_largest_image_is_judged_and_a_larger_one_refused(rt: HostRuntime) {
    let mut image = created(&rt, rt.alloc(), MOST - 72, &WORKED);
    for (engine, beyond, wanted) in &LARGEST {
        image.resize(MOST + *beyond, 0).expect(&rt, "memory");
        is_shown(&rt, rt.alloc(), *engine, &mut image.as_slice(), *wanted);
    }
}

/// The longest line that there can be, of the largest image with the largest version.
const LONGEST_LINE: &str =
    "good 255.255.65535+4294967295 16777216 a2752af8abfe2ced31677702985769392525b1a92aae0d4859ef0854db49ac85\n";

/// The options of that image.
const GREATEST: CreateOptions = CreateOptions {
    version: Version {
        major: u8::MAX,
        minor: u8::MAX,
        revision: u16::MAX,
        build: u32::MAX,
    },
    ..WORKED
};

#[test]
fn the_longest_line_is_written(rt: HostRuntime) {
    let image = created(&rt, rt.alloc(), MOST - 72, &GREATEST);
    is_shown(
        &rt,
        rt.alloc(),
        Engine::Verify,
        &mut image.as_slice(),
        LONGEST_LINE,
    )
}

#[test]
fn more_than_an_engine_takes_is_read(rt: HostRuntime) {
    let mut input = Zeros { left: 2 * MOST };
    let whole = read_bounded(rt.alloc(), &mut input, 1 << 25).expect(&rt, "an input");
    same(&rt, &whole.len(), &(2 * MOST));
}

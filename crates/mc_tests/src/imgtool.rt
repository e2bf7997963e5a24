//! The engines of the image tool: what they take, read and refuse. The worked images are made and read by the program's sessions.
mod faults;
mod sizes;

use crate::common::same;
use crate::image::with_an_entry;
use mc_fixtures::EMPTY_IMAGE;
use mc_image::Version;
use mc_imgtool::{CreateOptions, ToolError, create, dumpinfo, read_bounded, verify};
use std::alloc::Global;
use std::io::{Read, Write};
use std::process::Abort;

/// The options of the worked images: write units of 8 bytes and four sectors.
const WORKED: CreateOptions = CreateOptions {
    version: Version {
        major: 1,
        minor: 2,
        revision: 3,
        build: 4,
    },
    header_size: 32,
    pad_header: true,
    slot_size: None,
    align: 8,
    max_sectors: 4,
    pad: false,
    confirm: false,
    security_counter: None,
};

#[derive(Clone, Copy)]
enum Engine {
    Create,
    Verify,
    Dumpinfo,
}

impl Engine {
    /// What an engine returns. The test ends where an allocation failed (`scripts/test/refuse-allocations-of-tests`).
    fn run<R: Read, W: Write>(
        self,
        rt: &impl Abort,
        alloc: Global,
        input: &mut R,
        output: &mut W,
    ) -> Result<(), ToolError> {
        let shown = match self {
            Engine::Create => create(alloc, &WORKED, input, output),
            Engine::Verify => verify(input, output),
            Engine::Dumpinfo => dumpinfo(alloc, input, output),
        };
        assert!(rt; shown != Err(ToolError::Memory), "error: Memory");
        shown
    }

    /// What it writes of an input, and after it why it refuses, where it does. No write wants memory.
    fn shown<R: Read>(self, rt: &impl Abort, alloc: Global, input: &mut R) -> Vec<u8> {
        let mut out = Vec::with_capacity(alloc, 1024).expect(rt, "memory");
        if let Err(error) = self.run(rt, alloc, input, &mut out) {
            let refusal = format!(in alloc; "{error}\n").expect(rt, "memory");
            out.extend_from_slice(refusal.as_str().as_bytes())
                .expect(rt, "memory");
        }
        out
    }
}

/// An engine reports this of an input.
fn is_shown<R: Read>(rt: &impl Abort, alloc: Global, engine: Engine, input: &mut R, wanted: &str) {
    let shown = engine.shown(rt, alloc, input);
    same(
        rt,
        &str::from_utf8(shown.as_slice()).expect(rt, "a text"),
        &wanted,
    );
}

#[test]
fn a_byte_beyond_the_limit_is_read(rt: HostRuntime) {
    let bytes = [7u8; 5000];
    let mut rest = bytes.as_slice();
    let refusal = read_bounded(rt.alloc(), &mut rest, 4000).err();
    same(
        &rt,
        &(refusal, rest.len()),
        &(Some(ToolError::InputTooLong), 999),
    );
}

/// The line for the image of no payload.
const EMPTY_LINE: &str =
    "good 1.2.3+4 72 3ce413fa4796e431acaae651e667b4013afceda157d645e92ff946a5465b4b18\n";

/// The report of the image of a payload with an entry of no bytes after the digest.
const ENTRY_REPORT: &str = "\
magic 0x96f3b83d
load 0x00000000
header-size 32
protected-size 0
image-size 8
flags 0x00000000
version 1.2.3+4
padding 0x00000000
plain 0x0010 32 e075fa34895d34e01c03690deb09704ffa500ee946dcdb420ade67b58388aad4
plain 0x0099 0
total 84
rest 0
digest good
";

#[test]
fn no_payload_and_an_empty_entry_are_shown(rt: HostRuntime) {
    let mut empty = EMPTY_IMAGE.as_slice();
    is_shown(&rt, rt.alloc(), Engine::Verify, &mut empty, EMPTY_LINE);
    let image = with_an_entry();
    is_shown(
        &rt,
        rt.alloc(),
        Engine::Dumpinfo,
        &mut image.as_slice(),
        ENTRY_REPORT,
    )
}

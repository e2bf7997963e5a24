//! `create`: the images that it makes, and what it refuses; and command lines over real files.
use super::support::{Table, all_play, same_at, shown_of};
use mc_command::KnownFiles;
use mc_fixtures::{GOOD_LINE, PAYLOAD, PLAIN_IMAGE};
use std::alloc::Global;
use std::os::unix::fs::symlink;
use std::process::Abort;
use std::{env, fs, process};

/// Looks what a command line prints over the real files, with an image as standard input.
fn shows<H: Abort + KnownFiles>(rt: &H, alloc: Global, line: &str, want: &str) {
    let text = shown_of(rt, alloc, line, &PLAIN_IMAGE);
    same_at(rt, &line, &text.as_str(), &want)
}

/// Looks what a file holds.
fn holds<H: Abort + KnownFiles + Alloc>(rt: &H, path: &str, want: &[u8]) {
    let bytes = fs::read(rt, path).expect(rt, "a file");
    same_at(rt, &path, &bytes.as_slice(), &want)
}

/// Removes a file.
fn remove<H: Abort + KnownFiles>(rt: &H, path: &str) {
    fs::remove_file(rt, path).expect(rt, "a file")
}

/// Looks what `create` prints of these files.
fn creates<H: Abort + KnownFiles>(rt: &H, alloc: Global, infile: &str, outfile: &str, want: &str) {
    let line = format!(in alloc;
        "create --version 1.2.3+4 --header-size 32 --pad-header {infile} {outfile}"
    ).expect(rt, "memory");
    shows(rt, alloc, line.as_str(), want)
}

/// Looks what `verify` tells of a path.
fn verifies<H: Abort + KnownFiles>(rt: &H, alloc: Global, path: &str, want: &str) {
    let line = format!(in alloc; "verify {path}").expect(rt, "memory");
    shows(rt, alloc, line.as_str(), want)
}

/// Makes an image of the payload, verifies and removes it.
fn makes<H: Abort + KnownFiles + Alloc>(rt: &H, alloc: Global, payload: &str, image: &str) {
    creates(rt, alloc, payload, image, "");
    verifies(rt, alloc, image, GOOD_LINE);
    holds(rt, image, &PLAIN_IMAGE);
    remove(rt, image)
}

/// Refuses a payload that is to be its own image by this path, and leaves it as it is.
fn keeps<H: Abort + KnownFiles + Alloc>(
    rt: &H,
    alloc: Global,
    payload: &str,
    infile: &str,
    outfile: &str,
) {
    creates(
        rt,
        alloc,
        infile,
        outfile,
        "! mcsim: E75 SameFile\nexit 2\n",
    );
    holds(rt, payload, &PAYLOAD)
}

/// Makes an image of a payload, and refuses the payload that is to be its own image, by the path of a link, and by a detour.
fn makes_and_keeps<H: Abort + KnownFiles + Alloc>(
    rt: &H,
    alloc: Global,
    payload: &str,
    link: &str,
    detour: &str,
) {
    fs::write(rt, payload, PAYLOAD.as_slice()).expect(rt, "a file");
    makes(rt, alloc, payload, link);
    symlink(rt, payload, link).expect(rt, "a link");
    keeps(rt, alloc, payload, payload, link);
    keeps(rt, alloc, payload, payload, detour);
    keeps(rt, alloc, payload, link, payload);
    keeps(rt, alloc, payload, detour, payload);
    keeps(rt, alloc, payload, payload, payload);
    remove(rt, link);
    remove(rt, payload)
}

/// A path of this test alone in a folder, with some words before its last part.
fn path_in(
    rt: &impl Abort,
    alloc: Global,
    folder: &str,
    before: &str,
    id: u32,
    name: &str,
) -> String {
    format!(in alloc; "{folder}/{before}mcsim-{id}-{name}").expect(rt, "memory")
}

/// A file that is to be its own image stays as it is, by whatever path it is named.
#[test]
fn makes_an_image_and_keeps_its_payload(rt: HostRuntime) {
    let folder = env::temp_dir(&rt).expect(&rt, "a folder");
    let id = process::id(rt.process());
    let payload = path_in(&rt, rt.alloc(), folder.as_str(), "", id, "payload");
    let link = path_in(&rt, rt.alloc(), folder.as_str(), "", id, "link");
    let detour = path_in(&rt, rt.alloc(), folder.as_str(), "./", id, "payload");
    makes_and_keeps(
        &rt,
        rt.alloc(),
        payload.as_str(),
        link.as_str(),
        detour.as_str(),
    )
}

#[test]
fn refuses_files_that_cannot_be_read(rt: HostRuntime) {
    let folder = env::temp_dir(&rt).expect(&rt, "a folder");
    verifies(&rt, rt.alloc(), "", "! mcsim: E71 Open\nexit 3\n");
    verifies(
        &rt,
        rt.alloc(),
        folder.as_str(),
        "! mcsim: E24 Read\nexit 3\n",
    )
}

/// Images of a header before its input, or in its place, by imgtool's short options too; the slots that have just room for
/// an image and its trailer, and the ends of the ranges; slots that are filled.
const IMAGES: &str = "\
$ create PADDING in out < payload
=> plain
$ create -v 1.2.3+4 --pad-header -H 0x20 in out < payload
=> plain
$ create -v 1.2.3+4 --pad-header -H 0x20 -s 0X7 -S 0xeC -M 4 in out < payload
=> counted
$ create PADDING --slot-size +224 --align 0x8 --max-sectors 4 in out < payload
=> plain
$ create --version 1.2.3+4 --header-size 32 in out < padded
=> plain
$ create PADDING in out
=> empty
$ create --version 1 --pad-header --header-size 32 in out < 8:0=0001020304050607
=> first
$ create PADDING --security-counter 7 in out < payload
=> counted
$ sign PADDING in out < payload
=> plain
$ create PADDING --align 8 --max-sectors 4 --slot-size 224 in out < payload
=> plain
$ create PADDING --slot-size 3200 in out < payload
=> plain
$ create PADDING --security-counter 7 --align 8 --max-sectors 4 --slot-size 236 in out < payload
=> counted
$ create PADDING --slot-size 16777216 in out < payload
=> plain
$ create PADDING --align 1 in out < payload
=> plain
$ create PADDING --align 2 in out < payload
=> plain
$ create PADDING --align 4 in out < payload
=> plain
$ create PADDING --max-sectors 1 in out < payload
=> plain
$ create PADDING --max-sectors 1024 in out < payload
=> plain
$ create PADDING --slot-size 768 --align 8 --max-sectors 4 --pad in out < payload
=> 768:0=plain,752=MAGIC
$ create PADDING --slot-size 768 --align 8 --max-sectors 4 --confirm in out < payload
=> 768:0=plain,744=01,752=MAGIC
$ create PADDING --slot-size 768 --align 8 --max-sectors 4 --pad --confirm in out < payload
=> 768:0=plain,744=01,752=MAGIC
$ create PADDING --slot-size 768 --align 8 --max-sectors 4 --confirm --security-counter 7 in out < payload
=> 768:0=counted,744=01,752=MAGIC
";

/// Slots that are too small, or of no length; then the version, which is checked before the files are opened, INFILE, which is
/// opened before OUTFILE, and an input that begins with 31 zeros, one fewer than a header has.
const REFUSED: &str = "\
$ create PADDING --align 8 --max-sectors 4 --slot-size 223 in out < payload
! mcsim: E21 SlotTooSmall; exit 1
$ create PADDING --slot-size 3199 in out < payload
! mcsim: E21 SlotTooSmall; exit 1
$ create PADDING --slot-size 1 in out < payload
! mcsim: E21 SlotTooSmall; exit 1
$ create PADDING --security-counter 7 --align 8 --max-sectors 4 --slot-size 235 in out < payload
! mcsim: E21 SlotTooSmall; exit 1
$ create PADDING --pad in out < payload
! mcsim: E22 NeedsSlotSize; exit 2
$ create PADDING --confirm in out < payload
! mcsim: E22 NeedsSlotSize; exit 2
$ create --version 01 --header-size 32 missing out
! mcsim: E15 Syntax; exit 2
$ create --version 1.2+4 --header-size 32 missing out
! mcsim: E15 Syntax; exit 2
$ create --version 256 --header-size 32 missing out
! mcsim: E16 Range; exit 2
$ create PADDING missing out
! mcsim: E71 Open; exit 3
$ create PADDING in missing
! mcsim: E71 Open; exit 3
$ create --version 1 --header-size 32 in out < 39:0=zeros,31=0102030405060708
! mcsim: E20 NotZeros; exit 1
$ create --version 1 --header-size 32 in out < 31:0=padded
! mcsim: E20 NotZeros; exit 1
";

static TABLES: [Table; 2] = [(IMAGES, &[], "-"), (REFUSED, &[], "-")];

#[test]
fn makes_or_refuses_images(rt: HostRuntime) {
    all_play(&rt, rt.alloc(), &TABLES)
}

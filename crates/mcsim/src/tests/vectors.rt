//! `vectors`: the distinct flashes that cuts leave. Tables and patch are those of a boot loader that shares no code with this repository,
//! stopped after each operation.
use super::support::{Table, all_play, broken_over, contents, same_at, shown_of, sum_of, text_of};
use mc_command::KnownFiles;
use mc_fixtures::named;
use sha2::{Digest, Sha256};
use std::alloc::Global;
use std::process::Abort;
use std::{env, fs, process};

/// The lines of a table, and its digest: of whole calls and of units, of a flash that a swap has left, of no cut; and what is refused.
const SESSIONS: &str = "\
$ vectors WORKED --kind test IMAGES --cuts all
lines 14 8c3f8c82f5adfa3179202ff06db9a1ae0d07de8c637c4b407da10829bd85119f
$ vectors WORKED --kind test IMAGES --cuts 1
lines 14 8c3f8c82f5adfa3179202ff06db9a1ae0d07de8c637c4b407da10829bd85119f
$ vectors WORKED --kind test IMAGES --cuts all --grain unit
lines 42 a87b55478f2b92d5d1e0c0bd2a0d84f1855e16650aad00e4a9a71a943add54e7
$ vectors WORKED --kind perm IMAGES --cuts 16
lines 15 d1e8b771bc8598038ad8d41c64b81d49c2f237d9b179398e62ef7a276de4bc99
$ vectors WORKED --kind none IMAGES --cuts all
lines 2 e9f6b1c7ec5c41fbf3fb8b1f939dcb5c02e676ffb37140f96ed06fa5c7ecbd60
$ boot WORKED --kind test IMAGES --out out
result boot; type test; ops 18; SWAPPED; next revert
=> 1792 bytes
$ vectors WORKED --flash in --cuts all --grain unit < out
lines 91 de8e93c9eed5395bb44359937afb8fc1433a700f1597e96eb2ad2b16732bd483
$ vectors WORKED --kind revert IMAGES --cuts 1 --grain unit --profile 2
lines 49 cf4cfa1f58c01f652b581fe78277a567aee796af770b3e9559bce81696ab2ec3
$ vectors WORKED --kind test IMAGES --cuts 17
! mcsim: --cuts takes a number from 0 to 16; exit 2
$ vectors WORKED --kind test IMAGES --cuts all --patches
! mcsim: an argument is missing or out of its range; exit 2
$ vectors WORKED --kind test IMAGES --cuts all --dir none
! mcsim: E71 Open; exit 3
";

static TABLES: [Table; 1] = [(SESSIONS, &[], "-")];

#[test]
fn lists_each_flash_once(rt: HostRuntime) {
    all_play(&rt, rt.alloc(), &TABLES)
}

/// The words of a folder, but for its path, those of the images, how many cuts, and what it has.
const FOLDER: &str =
    "vectors --sector 256 --unit 8 --max-sectors 4 --chunk 128 --primary 4 --secondary 3 --kind test";

/// How the flash after the first nine operations differs from the start's: a sector that was moved, and both trailers.
const PATCH: &str = "\
primary 1 primary 0
primary 3 ffffffffffffffffffffffffffffffffffffffffffffffffffffffffffffffffffffffffffffffffffffffffffffffffffffffffffffffffffffffffffffffffffffffffffffffffffffffffffffffffffffffffffff\
ffffffffffffffffffffffffffffffffffffffffffffffffffff01ffffffffffffffffffffffffffffffffffffffffffffffffffffffffffffffffffffffffffffffffffffffffffffffffffffffffffffffffffff\
ffffffffffffffffffffffffffffffffffffffffffffffffffffffffffffffffffffffffff50000000ffffffff02ffffffffffffffffffffffffffffffffffffffffffffff77c295f360d2ef7f3552500f2cb67980
secondary 2 blank
";

/// A path of this test alone in a folder.
fn path_in(rt: &impl Abort, alloc: Global, folder: &str, id: u32, name: &str) -> String {
    format!(in alloc; "{folder}/mcsim-{id}-{name}").expect(rt, "memory")
}

/// Writes an image that has a name.
fn write_named<H: Abort + KnownFiles>(rt: &H, path: &str, name: &str) {
    fs::write(rt, path, named(name).unwrap_or_default()).expect(rt, "a file")
}

/// Looks what a command line prints over the real files.
fn prints<H: Abort + KnownFiles>(rt: &H, alloc: Global, line: &str, want: &str) {
    let text = shown_of(rt, alloc, line, &[]);
    same_at(rt, &line, &text.as_str(), &want)
}

/// What a file of a folder holds.
fn held<H: Abort + KnownFiles + AllocGlobal>(
    rt: &H,
    alloc: Global,
    folder: &str,
    name: &str,
) -> Vec<u8> {
    let path = format!(in alloc; "{folder}/{name}").expect(rt, "memory");
    fs::read(rt, path.as_str()).expect(rt, "a file")
}

/// Looks what the start's flash is, and the patch after nine operations.
fn holds_patch<H: Abort + KnownFiles + AllocGlobal>(rt: &H, alloc: Global, folder: &str) {
    let start = contents(
        rt,
        alloc,
        "1792:0=first,1024=second,1776=77c295f360d2ef7f3552500f2cb67980",
    );
    let name = "start.bin";
    same_at(rt, &name, &held(rt, alloc, folder, name), &start);
    let name = "flash/f199133647f56ba34636a0976484e63d53ae9d6b27ef910e5e245ee2d3d753c6.patch";
    let patch = held(rt, alloc, folder, name);
    same_at(rt, &name, &patch.as_slice(), &PATCH.as_bytes())
}

/// Looks whether the flash of that digest is there.
fn holds_flash<H: Abort + KnownFiles + AllocGlobal>(
    rt: &H,
    alloc: Global,
    folder: &str,
    digest: &str,
) {
    let name = format!(in alloc; "flash/{digest}.bin").expect(rt, "memory");
    let flash = held(rt, alloc, folder, name.as_str());
    let mut sectors = Sha256::new();
    for sector in flash.chunks(256) {
        sectors.update(Sha256::digest(sector));
    }
    let found = hex::encode(alloc, sectors.finalize()).expect(rt, "memory");
    same_at(rt, &name.as_str(), &found.as_str(), &digest)
}

/// Looks whether the table is that of all cuts, and each flash that it names is there.
fn holds_flashes<H: Abort + KnownFiles + AllocGlobal>(rt: &H, alloc: Global, folder: &str) {
    let table = text_of(rt, held(rt, alloc, folder, "cases.tsv"));
    let sum = sum_of(rt, alloc, table.as_str());
    let want = "lines 14 8c3f8c82f5adfa3179202ff06db9a1ae0d07de8c637c4b407da10829bd85119f\n";
    same_at(rt, &folder, &sum.as_str(), &want);
    for line in table.lines().skip(1) {
        for digest in line.split('\t').filter(|field| field.len() == 64) {
            holds_flash(rt, alloc, folder, digest);
        }
    }
}

/// Looks how it ends where not all of how many flashes there are can be written.
fn breaks_off<H: Abort + KnownFiles>(rt: &H, alloc: Global, line: &str) {
    let (status, err, out) = broken_over(rt, alloc, rt, line, 8);
    let found = (status, err.as_str(), out.as_slice());
    let wanted = (3, "mcsim: E25 Write\n", b"flashes ".as_slice());
    same_at(rt, &line, &found, &wanted)
}

/// What is asked of a folder, and what is printed of it.
static ASKED: [(&str, &str); 3] = [
    ("--cuts all", "flashes 13\nall yes\n"),
    ("--cuts all --patches", "flashes 13\nall yes\n"),
    ("--cuts 0", "flashes 1\nall no\n"),
];

/// Writes a folder that is empty, and refuses to write it again.
fn writes_once<H: Abort + KnownFiles + AllocGlobal>(
    rt: &H,
    alloc: Global,
    images: &str,
    folder: &str,
    asked: &(&str, &str),
) {
    let (words, want) = asked;
    let line = format!(in alloc; "{FOLDER} {images} {words} --dir {folder}").expect(rt, "memory");
    fs::create_dir(rt, folder).expect(rt, "a folder");
    prints(rt, alloc, line.as_str(), want);
    if words.ends_with("patches") {
        holds_patch(rt, alloc, folder);
    }
    if words.ends_with("all") {
        holds_flashes(rt, alloc, folder);
    }
    prints(rt, alloc, line.as_str(), "! mcsim: E86 InUse\nexit 2\n");
    fs::remove_dir_all(rt, folder).expect(rt, "a folder");
    breaks_off(rt, alloc, line.as_str());
    fs::remove_dir_all(rt, folder).expect(rt, "a folder")
}

#[test]
fn writes_a_folder_once(rt: HostRuntime) {
    let temporary = env::temp_dir(&rt).expect(&rt, "a folder");
    let id = process::id(rt.process());
    let first = path_in(&rt, rt.alloc(), temporary.as_str(), id, "first");
    let second = path_in(&rt, rt.alloc(), temporary.as_str(), id, "second");
    let folder = path_in(&rt, rt.alloc(), temporary.as_str(), id, "cases");
    write_named(&rt, first.as_str(), "first");
    write_named(&rt, second.as_str(), "second");
    let images = format!(in rt.alloc();
        "--image-a {} --image-b {}",
        first.as_str(),
        second.as_str()
    )
    .expect(&rt, "memory");
    for asked in &ASKED {
        writes_once(&rt, rt.alloc(), images.as_str(), folder.as_str(), asked);
    }
    fs::remove_file(&rt, first.as_str()).expect(&rt, "a file");
    fs::remove_file(&rt, second.as_str()).expect(&rt, "a file")
}

//! Layouts from files, reasons of refusals, and what becomes of a file that is written.
use super::support::{Table, all_play, in_full, same_at, shown_of, shows};
use mc_command::KnownFiles;
use mc_fixtures::{PAYLOAD, PLAIN_IMAGE, named};
use std::alloc::Global;
use std::fs::{OpenFile, Permissions};
use std::os::unix::fs::PermissionsExt;
use std::process::Abort;
use std::rt::Files;
use std::{env, fs, process};

/// The worked layout as a file, and one with another option.
const LAYOUT_FILE: &[u8] =
    b"# worked\n--sector 256\n--unit=8 # bytes\n\n --max-sectors\t4\r\n--chunk 128\n--primary 4\n--secondary 3";

const OTHER_FILE: &[u8] = b"--sector 256\n--kind test\n";

/// Looks what is printed of a layout whose file is as long as one may be, and what of a longer one.
fn long_layouts(rt: &impl Abort, alloc: Global, line: &str, want: &str) {
    let mut file = LAYOUT_FILE.to_vec(alloc).expect(rt, "memory");
    for (length, want) in [
        (65_536, want),
        (65_537, "! mcsim: E23 InputTooLong\nexit 1\n"),
    ] {
        file.resize(length, b'\n').expect(rt, "memory");
        shows(rt, alloc, line, file.as_slice(), want);
    }
}

#[test]
fn reads_a_layout_from_a_file(rt: HostRuntime) {
    let type_line = "type --layout in --kind test --image-a first --image-b second";
    let trailers = in_full(
        &rt,
        rt.alloc(),
        "primary UNSET\nsecondary magic=good image-ok=unset copy-done=unset swap-info=0xff swap-size=4294967295\nresume no\ntable test\n",
    );
    shows(&rt, rt.alloc(), type_line, LAYOUT_FILE, trailers.as_str());
    let refused =
        "! mcsim: E88 LayoutFile\nmcsim: in, line 2 gives no number of a layout: --kind test\nexit 2\n";
    shows(
        &rt,
        rt.alloc(),
        "layout --verbose --layout=in",
        OTHER_FILE,
        refused,
    );
    let missing = "! mcsim: E71 Open\nmcsim: nofile: entity not found\nexit 3\n";
    shows(
        &rt,
        rt.alloc(),
        "--verbose layout --layout nofile",
        &[],
        missing,
    );
    long_layouts(&rt, rt.alloc(), type_line, trailers.as_str());
    let lost = "! mcsim: E75 SameFile\nexit 2\n";
    for line in [
        "boot --layout in --kind test --image-a first --image-b second --out in",
        "replay --layout in --kind test --image-a first --image-b second --schedule 0 --at-cut in",
        "life --layout=in --image first --out in script",
    ] {
        shows(&rt, rt.alloc(), line, LAYOUT_FILE, lost);
    }
    let path = "! mcsim: E71 Open\nexit 3\n";
    shows(&rt, rt.alloc(), "verify -- --layout=in", LAYOUT_FILE, path);
    let paths = "create --version 2 --header-size 32 -- --layout in";
    shows(&rt, rt.alloc(), paths, LAYOUT_FILE, path);
    let no_file = in_full(&rt, rt.alloc(), "layout WORKED --layout");
    let unfinished = "! error: a value is required...exit 2\n";
    shows(&rt, rt.alloc(), no_file.as_str(), &[], unfinished);
}

/// Refusals with their reasons, and notes on what is not refused.
const REASONS: &str = "\
$ layout --verbose --sector 256 --unit 8 --max-sectors 4 --chunk 128 --primary 5 --secondary 3
! mcsim: E33 Counts; mcsim: --primary is 5, --secondary 3: it must be 3 or 4; exit 2
$ layout --verbose --sector 4096 --unit 4 --max-sectors 128 --chunk 1024 --primary 483328 --secondary 479232
! mcsim: E33 Counts; mcsim: --primary counts sectors: 483328 bytes are 118 of 4096; exit 2
$ layout --verbose --sector 256 --unit 3 --max-sectors 4 --chunk 128 --primary 4 --secondary 3
! mcsim: E30 Unit; mcsim: --unit is 3: it must be 1, 2, 4 or 8; exit 2
$ --verbose layout --sector 200 --unit 8 --max-sectors 4 --chunk 128 --primary 4 --secondary 3
! mcsim: E31 Sector; mcsim: --sector is 200: it must be a power of two from 64 to 65536; exit 2
$ boot WORKED --kind test --image-a first --image-b nofile --verbose
! mcsim: E71 Open; mcsim: nofile: entity not found; exit 3
$ boot --sector 64 --unit 1 --max-sectors 1 --chunk 32 --primary 4 --secondary 3 --kind test --image-a first --image-b second --verbose
! mcsim: E50 DoesNotFit; mcsim: image A has 80 bytes... 64 fit; mcsim: image B has 80 bytes... 64 fit; exit 1
$ boot WORKED --kind test --image-a first --image-b in --verbose < 80:0=first,79=00
! mcsim: E12 WrongDigest in image B; mcsim: image B is in; exit 1
$ locate WORKED --flash in --known-a first --known-b zeros --verbose < 1792:0=first
! mcsim: E2 BadMagic in image B; mcsim: image B is zeros; exit 1
$ inspect WORKED --flash in --known-a first --verbose < 1792:0=first
! mcsim: E70 SourceOptions; mcsim: --known-a and --known-b go together; exit 2
$ boot WORKED --kind test --image-a first --verbose
! mcsim: E70 SourceOptions; mcsim: --image-b is missing: give --flash alone, or all of --kind, --image-a and --image-b; exit 2
$ create --verbose PADDING in out < 12:0=3a3031303230333034303530
! mcsim: note: INFILE looks like Intel HEX, and create takes a binary (objcopy -O binary); exit 0
=> 84 bytes
$ help verify
Check an image's structure...
$ explain e71
E71 Open, exit status 3
A file cannot be opened or created.
Check the path and your rights to it.
$ verify - < counted
good 1.2.3+4 92 4dcc5778bca9c831b86de779361dfbc68a9740b5fcc3297188767c3aa8cba2e4
$ boot WORKED --kind test --image-a first --image-b second --out first
! mcsim: E75 SameFile; exit 2
$ replay WORKED --kind test --image-a first --image-b second --schedule 9.4 --at-cut out --out out
! mcsim: E75 SameFile; exit 2
$ replay WORKED --flash in --schedule 0 --at-cut in
! mcsim: E75 SameFile; exit 2
";

const TABLES: [Table; 1] = [(REASONS, &[], "all")];

#[test]
fn gives_reasons_and_notes(rt: HostRuntime) {
    let unread = "! mcsim: E24 Read\nmcsim: /: Is a directory (os error 21)\nexit 3\n";
    prints(&rt, rt.alloc(), "verify --verbose /", unread);
    all_play(&rt, rt.alloc(), &TABLES)
}

/// Looks what a command line prints over the real files.
fn prints<H: Abort + KnownFiles>(rt: &H, alloc: Global, line: &str, want: &str) {
    let text = shown_of(rt, alloc, line, &PAYLOAD);
    same_at(rt, &line, &text.as_str(), &want)
}

/// Looks what a file holds.
fn holds<H: Abort + KnownFiles + Alloc>(rt: &H, path: &str, want: &[u8]) {
    let bytes = fs::read(rt, path).expect(rt, "a file");
    same_at(rt, &path, &bytes.as_slice(), &want)
}

/// Makes an image in a file that is there: it keeps what it had where that is refused, and is the image where it is not.
fn keeps_until_whole<H: Abort + KnownFiles + Alloc>(rt: &H, alloc: Global, path: &str) {
    fs::write(rt, path, PLAIN_IMAGE.as_slice()).expect(rt, "a file");
    let line = format!(in alloc; "create --keep --version 2 --header-size 32 - {path}");
    let line = line.expect(rt, "memory");
    prints(rt, alloc, line.as_str(), "! mcsim: E20 NotZeros\nexit 1\n");
    holds(rt, path, &PLAIN_IMAGE);
    let line = format!(in alloc; "create --keep --version 1.2.3+4 -H 32 --pad-header - {path}");
    let line = line.expect(rt, "memory");
    fs::write(rt, path, PAYLOAD.as_slice()).expect(rt, "a file");
    prints(rt, alloc, line.as_str(), "");
    holds(rt, path, &PLAIN_IMAGE);
    stands(rt, alloc, path, ".mcsim-new", false)
}

/// Looks whether a file whose name ends so is in the folder of this one, whose name it begins with.
fn stands<H: Abort + KnownFiles>(rt: &H, alloc: Global, path: &str, end: &str, wanted: bool) {
    let beside = format!(in alloc; "{path}{end}").expect(rt, "memory");
    let found = fs::exists(rt, beside.as_str()).unwrap_or(!wanted);
    same_at(rt, &(path, end), &found, &wanted)
}

/// The next run takes away what one has left that is over, and nothing else: no process has a number above 4194304, and 1 is never over.
fn takes_away_what_is_left<H: Abort + KnownFiles + Alloc>(rt: &H, alloc: Global, path: &str) {
    let ends = [
        ".mcsim-new4194305",
        ".mcsim-new1",
        ".new4194305",
        ".mcsim-new4194305.bin",
    ];
    for end in ends {
        let beside = format!(in alloc; "{path}{end}").expect(rt, "memory");
        fs::write(rt, beside.as_str(), "").expect(rt, "a file");
    }
    let line = format!(in alloc; "create --keep --version 1.2.3+4 -H 32 --pad-header - {path}");
    prints(rt, alloc, line.expect(rt, "memory").as_str(), "");
    for end in ends {
        stands(rt, alloc, path, end, end != ".mcsim-new4194305");
        let beside = format!(in alloc; "{path}{end}").expect(rt, "memory");
        let _ = fs::remove_file(rt, beside.as_str());
    }
}

/// Boots a flash in place, by its path or a link.
fn boots_in_place<H: Abort + KnownFiles + Alloc>(rt: &H, alloc: Global, path: &str, out: &str) {
    let image = named("first").unwrap_or_default();
    let mut bytes = Vec::new(alloc);
    bytes.extend_from_slice(image).expect(rt, "memory");
    bytes.resize(1792, 0xff).expect(rt, "memory");
    fs::write(rt, path, bytes.as_slice()).expect(rt, "a file");
    let line = format!(in alloc; "boot WORKED --flash {path} --out {out}").expect(rt, "memory");
    let line = in_full(rt, alloc, line.as_str());
    let want = in_full(
        rt,
        alloc,
        "result boot; type none; ops 0; primary FIRST; secondary none; next none; ",
    );
    prints(rt, alloc, line.as_str(), want.as_str());
    holds(rt, path, &bytes)
}

/// Looks whether a file has the rights of its owner and group alone.
fn has_rights<H: Abort + KnownFiles>(rt: &H, path: &str) {
    let file = fs::metadata(rt, path).expect(rt, "a file");
    same_at(rt, &path, &(file.permissions().mode() & 0o777), &0o640)
}

/// Boots a flash in place through a link, which stays one.
fn boots_through_a_link<H: Abort + KnownFiles + Alloc>(rt: &H, alloc: Global, path: &str) {
    let link = format!(in alloc; "{path}-link").expect(rt, "memory");
    rt.symlink(path, link.as_str()).expect(rt, "a link");
    boots_in_place(rt, alloc, path, link.as_str());
    let file = fs::symlink_metadata(rt, link.as_str()).expect(rt, "a link");
    same_at(rt, &path, &file.is_symlink(), &true);
    fs::remove_file(rt, link.as_str()).expect(rt, "a link")
}

/// A file of one byte more than is read of an image.
fn is_too_long<H: Abort + KnownFiles + Alloc>(rt: &H, alloc: Global, path: &str) {
    let file = fs::create(rt, path).expect(rt, "a file");
    file.set_len(16_777_217).expect(rt, "a file");
    let line = format!(in alloc;
        "boot WORKED --kind none --image-a {path} --image-b {path} --verbose"
    );
    let line = in_full(rt, alloc, line.expect(rt, "memory").as_str());
    let want = format!(in alloc;
        "! mcsim: E23 InputTooLong\nmcsim: {path} has more than 16777216 bytes\nexit 1\n"
    );
    prints(rt, alloc, line.as_str(), want.expect(rt, "memory").as_str())
}

/// What is written takes the place of a plain file when it is whole, and not before, and has that one's rights.
#[test]
fn writes_beside_and_renames(rt: HostRuntime) {
    let folder = env::temp_dir(&rt).expect(&rt, "a folder");
    let id = process::id(rt.process());
    let path = format!(in rt.alloc(); "{}/mcsim-{id}-outfile", folder.as_str());
    let path = path.expect(&rt, "memory");
    fs::write(&rt, path.as_str(), "").expect(&rt, "a file");
    rt.set_permissions(path.as_str(), Permissions::from_mode(0o640))
        .expect(&rt, "a file");
    keeps_until_whole(&rt, rt.alloc(), path.as_str());
    takes_away_what_is_left(&rt, rt.alloc(), path.as_str());
    boots_in_place(&rt, rt.alloc(), path.as_str(), path.as_str());
    has_rights(&rt, path.as_str());
    boots_through_a_link(&rt, rt.alloc(), path.as_str());
    is_too_long(&rt, rt.alloc(), path.as_str());
    fs::remove_file(&rt, path.as_str()).expect(&rt, "a file")
}

//! Each export called once, over the worked layout, with images that the library makes. The texts are those of a model that shares no
//! code with this repository.
use crate::{
    Lengths, Source, mcsim_census, mcsim_flash_at_cut, mcsim_flash_left, mcsim_outcome, mcsim_rows,
    mcsim_run, mcsim_sectors, mcsim_tears, mcsim_trace,
};
use std::alloc::Global;
use std::process::Abort;

/// A source of the worked layout: whole calls, the first profile, and two images of which the second is to be tried.
static WORKED: Source = Source {
    sector: 256,
    unit: 8,
    max_sectors: 4,
    chunk: 128,
    primary: 4,
    secondary: 3,
    grain: 0,
    profile: 1,
    kind: 1,
};

static PAYLOAD: [u8; 8] = [0, 1, 2, 3, 4, 5, 6, 7];

static MAGIC: [u8; 16] = [
    0x77, 0xc2, 0x95, 0xf3, 0x60, 0xd2, 0xef, 0x7f, 0x35, 0x52, 0x50, 0x0f, 0x2c, 0xb6, 0x79, 0x80,
];

/// A buffer with room for all that is wanted below.
fn room(rt: &impl Abort, alloc: Global) -> Vec<u8> {
    vec![in alloc; 0u8; 2048].expect(rt, "memory")
}

/// What a call told, and the bytes of its buffer that it counts.
fn gives(rt: &impl Abort, at: &str, found: (u32, &[u8], u64), want: (u32, &[u8])) {
    let (status, buffer, count) = found;
    let told = (status, buffer.get(..count as usize));
    assert_eq!(rt; told, (want.0, Some(want.1)), "at {at}");
}

/// A command line, and what is wanted of it: its status, what it prints, what it refuses.
type Session = (&'static str, u32, &'static str, &'static str);

static SESSIONS: [Session; 4] = [
    (
        "mcsim\0verify\0a",
        0,
        "good 1.0.0+0 80 e3103e985884e987aaeb3091f107d4ad2ae5ff4720f4c43459c3d0ff3a12650d\n",
        "",
    ),
    (
        "mcsim\0verify\0b",
        0,
        "good 2.0.0+0 80 a4f848b4db0bbed96a7c7fd25b79a0484fc03fbfc5a5efb662f200b2693923ee\n",
        "",
    ),
    ("mcsim\0verify", 1, "", "mcsim: E1 Truncated\n"),
    ("mcsim\0verify\0d", 3, "", "mcsim: E71 Open\n"),
];

/// Runs a command line over those files `a` and `b`, with the payload as `c` and on standard input, looks at what it tells, and
/// returns what it writes.
fn written(
    rt: &impl Abort,
    alloc: Global,
    a: &[u8],
    b: &[u8],
    session: &(&str, u32, &str, &str),
) -> Vec<u8> {
    let (words, status, out, err) = session;
    let (mut printed, mut refused) = (room(rt, alloc), room(rt, alloc));
    let mut file = room(rt, alloc);
    let mut lengths = Lengths {
        out: 0,
        err: 0,
        file: 0,
    };
    let told = mcsim_run(
        alloc,
        words.as_bytes(),
        a,
        b,
        &PAYLOAD,
        &PAYLOAD,
        printed.as_mut_slice(),
        refused.as_mut_slice(),
        file.as_mut_slice(),
        &mut lengths,
    );
    let Lengths {
        out: out_count,
        err: err_count,
        file: file_count,
    } = lengths;
    gives(
        rt,
        words,
        (told, printed.as_slice(), out_count),
        (*status, out.as_bytes()),
    );
    gives(
        rt,
        words,
        (told, refused.as_slice(), err_count),
        (*status, err.as_bytes()),
    );
    file.truncate(file_count as usize);
    file
}

/// The image of the payload, of a version.
fn image(rt: &impl Abort, alloc: Global, version: &str) -> Vec<u8> {
    let words = format!(in alloc;
        "mcsim\0create\0--version\0{version}\0--pad-header\0--header-size\032\0c\0out"
    ).expect(rt, "memory");
    written(rt, alloc, &[], &[], &(words.as_str(), 0, "", ""))
}

/// What lies at an offset, by its name.
type Part = (usize, &'static str);

/// The flash of the start, and the one that the whole boot from there leaves.
static START: [Part; 4] = [(0, "a"), (1024, "b"), (1776, "magic"), (1792, "")];

static LEFT: [Part; 11] = [
    (0, "b"),
    (256, "a"),
    (880, "set"),
    (912, "set"),
    (920, "set"),
    (976, "size"),
    (984, "test"),
    (992, "set"),
    (1008, "magic"),
    (1024, "a"),
    (1792, ""),
];

/// The bytes of a name.
fn named<'a>(name: &str, a: &'a [u8], b: &'a [u8]) -> &'a [u8] {
    match name {
        "a" => a,
        "b" => b,
        "magic" => &MAGIC,
        "set" => &[1],
        "test" => &[2],
        "size" => &[80, 0, 0, 0],
        _ => &[],
    }
}

/// Bytes `0xff` but for those parts, up to the last of them.
fn laid(rt: &impl Abort, alloc: Global, a: &[u8], b: &[u8], parts: &[Part]) -> Vec<u8> {
    let mut bytes = Vec::new(alloc);
    for (offset, name) in parts {
        bytes.resize(*offset, 0xff).expect(rt, "memory");
        let part = named(*name, a, b);
        bytes.extend_from_slice(part).expect(rt, "memory");
    }
    bytes
}

static TRACE: &str = "\
boot 0 test
8 write primary 880 entry 0 01ffffffffffffff
cut before 9 erase primary 0
boot 1 test
8 write primary 992 copy-done 01ffffffffffffff
";

static OUTCOME: &str = "\
result boot
type test
ops 9
primary 2.0.0+0 80 a4f848b4db0bbed96a7c7fd25b79a0484fc03fbfc5a5efb662f200b2693923ee
secondary 1.0.0+0 80 e3103e985884e987aaeb3091f107d4ad2ae5ff4720f4c43459c3d0ff3a12650d
next revert
";

static TEARS: &str = "\
operations 18
cases 51
4 magic=good,image-ok=set boot perm 19 2.0.0+0/80 1.0.0+0/80 none rest
4 magic=good,image-ok=bad boot none 0 1.0.0+0/80 2.0.0+0/80 none busy
17 copy-done=bad boot none 0 2.0.0+0/80 1.0.0+0/80 none rest
";

static CENSUS: &str = "\
schedules 222
boot 222
none 0
panic 0
fault 0
most-ops 18
first-not-boot none
";

/// Looks at the texts of a schedule, and a refusal.
fn gives_texts(rt: &impl Abort, alloc: Global, a: &[u8], b: &[u8]) {
    let (mut out, mut count) = (room(rt, alloc), 0);
    let whole = format!(in alloc; "{TRACE}{OUTCOME}").expect(rt, "memory");
    let told = mcsim_trace(
        alloc,
        &WORKED,
        a,
        b,
        &[9],
        8,
        8,
        out.as_mut_slice(),
        &mut count,
    );
    gives(
        rt,
        "trace",
        (told, out.as_slice(), count),
        (0, whole.as_bytes()),
    );
    let told = mcsim_outcome(alloc, &WORKED, a, b, &[9], out.as_mut_slice(), &mut count);
    gives(
        rt,
        "outcome",
        (told, out.as_slice(), count),
        (0, OUTCOME.as_bytes()),
    );
    let told = mcsim_outcome(alloc, &WORKED, a, b, &[18], out.as_mut_slice(), &mut count);
    gives(
        rt,
        "refusal",
        (told, out.as_slice(), count),
        (1, b"mcsim: E53 CannotOccur at 0\n"),
    );
    let (end, all) = (false, true);
    let told = mcsim_sectors(
        alloc,
        &WORKED,
        a,
        b,
        &[9, 4],
        end,
        all,
        out.as_mut_slice(),
        &mut count,
    );
    let sectors = b"primary b0 a0 - t\nsecondary b0 - -\n";
    gives(rt, "sectors", (told, out.as_slice(), count), (0, sectors))
}

/// Looks at what torn operations lead to.
fn gives_tears(rt: &impl Abort, alloc: Global, a: &[u8], b: &[u8]) {
    let (mut out, mut count) = (room(rt, alloc), 0);
    let (rough, all) = (true, false);
    let told = mcsim_tears(
        alloc,
        &WORKED,
        a,
        b,
        &[],
        rough,
        all,
        out.as_mut_slice(),
        &mut count,
    );
    gives(
        rt,
        "tears",
        (told, out.as_slice(), count),
        (0, TEARS.as_bytes()),
    )
}

/// Looks at what many schedules come to.
fn gives_counts(rt: &impl Abort, alloc: Global, a: &[u8], b: &[u8]) {
    let (mut out, mut count) = (room(rt, alloc), 0);
    let told = mcsim_census(alloc, &WORKED, a, b, 2, out.as_mut_slice(), &mut count);
    gives(
        rt,
        "census",
        (told, out.as_slice(), count),
        (0, CENSUS.as_bytes()),
    );
    let first = false;
    let told = mcsim_rows(
        alloc,
        &WORKED,
        a,
        b,
        1,
        first,
        &[16],
        5,
        out.as_mut_slice(),
        &mut count,
    );
    let rows = b"17 boot test 1 2.0.0+0/80 1.0.0+0/80 revert\nend\n";
    gives(rt, "rows", (told, out.as_slice(), count), (0, rows))
}

/// Looks at the flash at the last cut of a schedule, and at the one that is left.
fn gives_flashes(rt: &impl Abort, alloc: Global, a: &[u8], b: &[u8]) {
    let (mut out, mut count) = (room(rt, alloc), 0);
    let cut = laid(rt, alloc, a, b, &START);
    let told = mcsim_flash_at_cut(alloc, &WORKED, a, b, &[0], out.as_mut_slice(), &mut count);
    gives(
        rt,
        "flash at cut",
        (told, out.as_slice(), count),
        (0, cut.as_slice()),
    );
    let left = laid(rt, alloc, a, b, &LEFT);
    let told = mcsim_flash_left(alloc, &WORKED, a, b, &[0], out.as_mut_slice(), &mut count);
    gives(
        rt,
        "flash left",
        (told, out.as_slice(), count),
        (0, left.as_slice()),
    )
}

#[test]
fn gives_what_is_asked_for(rt: HostRuntime) {
    let a = image(&rt, rt.alloc(), "1");
    let b = image(&rt, rt.alloc(), "2");
    let (a, b) = (a.as_slice(), b.as_slice());
    for session in &SESSIONS {
        let file = written(&rt, rt.alloc(), a, b, session);
        assert!(rt; file.is_empty());
    }
    gives_texts(&rt, rt.alloc(), a, b);
    gives_tears(&rt, rt.alloc(), a, b);
    gives_counts(&rt, rt.alloc(), a, b);
    gives_flashes(&rt, rt.alloc(), a, b)
}

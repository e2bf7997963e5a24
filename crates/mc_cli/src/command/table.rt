//! The commands and the words that they take, as help shows them.
ghost use Rattle.std.specs.Prelude.{◌≡◌, map};
ghost use Rattle.mc_cli.specs.Program.{boot_commands, exploration_commands, flash_commands, image_commands, other_commands, words_of};
ghost use Rattle.mc_cli.specs.inner.Tables.{entry_of_word, line_of};

/// A command.
pub struct Subcommand {
    pub name: &'static str,
    pub aliases: &'static [&'static str],
    pub about: &'static str,
    /// What usage shows in place of each word.
    pub usage: Option<&'static str>,
    pub after_help: Option<&'static str>,
    pub groups: &'static [Group],
}

/// Words that help shows together.
#[derive(Clone, Copy)]
pub enum Group {
    Image,
    Creation,
    Slot,
    Layout,
    Times,
    Source,
    Tables,
    Rules,
    Output,
    Replay,
    Trace,
    Sectors,
    Picture,
    Torn,
    Tears,
    Vectors,
    Dump,
    Exploration,
    Rounds,
    Verdict,
    Census,
    Campaign,
    Delivery,
    Life,
    Refusal,
}

impl Group {
    /// What help shows above them.
    pub fn heading(self) -> Option<&'static str> {
        match self {
            Group::Image | Group::Creation | Group::Refusal => None,
            Group::Slot => Some("Slot"),
            Group::Layout => Some("Layout (all six, or --layout)"),
            Group::Times => Some("Times of the flash (both)"),
            Group::Source => Some("Source (--flash, or the other three)"),
            Group::Tables | Group::Rules => Some("Boot loader"),
            Group::Output => Some("Output"),
            Group::Replay => Some("Replay"),
            Group::Trace => Some("Trace"),
            Group::Sectors => Some("Sectors"),
            Group::Picture => Some("Frames"),
            Group::Torn => Some("Torn operations"),
            Group::Tears => Some("Tears"),
            Group::Vectors => Some("Vectors"),
            Group::Dump => Some("Dump"),
            Group::Exploration | Group::Campaign => Some("Exploration"),
            Group::Rounds => Some("Rounds"),
            Group::Verdict => Some("Verdict"),
            Group::Census => Some("Census"),
            Group::Delivery => Some("Device (--flash or --image)"),
            Group::Life => Some("Life"),
        }
    }

    /// The words, in the order of the help.
    #[tactic(auto, unfolding(crate::specs::Program::words_of))]
    pub fn words(self) -> &'static [Word]
        ensures { map entry_of_word result.now ≡ words_of self }
    {
        match self {
            Group::Image => &IMAGE,
            Group::Creation => &CREATION,
            Group::Slot => &SLOT,
            Group::Layout => &LAYOUT,
            Group::Times => &TIMES,
            Group::Source => &SOURCE,
            Group::Tables => &TABLES,
            Group::Rules => &RULES,
            Group::Output => &OUTPUT,
            Group::Replay => &REPLAY,
            Group::Trace => &TRACE,
            Group::Sectors => &SECTORS,
            Group::Picture => &PICTURE,
            Group::Torn => &TORN,
            Group::Tears => &TEARS,
            Group::Vectors => &VECTORS,
            Group::Dump => &DUMP,
            Group::Exploration => &EXPLORATION,
            Group::Rounds => &ROUNDS,
            Group::Verdict => &VERDICT,
            Group::Census => &CENSUS,
            Group::Campaign => &CAMPAIGN,
            Group::Delivery => &DELIVERY,
            Group::Life => &LIFE,
            Group::Refusal => &REFUSAL,
        }
    }
}

/// A word that a command takes.
pub struct Word {
    pub name: &'static str,
    pub short: Option<char>,
    pub takes: Takes,
    pub required: bool,
    pub default: Option<&'static str>,
    pub help: &'static str,
}

/// What a word takes.
pub enum Takes {
    /// No value: an option that is given or not.
    Nothing,
    /// No value: the word itself is the value, by its position.
    Itself,
    /// A value, by what help calls it.
    Value(&'static str),
    /// A value, by what help calls it, each time that it is given.
    Values(&'static str),
    /// One of some values, by what help calls it.
    OneOf(&'static str, &'static [&'static str]),
}

/// An option that is given or not.
const FLAG: Word = Word {
    name: "",
    short: None,
    takes: Takes::Nothing,
    required: false,
    default: None,
    help: "",
};

/// What is given by its position.
const PLACE: Word = Word {
    takes: Takes::Itself,
    ..FLAG
};

/// An option that takes a number. `NumberOption` has the names of these.
const NUMBER: Word = Word {
    takes: Takes::Value("N"),
    ..FLAG
};

/// An option that takes a path.
const FILE: Word = Word {
    takes: Takes::Value("FILE"),
    ..FLAG
};

/// An option that takes a schedule.
const SCHEDULE: Word = Word {
    takes: Takes::Value("S"),
    ..FLAG
};

/// The image that `verify` and `dumpinfo` read.
static IMAGE: [Word; 1] = [Word {
    name: "INFILE",
    help: "The image; standard input if left out",
    ..PLACE
}];

/// What gives an image.
static CREATION: [Word; 8] = [
    Word {
        name: "INFILE",
        required: true,
        help: "The payload; - for standard input",
        ..PLACE
    },
    Word {
        name: "OUTFILE",
        required: true,
        help: "The image; created, or emptied first; - for standard output",
        ..PLACE
    },
    Word {
        name: "version",
        short: Some('v'),
        takes: Takes::Value("V"),
        required: true,
        help: "Version, major[.minor[.revision[+build]]]",
        ..FLAG
    },
    Word {
        name: "header-size",
        short: Some('H'),
        required: true,
        help: "Header length in bytes, 32 to 65535 (CONFIG_ROM_START_OFFSET)",
        ..NUMBER
    },
    Word {
        name: "pad-header",
        help: "INFILE is the bare payload; otherwise it begins with header-size zeros",
        ..FLAG
    },
    Word {
        name: "keep",
        help: "Leave OUTFILE as it was until the image is whole",
        ..FLAG
    },
    Word {
        name: "security-counter",
        short: Some('s'),
        help: "Add a protected security-counter entry, 0 to 4294967295",
        ..NUMBER
    },
    Word {
        name: "sha",
        takes: Takes::OneOf("N", &["256", "auto"]),
        help: "256, the one hash here (auto is the same)",
        ..FLAG
    },
];

/// The slot that an image is made for.
static SLOT: [Word; 7] = [
    Word {
        name: "slot-size",
        short: Some('S'),
        help: "Slot length in bytes, 1 to 16777216; image and trailer must fit",
        ..NUMBER
    },
    Word {
        name: "align",
        default: Some("8"),
        help: "Write unit of the flash: 1, 2, 4 or 8",
        ..NUMBER
    },
    Word {
        name: "max-sectors",
        short: Some('M'),
        default: Some("128"),
        help: "Sectors the trailer has room for, 1 to 1024",
        ..NUMBER
    },
    Word {
        name: "pad",
        help: "Pad with 0xff, and end with the magic that requests a swap",
        ..FLAG
    },
    Word {
        name: "confirm",
        help: "As --pad, and mark the image confirmed (image-ok)",
        ..FLAG
    },
    Word {
        name: "erased-val",
        short: Some('R'),
        takes: Takes::OneOf("V", &["0xff", "0xFF", "255"]),
        help: "0xff, as erased bytes are in every flash here",
        ..FLAG
    },
    Word {
        name: "endian",
        short: Some('e'),
        takes: Takes::OneOf("E", &["little"]),
        help: "little, as in every image here",
        ..FLAG
    },
];

/// The six numbers of a layout, or a file that has them.
static LAYOUT: [Word; 7] = [
    Word {
        name: "sector",
        required: true,
        help: "Erase sector in bytes: a power of two, 64 to 65536 (erase-block-size)",
        ..NUMBER
    },
    Word {
        name: "unit",
        required: true,
        help: "Write unit in bytes: 1, 2, 4 or 8 (write-block-size)",
        ..NUMBER
    },
    Word {
        name: "max-sectors",
        required: true,
        help: "Image sectors the trailer has room for (CONFIG_BOOT_MAX_IMG_SECTORS)",
        ..NUMBER
    },
    Word {
        name: "chunk",
        required: true,
        help: "Bytes per write while a sector is copied (copy buffer)",
        ..NUMBER
    },
    Word {
        name: "primary",
        required: true,
        help: "Sectors of the primary slot: as many as the secondary, or one more",
        ..NUMBER
    },
    Word {
        name: "secondary",
        required: true,
        help: "Sectors of the secondary slot",
        ..NUMBER
    },
    // The words of the file stand beside it when clap sees them.
    Word {
        name: "layout",
        help: "The six from a file: these options, one a line, # before a comment",
        takes: Takes::Values("FILE"),
        ..FILE
    },
];

/// How long a flash takes.
static TIMES: [Word; 2] = [
    Word {
        name: "erase-us",
        help: "Microseconds to erase a sector: print how long swaps take",
        ..NUMBER
    },
    Word {
        name: "write-us",
        help: "Microseconds to write a unit",
        ..NUMBER
    },
];

/// A source: a flash, or two images and what they ask for.
static SOURCE: [Word; 4] = [
    Word {
        name: "flash",
        help: "A dump of both slots, primary first, with their trailers",
        ..FILE
    },
    Word {
        name: "kind",
        takes: Takes::OneOf("KIND", &["none", "test", "perm", "revert"]),
        help: "Pending swap: none, test, perm (for good) or revert (back to B)",
        ..FLAG
    },
    Word {
        name: "image-a",
        help: "The image in the primary slot (bytes after it are ignored)",
        ..FILE
    },
    Word {
        name: "image-b",
        help: "The image in the secondary slot",
        ..FILE
    },
];

/// Which swap tables are used.
const PROFILE: Word = Word {
    name: "profile",
    takes: Takes::OneOf("PROFILE", &["1", "2", "3"]),
    default: Some("1"),
    help: "Revert at a bad magic too (2), and resume more (3)",
    ..FLAG
};

/// The swap tables alone.
static TABLES: [Word; 1] = [PROFILE];

/// The rules of boots: what a power cut can fall between, and the swap tables.
static RULES: [Word; 2] = [
    Word {
        name: "grain",
        takes: Takes::OneOf("GRAIN", &["call", "unit"]),
        default: Some("call"),
        help: "Cuts between write calls (call) or write units (unit)",
        ..FLAG
    },
    PROFILE,
];

/// Where the flash after the last boot is written.
const OUT: Word = Word {
    name: "out",
    help: "Write the flash after the last boot (primary, then secondary)",
    ..FILE
};

static OUTPUT: [Word; 1] = [OUT];

/// What `replay` is given of cuts.
static REPLAY: [Word; 3] = [
    Word {
        name: "schedule",
        required: true,
        help: "Cuts joined by points, as 9.4; - for none",
        ..SCHEDULE
    },
    Word {
        name: "at-cut",
        help: "Write the flash as it was when the last cut fell",
        ..FILE
    },
    OUT,
];

/// A schedule, of no cut where none is given.
const SCHEDULE_IF_ANY: Word = Word {
    name: "schedule",
    default: Some("-"),
    help: "Cuts joined by points, as 9.4; - for none",
    ..SCHEDULE
};

/// The first operation of each boot that is shown.
const FROM: Word = Word {
    name: "from",
    help: "Leave out each boot's operations before that number, 0 to 4294967295",
    ..NUMBER
};

/// The last one.
const TO: Word = Word {
    name: "to",
    help: "Leave out each boot's operations after that number, 0 to 4294967295",
    ..NUMBER
};

/// What gives a trace.
static TRACE: [Word; 3] = [SCHEDULE_IF_ANY, FROM, TO];

/// What gives a picture of the sectors.
static SECTORS: [Word; 3] = [
    SCHEDULE_IF_ANY,
    Word {
        name: "end",
        help: "Show the flash after the last boot, not at the last cut",
        ..FLAG
    },
    Word {
        name: "words",
        takes: Takes::OneOf("W", &["plain", "all"]),
        default: Some("plain"),
        help: "all: name trailer sectors and unfinished copies too, in place of *",
        ..FLAG
    },
];

/// A dump of a device, and the images that may lie in it.
static DUMP: [Word; 3] = [
    Word {
        name: "flash",
        required: true,
        help: "A dump of both slots, primary first, with their trailers",
        ..FILE
    },
    Word {
        name: "known-a",
        help: "The image that was in the primary before the swap",
        ..FILE
    },
    Word {
        name: "known-b",
        help: "The image that was in the secondary before the swap",
        ..FILE
    },
];

/// As many rows as a page can have.
const ALL: Word = Word {
    name: "all",
    help: "All rows, as --limit 4294967295",
    ..FLAG
};

/// The most rows of a page.
const LIMIT: Word = Word {
    name: "limit",
    default: Some("1000"),
    help: "Rows on this page, 1 to 4294967295",
    ..NUMBER
};

/// Where an exploration goes on.
const CURSOR: Word = Word {
    name: "cursor",
    takes: Takes::Value("C"),
    help: "Go on after an earlier page: the text after its `next`",
    ..FLAG
};

/// The most cuts.
const CUTS: Word = Word {
    name: "cuts",
    takes: Takes::Value("K"),
    required: true,
    help: "Most power cuts in a schedule, 0 to 16",
    ..FLAG
};

/// What gives an exploration of schedules: the most cuts, a page, and which of the rows.
static EXPLORATION: [Word; 7] = [
    CUTS,
    LIMIT,
    ALL,
    CURSOR,
    Word {
        name: "after",
        help: "Go on after this schedule, as 9.4 (- is the first), in place of --cursor",
        ..SCHEDULE
    },
    Word {
        name: "from",
        help: "Begin with this schedule, in place of --cursor and --after",
        ..SCHEDULE
    },
    Word {
        name: "until",
        help: "Stop before this schedule",
        ..SCHEDULE
    },
];

/// Whether the image confirms itself between two rounds.
const CONFIRM: Word = Word {
    name: "confirm",
    help: "The image confirms itself between the rounds",
    ..FLAG
};

/// One round of boots, or two. With two, what tells cuts is a campaign.
static ROUNDS: [Word; 2] = [
    Word {
        name: "rounds",
        takes: Takes::OneOf("N", &["1", "2"]),
        default: Some("1"),
        help: "2: two rounds of boots, with cuts as 1.0,2.5 (a campaign)",
        ..FLAG
    },
    CONFIRM,
];

/// What a slot is to hold at the end.
const EXPECTED: Word = Word {
    takes: Takes::Value("V"),
    ..FLAG
};

/// What the primary is to hold at the end.
const EXPECT_PRIMARY: Word = Word {
    name: "expect-primary",
    help: "The primary's image at the end: a version, a digest, or none",
    ..EXPECTED
};

/// What the secondary is to hold.
const EXPECT_SECONDARY: Word = Word {
    name: "expect-secondary",
    help: "The secondary's image at the end: a version, a digest, or none",
    ..EXPECTED
};

/// What is asked of all rows that `explore` and `campaign` list, and that `survey` and `census` count.
static VERDICT: [Word; 4] = [
    Word {
        name: "all-boot",
        help: "Refuse, after the counts, if a result is not boot",
        ..FLAG
    },
    Word {
        name: "all-right",
        help: "Refuse, after the counts, if the images are not those of a swap",
        ..FLAG
    },
    EXPECT_PRIMARY,
    EXPECT_SECONDARY,
];

/// What gives a page that shows the boots of a schedule.
static PICTURE: [Word; 5] = [SCHEDULE_IF_ANY, FROM, TO, EXPECT_PRIMARY, EXPECT_SECONDARY];

/// How an erase fails, where torn operations are asked for.
const ERASE_IF_TORN: Word = Word {
    name: "erase",
    takes: Takes::OneOf("HOW", &["gentle", "rough"]),
    help: "With --torn, as tears --erase [default: gentle]",
    ..FLAG
};

/// Whether that page also shows torn operations.
static TORN: [Word; 2] = [
    Word {
        name: "torn",
        help: "Also show the cases of torn operations that end unlike a cut, as tears does",
        ..FLAG
    },
    ERASE_IF_TORN,
];

/// What gives what torn operations lead to.
static TEARS: [Word; 9] = [
    SCHEDULE_IF_ANY,
    Word {
        name: "erase",
        takes: Takes::OneOf("HOW", &["gentle", "rough"]),
        default: Some("gentle"),
        help: "gentle: a torn erase only sets bits; rough: it may leave any bytes in its sector",
        ..FLAG
    },
    Word {
        name: "all",
        help: "Print every case, even one that ends like a cut before or after it",
        ..FLAG
    },
    Word {
        name: "all-right",
        help: "Refuse, after the lines, if a case does not end right, or is busy",
        ..FLAG
    },
    EXPECT_PRIMARY,
    EXPECT_SECONDARY,
    Word {
        name: "at",
        help: "Write the flash of a case of that operation (with --reading, --out)",
        ..NUMBER
    },
    Word {
        name: "reading",
        takes: Takes::Value("R"),
        help: "What the next boot reads there, as magic=good,image-ok=bad",
        ..FLAG
    },
    Word {
        name: "out",
        help: "Write that flash (primary, then secondary)",
        ..FILE
    },
];

/// Which flashes are written, and where.
static VECTORS: [Word; 5] = [
    Word {
        name: "cuts",
        takes: Takes::Value("K"),
        required: true,
        help: "Most power cuts in a schedule, 0 to 16, or all for any number",
        ..FLAG
    },
    Word {
        name: "torn",
        help: "Also lose power within operations, as tears does",
        ..FLAG
    },
    ERASE_IF_TORN,
    Word {
        name: "dir",
        takes: Takes::Value("DIR"),
        help: "Write the table and the flashes into this folder, which is new or empty",
        ..FLAG
    },
    Word {
        name: "patches",
        help: "Write each flash as its differences from the start's",
        ..FLAG
    },
];

/// What gives a census.
static CENSUS: [Word; 1] = [CUTS];

/// What gives an exploration of campaigns.
static CAMPAIGN: [Word; 8] = [
    Word {
        name: "cuts",
        takes: Takes::Value("K"),
        required: true,
        help: "Most power cuts in both rounds, 0 to 16",
        ..FLAG
    },
    LIMIT,
    ALL,
    CURSOR,
    Word {
        name: "after",
        help: "Go on after this campaign, as 1.9,2.4 (- is the first), in place of --cursor",
        ..SCHEDULE
    },
    Word {
        name: "from",
        help: "Begin with this campaign, in place of --cursor and --after",
        ..SCHEDULE
    },
    Word {
        name: "until",
        help: "Stop before this campaign",
        ..SCHEDULE
    },
    CONFIRM,
];

/// What a device is delivered with.
static DELIVERY: [Word; 2] = [
    Word {
        name: "flash",
        help: "A dump of both slots, primary first, with their trailers",
        ..FILE
    },
    Word {
        name: "image",
        help: "The image in the primary slot; all else is blank",
        ..FILE
    },
];

/// What happens to it.
static LIFE: [Word; 3] = [
    Word {
        name: "SCRIPT",
        help: "The events, a line each; standard input if left out, or -",
        ..PLACE
    },
    Word {
        name: "wear",
        help: "Print at the end how often sectors were erased",
        ..FLAG
    },
    Word {
        name: "out",
        help: "Write the flash at the end (primary, then secondary)",
        ..FILE
    },
];

/// What `explain` is given.
static REFUSAL: [Word; 1] = [Word {
    name: "NUMBER",
    help: "The refusal's number, as 33 or E33, or its name; without it all are listed",
    ..PLACE
}];

const AFTER_CREATE: &str = "\
INFILE and OUTFILE must be two files: OUTFILE is emptied before INFILE is read, and stays empty
after a refusal; with --keep it is as it was. The trailer takes 3 * max-sectors * align + 48 bytes.
Example:
  mcsim create --version 1.2.3+4 --header-size 0x200 --pad-header --slot-size 483328 --align 4 \\
    app.bin app.img";

const AFTER_LAYOUT: &str = "\
Prints the sizes of a trailer and of the largest image, header and TLV area included; the first byte
of the first and last status entry and of each field, named as in trace; for cuts between write calls
and between write units, the operations of a test swap of the largest images, and a bound for any
boot; and how often that swap erases one sector at most, of an image's and of the trailer's:
  image-bytes 512
  primary 984 swap-info
  call swap-ops 30
  primary erases 2
With the times of the flash, also how many microseconds that swap takes, and the revert of such
images: no boot takes longer.";

const AFTER_TRACE: &str = "\
Each boot begins with a line `boot` with its number, counted from 0, and its type. Each operation that
happens has a line, with the number that a cut counts:
  0 erase primary 3
  1 write primary 984 swap-info 02ffffffffffffff
  6 copy primary 0 to primary 256 length 128
`cut before` marks the operation before which power fails, ` refused` one that meets bytes that are not
erased. Six lines with the outcome of the last boot come at the end. --from and --to leave out
operations of each boot, and nothing else.";

const AFTER_SECTORS: &str = "\
A line for each slot, a word for each sector: `-` where it is blank, `aN` or `bN` where it holds what
sector N of the primary or of the secondary held at the start, `*` where it holds something else. Of
several such it names the same sector, else one from which a swap copies there, else the first:
  primary a0 - * *
  secondary b0 - -
With --words all, `t` replaces `*` where that sector is the trailer's, and `aN~` or `bN~` where it
begins as sector N did and is blank from there on: an unfinished copy.";

const AFTER_FRAMES: &str = "\
First what the lines are of: version, layout, rules, the images that are named (of a flash its digest, as
in a cursor), what is expected of the slots, and the schedule. Then for each boot its number, type and
operations, and a line for each operation up to the cut, with tabs between the fields: boot, number, `cut`
where power fails before it, the operation, the sector that it changes, the words of both slots before it,
the outcome after a cut there, and whether that is `right`, `wrong` (it boots) or `no-boot`. At the end the
outcome of the last boot, and which of these it is. The words are those of `sectors --words all`; sectors
that continue one another are one: a2..a9, -x3. Right is a boot with both images where they belong; from a
flash, with the expected ones, or any.
Example:
  mcsim frames [LAYOUT] [SOURCE] --schedule 9.4 | grep cut";

const AFTER_PICTURE: &str = "\
Prints one HTML file with no script, for any browser: how all schedules of at most 16 cuts end and how
many of them end right; and then what `frames` prints, a row for each operation. At most 20,000 operations
are drawn: of longer boots --from and --to say which. With --torn there are lines below an operation if
power that fails within it can lead to another end than a cut: those that `tears` prints of it.
Example:
  mcsim picture [LAYOUT] [SOURCE] --schedule 9.4 > swap.html";

const AFTER_TEARS: &str = "\
What if power is lost within an operation? Prints how many operations the boot after the schedule
has, and how many cases; then a line for each case that ends unlike a cut before or after its
operation:
  5 magic=good,image-ok=bad boot none 0 1.0.0+0/80 2.0.0+0/80 none busy
Its fields are the number of the operation; what the next boot reads where that may have changed
something; how that boot ends, as in a row of explore; and whether the flash that it leaves says that
a swap is under way (busy). If no boot goes on with that swap, the next download, which erases the
secondary, may leave the device without an image. `data`: no field of a trailer changes; `entry`: a
step of the swap is noted. Whatever bytes the operation leaves, the next boot reads the trailers'
fields as one of these cases says, or as a cut leaves them.
--at, --reading and --out write the flash of a case, from which every command goes on.
Right is as for census, and not busy.
Example:
  mcsim tears [LAYOUT] [SOURCE] --erase rough --all-right";

const AFTER_VECTORS: &str = "\
Most schedules leave a flash that a shorter one leaves too. This lists each distinct flash once, with
the first of the shortest schedules that leave it, so that you can try a boot loader of your own on all
of them: scripts/conform does that. The fields of the table are separated by tabs:
  schedule flash result type ops primary secondary next left
flash and left are digests: of the flash at the last cut, and of the one that the boot from there leaves.
A digest is the SHA-256 of the SHA-256s of the sectors, the primary's first.
--dir writes cases.tsv, and flash/DIGEST.bin for each flash, both slots, the primary first; with --patches
start.bin, and flash/DIGEST.patch, a line for each sector that is not what it was in start.bin:
  SLOT SECTOR blank, SLOT SECTOR SLOT SECTOR (what that one held in start.bin), or SLOT SECTOR HEX
Then comes how many flashes there are, and whether no number of cuts leaves another (all yes).
With --torn power is also lost within operations: 5~magic=good,image-ok=bad.0 is a loss within operation
5 of the first boot, of which the next one reads that, and a cut before operation 0 of the next one. Each
case of tears is a loss of its own: more than one or two losses on a real board leave very many flashes.
Example:
  mcsim vectors [LAYOUT] [SOURCE] --cuts all --dir cases --patches";

const AFTER_INSPECT: &str = "\
Prints a verdict on the next boot, or what it needs; the trailers, and what they ask for, as type
does; a hint where the layout or the dump does not fit: a magic elsewhere, numbers by which the first
status entry that is written would be the first of all, slots in the wrong order, an image that begins
one sector up; the image of each slot, blank, or none and why; what lies in each sector, as sectors
--words all does, but with runs as a2..a116 and -x3: aN and bN are the sectors of the known images, if
both are given; the first operation of the boot from there, and its outcome; and how all schedules of
at most 16 cuts from there end, as census does.";

const AFTER_LOCATE: &str = "\
After which cuts of a swap of the two known images does the dump occur? Both are needed. Prints which
swap (test, perm, or revert, which undoes the test), the first schedule that leaves the dump, or else
the one whose flash differs from it in the fewest sectors, how many differ, and which; and whether no
number of cuts leaves a nearer one (all yes), or the search ended at 16 cuts:
  swap test
  schedule 9.4
  differs 0
  all yes";

const AFTER_EXPLORE: &str = "\
A row is: SCHEDULE RESULT TYPE OPS PRIMARY SECONDARY NEXT
  9.4 boot test 5 2.0.0+0/80 1.0.0+0/80 revert
Power fails after 9 operations of the first boot and after 4 of the second; the third boot runs
whole. It boots, finishing a test swap in 5 operations. Each slot is VERSION/SIZE; the boot after
it would revert. RESULT: boot, none (no valid image), panic (the trailer contradicts itself),
fault (a write met bytes that are not erased).
Rows come in this order: -, 0, 0.0, 0.1, .., 1, 1.0, 1.1, .. So --from 0 --until 1 gives those that
begin with 0, and --after 0 --until 1 those of them that have more cuts.
How many rows? --cuts 1 has OPS+1; --cuts 2 has 1 more than the sum of OPS over the rows of
--cuts 1.
With a verdict the rows are counted once more; see mcsim survey --help.";

const AFTER_SURVEY: &str = "\
Seven lines: how many rows the page of explore would have, how many of them with each RESULT (boot,
none, panic, fault), the most operations of a last boot, and next CURSOR or end, as on the page.
If something is expected of the slots, two more lines: how many rows boot with the expected images,
and the first that does not. --all-right expects of two images the named one in the primary
at the end and the other in the secondary. A survey of a part of the rows gives no verdict (E77).
With --rounds 2 the rows are those of campaign, each counted by how its second round ends, but with
the result of the first where that does not end in a boot. --all-right expects a test that does not
confirm itself to be reverted: each image where it was at the start.";

const AFTER_CENSUS: &str = "\
Seven lines: how many schedules of at most K power cuts can occur, how many of them have each RESULT
(boot, none, panic, fault), the most operations of a last boot, and the first schedule whose result is
not boot, or none. They are not listed, so even K of 16 takes some hundredths of a second and a few
megabytes, with the grain unit too; two rounds by units take about a second.
If something is expected of the slots, two more lines: how many schedules boot with the expected
images, and the first that does not. --all-right expects of two images the named one in the primary
at the end and the other in the secondary; that takes a second census.
Last come the shortest schedule whose result is not boot and, where something is expected, the shortest
that does not boot with the expected images: of those with the fewest cuts the first, or none.
With --rounds 2 campaigns are counted, as survey --rounds 2 counts them.
A number of 2^128 - 1 or more is printed as >=340282366920938463463374607431768211455.";

const AFTER_CAMPAIGN: &str = "\
A row is: CAMPAIGN RESULT TYPE OPS RESULT TYPE OPS PRIMARY SECONDARY NEXT
  2.4 boot test 18 boot perm 19 1.0.0+0/80 2.0.0+0/80 none
Two rounds, each power-on with its cuts and one whole boot: here the first round has no cut, and in the
second power fails after 4 operations of its first boot. Each RESULT TYPE OPS is of the boot that ends a
round; the slots and the next type are those at the end. With --confirm the image in the primary
confirms itself between the rounds.
Rows come in this order: -, 1.0, 1.0,1.0, .., 1.0,2.0, .., 1.1, .., 2.0, 2.0,2.0, ..
With a verdict the rows are counted once more; see mcsim survey --help, --rounds 2.";

const AFTER_LIFE: &str = "\
Events, one a line; blank lines, and what follows a #, are left out. At the start the power is off:
  boot [CUTS]              power-on, cut as a schedule says, and then left alone
  cut N                    power-on, cut after N operations
  tear N READING           power-on, lost within operation N, of which the next boot reads this: see tears --all
While an image runs:
  download FILE [BYTES]    it erases the secondary and writes the file, or stops after BYTES of it
  write FILE FROM COUNT    it writes COUNT bytes of the file, from FROM on, where they belong, and erases nothing
  request test|perm        it writes the secondary's magic, and for perm image-ok
  store FILE               the secondary's bytes are those of the file
  erase N                  it erases a sector of the secondary
  confirm                  it confirms itself
  mark BYTES               a confirmation is torn: it leaves up to 8 bytes, as 01ff, at image-ok
Numbers may be hexadecimal, as 0x200; a FILE with spaces in it goes in double quotes.
A line for each event: its number, its words, for a boot RESULT TYPE OPS, then the primary's image, trial
or settled, the secondary's image, and the type of the next boot:
  3 boot 9.4 boot test 5 2.0.0+0/80 trial 1.0.0+0/80 revert
--wear adds a line for each slot: wear SLOT MOST SECTOR ALL: how often its most erased sector was erased,
the first such sector, and how often all sectors were.";

/// The commands on images.
#[tactic(auto, unfolding(crate::specs::Program::image_commands))]
pub fn of_images() -> &'static [Subcommand]
    ensures { map line_of result.now ≡ image_commands }
{
    &IMAGES
}

/// The commands on a layout and the boots of a flash.
#[tactic(auto, unfolding(crate::specs::Program::boot_commands))]
pub fn of_boots() -> &'static [Subcommand]
    ensures { map line_of result.now ≡ boot_commands }
{
    &BOOTS
}

/// The commands on what lies in a flash.
#[tactic(auto, unfolding(crate::specs::Program::flash_commands))]
pub fn of_flashes() -> &'static [Subcommand]
    ensures { map line_of result.now ≡ flash_commands }
{
    &FLASHES
}

/// The commands on many schedules of power cuts.
#[tactic(auto, unfolding(crate::specs::Program::exploration_commands))]
pub fn of_explorations() -> &'static [Subcommand]
    ensures { map line_of result.now ≡ exploration_commands }
{
    &EXPLORATIONS
}

/// The commands on the life of a device and on refusals.
#[tactic(auto, unfolding(crate::specs::Program::other_commands))]
pub fn of_others() -> &'static [Subcommand]
    ensures { map line_of result.now ≡ other_commands }
{
    &OTHERS
}

static IMAGES: [Subcommand; 3] = [
    Subcommand {
        name: "create",
        aliases: &["sign"],
        about: "Make an image from a payload (imgtool sign, without a key)",
        usage: None,
        after_help: Some(AFTER_CREATE),
        groups: &[Group::Creation, Group::Slot],
    },
    Subcommand {
        name: "verify",
        aliases: &[],
        about: "Check an image's structure and SHA-256; print version, size and digest",
        usage: None,
        after_help: Some(
            "Bytes after the image are ignored. Signature entries are listed by dumpinfo, never checked.",
        ),
        groups: &[Group::Image],
    },
    Subcommand {
        name: "dumpinfo",
        aliases: &[],
        about: "Print an image's header fields and TLV entries, and whether its digest is good",
        usage: None,
        after_help: None,
        groups: &[Group::Image],
    },
];

static BOOTS: [Subcommand; 5] = [
    Subcommand {
        name: "layout",
        aliases: &[],
        about: "Print the sizes and places that follow from a layout, and how long its boots are",
        usage: Some("mcsim layout <LAYOUT> [OPTIONS]"),
        after_help: Some(AFTER_LAYOUT),
        groups: &[Group::Layout, Group::Times],
    },
    Subcommand {
        name: "type",
        aliases: &[],
        about: "Print both slots' trailers and the swap that they ask for",
        usage: Some("mcsim type <LAYOUT> <SOURCE> [OPTIONS]"),
        after_help: None,
        groups: &[Group::Layout, Group::Source, Group::Tables],
    },
    Subcommand {
        name: "boot",
        aliases: &[],
        about: "Run one boot without a power cut and print its outcome",
        usage: Some("mcsim boot <LAYOUT> <SOURCE> [OPTIONS]"),
        after_help: None,
        groups: &[Group::Layout, Group::Source, Group::Rules, Group::Output],
    },
    Subcommand {
        name: "replay",
        aliases: &[],
        about: "Run boots cut as a schedule says, then one whole boot; print its outcome",
        usage: Some("mcsim replay <LAYOUT> <SOURCE> --schedule <S> [OPTIONS]"),
        after_help: None,
        groups: &[
            Group::Layout,
            Group::Source,
            Group::Rules,
            Group::Replay,
            Group::Rounds,
        ],
    },
    Subcommand {
        name: "trace",
        aliases: &[],
        about: "Print the operations of boots cut as a schedule says, and of one whole boot",
        usage: Some("mcsim trace <LAYOUT> <SOURCE> [OPTIONS]"),
        after_help: Some(AFTER_TRACE),
        groups: &[
            Group::Layout,
            Group::Source,
            Group::Rules,
            Group::Trace,
            Group::Rounds,
        ],
    },
];

static FLASHES: [Subcommand; 7] = [
    Subcommand {
        name: "sectors",
        aliases: &[],
        about: "Print what lies in each sector when the last cut of a schedule falls",
        usage: Some("mcsim sectors <LAYOUT> <SOURCE> [OPTIONS]"),
        after_help: Some(AFTER_SECTORS),
        groups: &[
            Group::Layout,
            Group::Source,
            Group::Rules,
            Group::Sectors,
            Group::Rounds,
        ],
    },
    Subcommand {
        name: "frames",
        aliases: &[],
        about: "Print the boots of a schedule, with the sectors and the outcome at each operation",
        usage: Some("mcsim frames <LAYOUT> <SOURCE> [OPTIONS]"),
        after_help: Some(AFTER_FRAMES),
        groups: &[Group::Layout, Group::Source, Group::Rules, Group::Picture],
    },
    Subcommand {
        name: "picture",
        aliases: &[],
        about: "Draw the boots of a schedule, operation by operation, as a page for a browser",
        usage: Some("mcsim picture <LAYOUT> <SOURCE> [OPTIONS]"),
        after_help: Some(AFTER_PICTURE),
        groups: &[
            Group::Layout,
            Group::Source,
            Group::Rules,
            Group::Picture,
            Group::Torn,
        ],
    },
    Subcommand {
        name: "tears",
        aliases: &[],
        about: "Show case by case what a power failure within an operation leads to",
        usage: Some("mcsim tears <LAYOUT> <SOURCE> [OPTIONS]"),
        after_help: Some(AFTER_TEARS),
        groups: &[Group::Layout, Group::Source, Group::Rules, Group::Tears],
    },
    Subcommand {
        name: "vectors",
        aliases: &[],
        about: "Write each distinct flash that power cuts leave, to try a boot loader on",
        usage: Some("mcsim vectors <LAYOUT> <SOURCE> --cuts <K> [OPTIONS]"),
        after_help: Some(AFTER_VECTORS),
        groups: &[Group::Layout, Group::Source, Group::Rules, Group::Vectors],
    },
    Subcommand {
        name: "inspect",
        aliases: &[],
        about: "Explain a dump of a device: trailers, images, sectors, what boots from there do",
        usage: Some("mcsim inspect <LAYOUT> --flash <FILE> [OPTIONS]"),
        after_help: Some(AFTER_INSPECT),
        groups: &[Group::Layout, Group::Dump, Group::Rules, Group::Verdict],
    },
    Subcommand {
        name: "locate",
        aliases: &[],
        about: "Find after which power cuts of a swap a dump occurs, or which sectors differ",
        usage: Some("mcsim locate <LAYOUT> --flash <FILE> --known-a <FILE> --known-b <FILE>"),
        after_help: Some(AFTER_LOCATE),
        groups: &[Group::Layout, Group::Dump, Group::Rules],
    },
];

static EXPLORATIONS: [Subcommand; 4] = [
    Subcommand {
        name: "explore",
        aliases: &[],
        about: "List every schedule of at most K power cuts with its outcome",
        usage: Some("mcsim explore <LAYOUT> <SOURCE> --cuts <K> [OPTIONS]"),
        after_help: Some(AFTER_EXPLORE),
        groups: &[
            Group::Layout,
            Group::Source,
            Group::Rules,
            Group::Exploration,
            Group::Verdict,
        ],
    },
    Subcommand {
        name: "survey",
        aliases: &[],
        about: "Count the rows of an exploration by their results",
        usage: Some("mcsim survey <LAYOUT> <SOURCE> --cuts <K> [OPTIONS]"),
        after_help: Some(AFTER_SURVEY),
        groups: &[
            Group::Layout,
            Group::Source,
            Group::Rules,
            Group::Exploration,
            Group::Rounds,
            Group::Verdict,
        ],
    },
    Subcommand {
        name: "census",
        aliases: &[],
        about: "Count all schedules of at most K power cuts by their results, without listing them",
        usage: Some("mcsim census <LAYOUT> <SOURCE> --cuts <K> [OPTIONS]"),
        after_help: Some(AFTER_CENSUS),
        groups: &[
            Group::Layout,
            Group::Source,
            Group::Rules,
            Group::Census,
            Group::Rounds,
            Group::Verdict,
        ],
    },
    Subcommand {
        name: "campaign",
        aliases: &[],
        about: "List every campaign of at most K power cuts in two rounds, with both outcomes",
        usage: Some("mcsim campaign <LAYOUT> <SOURCE> --cuts <K> [OPTIONS]"),
        after_help: Some(AFTER_CAMPAIGN),
        groups: &[
            Group::Layout,
            Group::Source,
            Group::Rules,
            Group::Campaign,
            Group::Verdict,
        ],
    },
];

static OTHERS: [Subcommand; 2] = [
    Subcommand {
        name: "life",
        aliases: &[],
        about: "Replay a device's life event by event: downloads, requests, power cuts and boots",
        usage: Some("mcsim life <LAYOUT> <DEVICE> [SCRIPT] [OPTIONS]"),
        after_help: Some(AFTER_LIFE),
        groups: &[Group::Layout, Group::Delivery, Group::Rules, Group::Life],
    },
    Subcommand {
        name: "explain",
        aliases: &[],
        about: "Say what a refusal means and what to do about it",
        usage: None,
        after_help: None,
        groups: &[Group::Refusal],
    },
];

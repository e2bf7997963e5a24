//! What each refusal means.
ghost use Rattle.std.specs.Prelude.{◌≡◌, flat_map, map};
ghost use Rattle.mc_cli.specs.Explanations.{entry_of, of_commands, of_explorations, of_flashes, of_images, of_the_image_tool, all_refusals};

/// What a refusal means: when it comes, and what to do.
#[derive(Debug)]
pub struct Explanation {
    pub number: u8,
    pub name: &'static str,
    /// The exit status of a command that ends with it.
    pub status: u8,
    pub when: &'static str,
    pub remedy: &'static str,
}

/// All explanations, by their numbers; `docs/FORMAT.md` has the same tables.
/// Promised: each refusal is explained by its number, name and status (`entry_of`, `all_refusals`).
pub fn all_explanations() -> [&'static [Explanation]; 5]
    ensures { flat_map (λ part. map entry_of part.now) result ≡ all_refusals }
{
    [
        of_images(),
        of_the_image_tool(),
        of_flashes(),
        of_explorations(),
        of_commands(),
    ]
}

/// What is refused of images and versions.
fn of_images() -> &'static [Explanation]
    ensures { map entry_of result.now ≡ of_images }
{
    &IMAGES
}

/// What the image tool refuses.
fn of_the_image_tool() -> &'static [Explanation]
    ensures { map entry_of result.now ≡ of_the_image_tool }
{
    &IMAGE_TOOL
}

/// What is refused of layouts and flashes.
fn of_flashes() -> &'static [Explanation]
    ensures { map entry_of result.now ≡ of_flashes }
{
    &FLASHES
}

/// What is refused of starts, schedules, explorations and their cursors.
fn of_explorations() -> &'static [Explanation]
    ensures { map entry_of result.now ≡ of_explorations }
{
    &EXPLORATIONS
}

/// What is refused of a command line and its files.
fn of_commands() -> &'static [Explanation]
    ensures { map entry_of result.now ≡ of_commands }
{
    &COMMANDS
}

static IMAGES: [Explanation; 16] = [
    Explanation {
        number: 1,
        name: "Truncated",
        status: 1,
        when: "The bytes end within the header: there are fewer than 32.",
        remedy: "Check that the file is the whole image, and not empty.",
    },
    Explanation {
        number: 2,
        name: "BadMagic",
        status: 1,
        when: "The first four bytes are not the image magic 3d b8 f3 96.",
        remedy: "Give an image made by create or imgtool; a bare payload needs create first.",
    },
    Explanation {
        number: 3,
        name: "BadHeaderSize",
        status: 1,
        when: "The header size field is below 32.",
        remedy: "Make the image again; the file is damaged or of another format.",
    },
    Explanation {
        number: 4,
        name: "UnsupportedFlags",
        status: 1,
        when: "The header flags are not 0, as in an encrypted or RAM-loaded image.",
        remedy: "Such images are out of scope; make one without these features.",
    },
    Explanation {
        number: 5,
        name: "TruncatedBody",
        status: 1,
        when: "The bytes end within the header, the payload or the protected area.",
        remedy: "Check that the file was copied whole.",
    },
    Explanation {
        number: 6,
        name: "BadProtected",
        status: 1,
        when: "The protected TLV area has a wrong magic or length, or entries that do not fill it.",
        remedy: "Make the image again; the file is damaged.",
    },
    Explanation {
        number: 7,
        name: "BadTlvMagic",
        status: 1,
        when: "No TLV area (magic 07 69) follows the payload and the protected area.",
        remedy: "Check that the file was copied whole, and that it is an image and not a slot's middle.",
    },
    Explanation {
        number: 8,
        name: "BadTlvLength",
        status: 1,
        when: "The TLV area is cut short, or its entries do not fill it exactly.",
        remedy: "Check that the file was copied whole.",
    },
    Explanation {
        number: 9,
        name: "NoDigest",
        status: 1,
        when: "The TLV area has no SHA-256 entry (type 0x10).",
        remedy: "Make the image with SHA-256; other hashes are not supported.",
    },
    Explanation {
        number: 10,
        name: "ManyDigests",
        status: 1,
        when: "The TLV area has more than one SHA-256 entry.",
        remedy: "Make the image again with one digest.",
    },
    Explanation {
        number: 11,
        name: "DigestLength",
        status: 1,
        when: "The SHA-256 entry does not have 32 bytes.",
        remedy: "Make the image again; the file is damaged.",
    },
    Explanation {
        number: 12,
        name: "WrongDigest",
        status: 1,
        when: "The digest does not match header, payload and protected area.",
        remedy: "The file is damaged, or was changed after it was made; make it again.",
    },
    Explanation {
        number: 13,
        name: "TooLarge",
        status: 1,
        when: "A part of an image is too large for its length field.",
        remedy: "Only the library can meet this: give it a smaller part.",
    },
    Explanation {
        number: 14,
        name: "Memory",
        status: 3,
        when: "An allocation failed while an image was written.",
        remedy: "Free some memory and try again.",
    },
    Explanation {
        number: 15,
        name: "Syntax",
        status: 2,
        when: "The version is not major[.minor[.revision[+build]]] in decimal without leading zeros.",
        remedy: "Write it as 1.2.3+4.",
    },
    Explanation {
        number: 16,
        name: "Range",
        status: 2,
        when: "A part of the version is too large: 255, 255, 65535 and 4294967295 are the largest.",
        remedy: "Choose smaller numbers.",
    },
];

static IMAGE_TOOL: [Explanation; 7] = [
    Explanation {
        number: 20,
        name: "NotZeros",
        status: 1,
        when: "INFILE does not begin with header-size zero bytes, and --pad-header was not given.",
        remedy: "Give --pad-header for a bare payload, or check --header-size.",
    },
    Explanation {
        number: 21,
        name: "SlotTooSmall",
        status: 1,
        when: "Image and trailer do not fit the slot size.",
        remedy: "Check --slot-size, --max-sectors and --align, or make the payload smaller.",
    },
    Explanation {
        number: 22,
        name: "NeedsSlotSize",
        status: 2,
        when: "--pad and --confirm need the length of the slot.",
        remedy: "Give --slot-size.",
    },
    Explanation {
        number: 23,
        name: "InputTooLong",
        status: 1,
        when: "An input is longer than 16 MiB (32 MiB for a flash file).",
        remedy: "Check that it is the right file.",
    },
    Explanation {
        number: 24,
        name: "Read",
        status: 3,
        when: "A read failed.",
        remedy: "Check the file, the disk or the pipe that the input comes from.",
    },
    Explanation {
        number: 25,
        name: "Write",
        status: 3,
        when: "A write failed; what was written before is a prefix of the output.",
        remedy: "Check the disk or the pipe that the output goes to, and run the command again.",
    },
    Explanation {
        number: 26,
        name: "Memory",
        status: 3,
        when: "An allocation failed.",
        remedy: "Free some memory and try again.",
    },
];

static FLASHES: [Explanation; 7] = [
    Explanation {
        number: 30,
        name: "Unit",
        status: 2,
        when: "The write unit is not 1, 2, 4 or 8.",
        remedy: "Take the flash's write-block-size; larger units are out of scope.",
    },
    Explanation {
        number: 31,
        name: "Sector",
        status: 2,
        when: "The sector size is not a power of two from 64 to 65536.",
        remedy: "Take the erase-block-size; larger or mixed sectors are out of scope.",
    },
    Explanation {
        number: 32,
        name: "Chunk",
        status: 2,
        when: "The chunk is 0, not a multiple of the unit, or does not divide the sector.",
        remedy: "Take the largest such number up to the boot loader's copy buffer.",
    },
    Explanation {
        number: 33,
        name: "Counts",
        status: 2,
        when: "The counts do not go together.",
        remedy: "--max-sectors is 1 to 1024; --primary is --secondary or one more; a slot has at most 16 MiB.",
    },
    Explanation {
        number: 34,
        name: "NoRoom",
        status: 2,
        when: "The trailer leaves no sector for an image.",
        remedy: "Give the slots more sectors, or lower --max-sectors.",
    },
    Explanation {
        number: 40,
        name: "NotErased",
        status: 1,
        when: "A write met bytes that are not 0xff.",
        remedy: "In a life: request once after a download. In a boot the result is fault.",
    },
    Explanation {
        number: 41,
        name: "Memory",
        status: 3,
        when: "An allocation of the flash failed, or its journal is full.",
        remedy: "Free some memory and try again.",
    },
];

static EXPLORATIONS: [Explanation; 13] = [
    Explanation {
        number: 50,
        name: "DoesNotFit",
        status: 1,
        when: "An image has more sectors than can be swapped in this layout.",
        remedy: "Make it smaller or the slots larger; see docs/BOARDS.md for the largest image of a layout.",
    },
    Explanation {
        number: 51,
        name: "FlashSize",
        status: 1,
        when: "The flash file does not have exactly the bytes of both slots.",
        remedy: "Dump both slots whole, the primary first, and check the layout's numbers.",
    },
    Explanation {
        number: 52,
        name: "Memory",
        status: 3,
        when: "An allocation failed.",
        remedy: "Free some memory and go on from the last printed cursor.",
    },
    Explanation {
        number: 53,
        name: "CannotOccur",
        status: 1,
        when: "A cut of the schedule does not come before an operation of its boot (places from 0).",
        remedy: "Lower that cut: a boot of 9 operations can be cut after 0 to 8 of them.",
    },
    Explanation {
        number: 54,
        name: "Failed",
        status: 3,
        when: "The exploration failed before.",
        remedy: "Only the library can meet this: start again, or resume from the last cursor.",
    },
    Explanation {
        number: 55,
        name: "Syntax",
        status: 2,
        when: "The text is not a cursor.",
        remedy: "Copy the whole word after next, in lower case.",
    },
    Explanation {
        number: 56,
        name: "OtherStart",
        status: 1,
        when: "The cursor was printed for another layout, other images or another flash.",
        remedy: "Give the same layout and source as for the earlier page.",
    },
    Explanation {
        number: 57,
        name: "OtherBound",
        status: 1,
        when: "The cursor was printed for another number of cuts.",
        remedy: "Give the same --cuts as for the earlier page.",
    },
    Explanation {
        number: 58,
        name: "CannotOccur",
        status: 1,
        when: "The schedule of --cursor, --after or --from has too many cuts, or cannot occur here.",
        remedy: "Copy it from a page of this very start.",
    },
    Explanation {
        number: 59,
        name: "Write",
        status: 3,
        when: "A write failed; what was written before is a prefix of the page.",
        remedy: "Check the disk or the pipe, and go on from the last printed cursor.",
    },
    Explanation {
        number: 60,
        name: "ScheduleSyntax",
        status: 2,
        when: "The text is not a schedule.",
        remedy: "Write - for no cut, or 1 to 16 numbers joined by points, as 9.4.",
    },
    Explanation {
        number: 61,
        name: "OtherRules",
        status: 1,
        when: "The cursor was printed for another grain or profile, or another --confirm.",
        remedy: "Give the same --grain, --profile and --confirm as for the earlier page.",
    },
    Explanation {
        number: 62,
        name: "CampaignSyntax",
        status: 2,
        when: "The text is not a campaign.",
        remedy: "Write - for no cut, or 1 to 16 cuts joined by commas, as 1.0,2.5.",
    },
];

static COMMANDS: [Explanation; 23] = [
    Explanation {
        number: 70,
        name: "SourceOptions",
        status: 2,
        when: "The options of the source do not go together.",
        remedy: "Give --flash alone, or all of --kind, --image-a and --image-b.",
    },
    Explanation {
        number: 71,
        name: "Open",
        status: 3,
        when: "A file cannot be opened or created.",
        remedy: "Check the path and your rights to it.",
    },
    Explanation {
        number: 73,
        name: "CursorOptions",
        status: 2,
        when: "Two of --cursor, --after and --from say where to begin.",
        remedy: "Give one of them.",
    },
    Explanation {
        number: 74,
        name: "NotAllBoot",
        status: 1,
        when: "With --all-boot: a schedule that was counted does not end in a boot.",
        remedy: "Look at the shortest such schedule, which census prints, with trace.",
    },
    Explanation {
        number: 75,
        name: "SameFile",
        status: 2,
        when: "A file to be written is also read, or would be written twice, by the same or another path.",
        remedy: "Choose another file to write; --out may be the file of --flash. Nothing was touched.",
    },
    Explanation {
        number: 76,
        name: "NotAllRight",
        status: 1,
        when: "With --all-right or an expectation: a schedule that was counted does not end in a boot with the expected images.",
        remedy: "Look at the shortest such schedule, which census prints, with trace.",
    },
    Explanation {
        number: 77,
        name: "NotWhole",
        status: 1,
        when: "A verdict is asked for, and only a part of the rows was counted, or none.",
        remedy: "Give --all, or count the rest by its cursor; look whether a range has rows.",
    },
    Explanation {
        number: 78,
        name: "EventSyntax",
        status: 1,
        when: "A line of the script is no event.",
        remedy: "See mcsim life --help for the events: words in lower case, one space between them.",
    },
    Explanation {
        number: 79,
        name: "NotRunning",
        status: 1,
        when: "Only a running image can do this, and none runs: the power is off, or the boot failed.",
        remedy: "Put a boot before it.",
    },
    Explanation {
        number: 80,
        name: "NotThatLong",
        status: 1,
        when: "What is downloaded or written is longer than the file or the secondary, or the file that is stored is not exactly as long as the secondary.",
        remedy: "Check the file and the layout's numbers.",
    },
    Explanation {
        number: 81,
        name: "NoSector",
        status: 1,
        when: "The secondary has no such sector; they are counted from 0.",
        remedy: "Lower the number.",
    },
    Explanation {
        number: 82,
        name: "CannotMark",
        status: 1,
        when: "No swap is finished (copy-done is unset), so the image does not write image-ok.",
        remedy: "Put a boot that ends a swap before it.",
    },
    Explanation {
        number: 83,
        name: "DeviceOptions",
        status: 2,
        when: "What the device is delivered with is not given, or is given twice.",
        remedy: "Give --flash or --image.",
    },
    Explanation {
        number: 84,
        name: "ScriptText",
        status: 1,
        when: "The script is not UTF-8 text.",
        remedy: "Give a script of lines as mcsim life --help shows them.",
    },
    Explanation {
        number: 85,
        name: "NoExpectation",
        status: 2,
        when: "With --all-right and --flash: what a slot should hold at the end is not given.",
        remedy: "Give --expect-primary and --expect-secondary: a version, a digest, or none.",
    },
    Explanation {
        number: 86,
        name: "InUse",
        status: 2,
        when: "The folder to be written exists, and is not an empty folder.",
        remedy: "Give a path where nothing is, or an empty folder. Nothing was touched.",
    },
    Explanation {
        number: 87,
        name: "MoreCuts",
        status: 1,
        when: "With --cuts all: flashes that 16 power cuts leave may lead to more.",
        remedy: "Give a number of cuts.",
    },
    Explanation {
        number: 88,
        name: "LayoutFile",
        status: 2,
        when: "A line of the file of --layout is none of the six options of a layout with its number.",
        remedy: "Give a line for each, as --sector 4096; what follows a # is a comment.",
    },
    Explanation {
        number: 89,
        name: "NeverSwaps",
        status: 2,
        when: "A verdict is asked for a layout with which MCUboot never swaps: --max-sectors is below --primary.",
        remedy: "Raise CONFIG_BOOT_MAX_IMG_SECTORS, and --max-sectors with it, or make the slots smaller.",
    },
    Explanation {
        number: 90,
        name: "NotAligned",
        status: 1,
        when: "A write of a running image begins within a write unit.",
        remedy: "Begin it at a multiple of the layout's unit.",
    },
    Explanation {
        number: 91,
        name: "LargePicture",
        status: 2,
        when: "A picture would show more than 20,000 operations, which no browser takes well.",
        remedy: "Give --from and --to: the numbers of the first and the last operation of each boot to show.",
    },
    Explanation {
        number: 92,
        name: "NoReading",
        status: 2,
        when: "The text of --reading is not what a boot can read of a torn operation.",
        remedy: "Copy it from a line of tears, as magic=good,image-ok=bad, or data.",
    },
    Explanation {
        number: 93,
        name: "NoCase",
        status: 1,
        when: "The boot has no operation of that number, or that operation has no such case.",
        remedy: "Look for its cases with tears --all, and give the same --schedule and --erase.",
    },
];

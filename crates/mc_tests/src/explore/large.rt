//! Large images, and as many cuts as a schedule or a campaign has. The images take all of 253 sectors of 4096 bytes, in chunks of
//! 512, and a trailer has two sectors; so the swap for a test makes 2 + 3 + 2 + 3 * 253 * (1 + 8 + 1) + 1 operations, and the one
//! that takes it back 6 more.
use super::pages::pages_of;
use mc_boot::{BootResult, ImageId, Outcome};
use mc_campaign::{Campaign, CampaignCursor, CampaignExplorer, CampaignRow, write_campaign_page};
use mc_explore::{Cursor, Explorer, Kind, Row, Schedule, Start, flash_at_cut, replay, write_page};
use mc_fixtures::image_of;
use mc_flash::{Flash, JournalFlash, Layout, Slot, SnapFlash};
use mc_image::Version;
use mc_trace::{Moment, View, Words, write_sectors};
use mc_trailer::SwapType;
use std::alloc::Global;
use std::process::Abort;

/// The payload of an image that takes all of the 253 sectors that can be swapped in slots of 256 and 255 sectors.
const PAYLOAD: usize = 253 * 4096 - 72;

/// The start of so large images, the first of which holds 1 and the second 2.
pub fn large(rt: &impl Abort, alloc: Global, kind: Kind) -> Start {
    let layout = Layout::new(4096, 8, 256, 512, 256, 255).expect(rt, "a layout");
    let first = image_of(
        alloc,
        vec![in alloc; 1u8; PAYLOAD].expect(rt, "memory").as_slice(),
    )
    .expect(rt, "an image");
    let second = image_of(
        alloc,
        vec![in alloc; 2u8; PAYLOAD].expect(rt, "memory").as_slice(),
    )
    .expect(rt, "an image");
    Start::from_images(alloc, &layout, kind, first.as_slice(), second.as_slice()).expect(
        rt, "a start",
    )
}

/// Whether a slot holds that image.
fn holds(slot: &[u8], fill: u8) -> bool {
    match slot.get(32..32 + PAYLOAD) {
        Some(payload) => payload.iter().all(|byte| *byte == fill),
        None => false,
    }
}

#[test]
fn large_images_are_placed(rt: HostRuntime) {
    for kind in [Kind::None, Kind::Test, Kind::Perm, Kind::Revert] {
        let start = large(&rt, rt.alloc(), kind);
        let are_placed = holds(start.primary(), 1) && holds(start.secondary(), 2);
        assert!(rt; are_placed, "{kind:?}");
    }
}

/// A large flash without an image has one row.
#[test]
fn a_large_flash_is_explored(rt: HostRuntime) {
    let layout = Layout::new(4096, 8, 256, 512, 256, 255).expect(&rt, "a layout");
    let bytes = vec![in rt.alloc(); 0xffu8; 511 * 4096].expect(&rt, "memory");
    let start = Start::from_flash(rt.alloc(), &layout, bytes.as_slice()).expect(&rt, "a start");
    let pages = pages_of(&rt, rt.alloc(), &start, 16, 2);
    assert_eq!(rt;
        pages.as_slice(),
        b"- none none 0 none none none\nend\nend\n".as_slice()
    );
}

/// Cuts before the first operation.
static ZEROS: &str = "0.0.0.0.0.0.0.0.0.0.0.0.0.0.0.0";

/// Whether the flash at the last of them is the start's.
fn is_kept<F: Flash>(rt: &impl Abort, alloc: Global, start: &Start) -> bool {
    let flash: F = flash_at_cut(alloc, start, &Schedule::read(ZEROS).expect(rt, "a text")).expect(
        rt, "a flash",
    );
    let is_primary = flash.read(Slot::Primary) == start.primary();
    is_primary && flash.read(Slot::Secondary) == start.secondary()
}

/// A schedule of 16 cuts.
static CUTS: &str = "9.9.9.9.9.9.9.9.9.9.9.9.9.9.9.9";

/// Replays it from a start, and returns whether the images are swapped then.
fn is_swapped<F: Flash + Drop>(rt: &impl Abort, alloc: Global, start: &Start) -> bool {
    let (outcome, flash): (Outcome, F) = replay(
        alloc,
        start,
        &Schedule::read(CUTS).expect(rt, "a text"),
    ).expect(rt, "a replay");
    let primary = holds(flash.read(Slot::Primary), 2);
    let secondary = holds(flash.read(Slot::Secondary), 1);
    matches!(outcome.result, BootResult::Boot) && primary && secondary
}

/// Whether the next row after it is of the next schedule, and boots.
fn goes_on<F: Flash + Drop>(rt: &impl Abort, alloc: Global, start: &Start) -> bool {
    let mut page = Vec::with_capacity(alloc, 512).expect(rt, "memory");
    let cursor = Cursor::of(start, 16, &Schedule::read(CUTS).expect(rt, "a text"));
    let mut explorer = Explorer::<F>::resume(alloc, start, 16, &cursor).expect(rt, "an explorer");
    write_page(&mut explorer, 1, &mut page).expect(rt, "a page");
    page.as_slice()
        .starts_with(b"9.9.9.9.9.9.9.9.9.9.9.9.9.9.9.10 boot ")
}

/// A campaign of sixteen cuts before the first operation of a round.
static ROUNDS: &str = "1.0,1.0,1.0,1.0,1.0,1.0,1.0,1.0,2.0,2.0,2.0,2.0,2.0,2.0,2.0,2.0";

/// The first row of all campaigns, and the one after that campaign.
static ROWS: [&str; 2] = [
    "- boot test 7598 boot revert 7604 2.0.0+0/1036288 2.0.0+0/1036288 none\n",
    "1.0,1.0,1.0,1.0,1.0,1.0,1.0,1.0,2.0,2.0,2.0,2.0,2.0,2.0,2.0,2.1 boot test 7598 boot revert 7604 2.0.0+0/1036288 2.0.0+0/1036288 none\n",
];

/// Whether campaigns begin with the first row.
fn begin<F: Flash + Drop>(rt: &impl Abort, alloc: Global, start: &Start) -> bool {
    let mut page = Vec::with_capacity(alloc, 512).expect(rt, "memory");
    let mut explorer = CampaignExplorer::<F>::start(alloc, start, 16, false).expect(
        rt,
        "an explorer",
    );
    write_campaign_page(&mut explorer, 1, &mut page).expect(rt, "a page");
    page.as_slice().starts_with(ROWS[0].as_bytes())
}

/// Whether they go on with the second one.
fn campaigns_go_on<F: Flash + Drop>(rt: &impl Abort, alloc: Global, start: &Start) -> bool {
    let mut page = Vec::with_capacity(alloc, 512).expect(rt, "memory");
    let cursor = CampaignCursor::of(
        start,
        16,
        false,
        &Campaign::read(ROUNDS).expect(rt, "a text"),
    );
    let mut explorer = CampaignExplorer::<F>::resume(alloc, start, 16, false, &cursor).expect(
        rt,
        "an explorer",
    );
    write_campaign_page(&mut explorer, 1, &mut page).expect(rt, "a page");
    page.as_slice().starts_with(ROWS[1].as_bytes())
}

/// Whether all this is so over one kind of flash.
fn are_gone_through<F: Flash + Drop>(rt: &impl Abort, alloc: Global, start: &Start) -> [bool; 5] {
    [
        is_kept::<F>(rt, alloc, start),
        is_swapped::<F>(rt, alloc, start),
        goes_on::<F>(rt, alloc, start),
        begin::<F>(rt, alloc, start),
        campaigns_go_on::<F>(rt, alloc, start),
    ]
}

#[test]
fn sixteen_cuts_are_gone_through(rt: HostRuntime) {
    let start = large(&rt, rt.alloc(), Kind::Test);
    assert_eq!(rt;
        are_gone_through::<SnapFlash>(&rt, rt.alloc(), &start),
        [true; 5]
    );
    assert_eq!(rt;
        are_gone_through::<JournalFlash>(&rt, rt.alloc(), &start),
        [true; 5]
    );
}

/// The words of a slot whose sectors all hold what they held at the start, up to that one.
fn words_up_to(rt: &impl Abort, alloc: Global, letter: &str, last: u32) -> String {
    let mut words = String::new(alloc);
    for sector in 0..=last {
        let word = format!(in alloc; " {letter}{sector}").expect(rt, "memory");
        words.push_str(word.as_str()).expect(rt, "memory");
    }
    words
}

/// What lies where at the last of the cuts before the first operation: the sectors of an image but the first and the last are all
/// the same, and each is named as itself.
#[test]
fn the_sectors_of_large_images_are_shown(rt: HostRuntime) {
    let start = large(&rt, rt.alloc(), Kind::Test);
    let mut out = Vec::new(rt.alloc());
    let schedule = Schedule::read(ZEROS).expect(&rt, "a text");
    let view = View {
        moment: Moment::AtCut,
        words: Words::All,
    };
    write_sectors::<SnapFlash, Vec<u8>>(rt.alloc(), &start, &schedule, view, &mut out).expect(
        &rt,
        "a picture",
    );
    let first = words_up_to(&rt, rt.alloc(), "a", 252);
    let second = words_up_to(&rt, rt.alloc(), "b", 252);
    let want = format!(in rt.alloc(); "primary{first} - - -\nsecondary{second} - b254\n").expect(
        &rt, "memory",
    );
    assert_eq!(rt; out.as_slice(), want.as_str().as_bytes());
}

/// The largest image that there can be in text.
const LARGEST: ImageId = ImageId {
    version: Version {
        major: u8::MAX,
        minor: u8::MAX,
        revision: u16::MAX,
        build: u32::MAX,
    },
    size: u32::MAX,
    digest: [0; 32],
};

/// The outcome whose text is the longest.
const LONGEST: Outcome = Outcome {
    result: BootResult::Panic,
    kind: SwapType::Revert,
    ops: u32::MAX,
    primary: Some(LARGEST),
    secondary: Some(LARGEST),
    next: SwapType::Revert,
};

/// Sixteen of the greatest cuts, as a schedule and in the second round.
static GREATEST: [&str; 2] = [
    "4294967295.4294967295.4294967295.4294967295.4294967295.4294967295.4294967295.4294967295.4294967295.4294967295.4294967295.4294967295.4294967295.4294967295.4294967295.4294967295",
    "2.4294967295,2.4294967295,2.4294967295,2.4294967295,2.4294967295,2.4294967295,2.4294967295,2.4294967295,2.4294967295,2.4294967295,2.4294967295,2.4294967295,2.4294967295,2.4294967295,2.4294967295,2.4294967295",
];

/// That outcome after a schedule, and a cut after those of a campaign.
static ENDS: [&str; 2] = [
    " panic revert 4294967295 255.255.65535+4294967295/4294967295 255.255.65535+4294967295/4294967295 revert",
    " panic revert 4294967295 panic revert 4294967295 255.255.65535+4294967295/4294967295 255.255.65535+4294967295/4294967295 revert",
];

#[test]
fn the_longest_rows_print(rt: HostRuntime) {
    let row = Row {
        schedule: Schedule::read(GREATEST[0]).expect(&rt, "a text"),
        outcome: LONGEST,
    };
    let campaign_row = CampaignRow {
        campaign: Campaign::read(GREATEST[1]).expect(&rt, "a text"),
        first: LONGEST,
        second: LONGEST,
    };
    let shown = format!(in rt.alloc(); "{row}\n{campaign_row}").expect(&rt, "memory");
    let want = format!(in rt.alloc();
        "{}{}\n{}{}",
        GREATEST[0], ENDS[0], GREATEST[1], ENDS[1]
    ).expect(&rt, "memory");
    assert_eq!(rt; shown.as_str(), want.as_str());
}

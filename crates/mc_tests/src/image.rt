//! The worked images, byte for byte, and what no clause says.
ghost use Rattle.std.specs.Prelude.{◌<◌, ◌≤◌, ◌^◌, length};

use crate::common::{same, same_at};
use mc_fixtures::{COUNTED_IMAGE, EMPTY_IMAGE, PAYLOAD, PLAIN_IMAGE};
use mc_image::{
    Area, ImageError, ImageParts, ImageView, Judge, Judged, Tlv, Version, VersionError, write_image,
};
use mc_trailer::MAGIC;
use std::alloc::Global;
use std::process::Abort;

const VERSION: Version = Version {
    major: 1,
    minor: 2,
    revision: 3,
    build: 4,
};

/// Parts with the one version, and a header of 32 bytes.
fn parts_of<'a>(
    payload: &'a [u8],
    protected: &'a [(u16, &'a [u8])],
    plain: &'a [(u16, &'a [u8])],
) -> ImageParts<'a> {
    ImageParts {
        load: 0,
        version: VERSION,
        padding: 0,
        header_rest: &[],
        payload,
        protected,
        plain,
    }
}

/// This comes of it that parts are written after some bytes.
fn writes(rt: &impl Abort, alloc: Global, before: &[u8], parts: &ImageParts, wanted: &[u8]) {
    let mut out = before.to_vec(alloc).expect(rt, "memory");
    write_image(parts, &mut out).expect(rt, "an image");
    same(rt, &out.as_slice(), &wanted);
}

/// The image of a payload, with an entry of no bytes after the digest: the plain area's total is 44 in place of 40.
pub fn with_an_entry() -> [u8; 84] {
    let mut image = [0; 84];
    image[..80].copy_from_slice(&PLAIN_IMAGE);
    image[42] = 0x2c;
    image[80] = 0x99;
    image
}

/// A byte, and the image of a payload after it.
fn beyond_a_byte() -> [u8; 81] {
    let mut bytes = [9; 81];
    bytes[1..].copy_from_slice(&PLAIN_IMAGE);
    bytes
}

#[test]
fn worked_images_are_written(rt: HostRuntime) {
    let plain = parts_of(&PAYLOAD, &[], &[]);
    writes(&rt, rt.alloc(), &[], &plain, &PLAIN_IMAGE);
    writes(&rt, rt.alloc(), &[9], &plain, &beyond_a_byte());
    let empty = parts_of(&[], &[], &[]);
    writes(&rt, rt.alloc(), &[], &empty, &EMPTY_IMAGE)
}

#[test]
fn images_with_entries_are_written(rt: HostRuntime) {
    let counter = [(0x50, [7, 0, 0, 0].as_slice())];
    let counted = parts_of(&PAYLOAD, &counter, &[]);
    writes(&rt, rt.alloc(), &[], &counted, &COUNTED_IMAGE);
    let empty = [(0x99, [].as_slice())];
    let with_empty = parts_of(&PAYLOAD, &[], &empty);
    writes(&rt, rt.alloc(), &[], &with_empty, &with_an_entry())
}

/// Why these parts are refused.
fn refusal_of(rt: &impl Abort, alloc: Global, parts: &ImageParts) -> Option<ImageError> {
    let mut out = [9u8].to_vec(alloc).expect(rt, "memory");
    let refusal = write_image(parts, &mut out).err();
    same(rt, &out.as_slice(), &[9].as_slice());
    refusal
}

/// Too large comes first.
#[test]
fn refused_parts_leave_the_vector(rt: HostRuntime) {
    let digest = [(0x10, [0u8; 32].as_slice())];
    let many = refusal_of(&rt, rt.alloc(), &parts_of(&PAYLOAD, &[], &digest));
    let long = vec![in rt.alloc(); 0u8; (1 << 24) + 1].expect(&rt, "memory");
    let large = refusal_of(&rt, rt.alloc(), &parts_of(long.as_slice(), &[], &digest));
    let wanted = [Some(ImageError::ManyDigests), Some(ImageError::TooLarge)];
    same(&rt, &[many, large], &wanted);
}

#[test]
fn a_view_shows_the_parts(rt: HostRuntime) {
    let view = ImageView::read(&COUNTED_IMAGE).expect(&rt, "an image");
    let parts = [
        view.header(),
        view.payload(),
        view.protected(),
        view.plain(),
        view.digest(),
    ];
    let wanted = [
        &COUNTED_IMAGE[..32],
        PAYLOAD.as_slice(),
        &COUNTED_IMAGE[40..52],
        &COUNTED_IMAGE[52..],
        &COUNTED_IMAGE[60..],
    ];
    same(&rt, &parts, &wanted);
    let shown = (view.size(), view.version(), view.check());
    same(&rt, &shown, &(92, VERSION, Ok(())));
}

#[test]
fn a_view_shows_the_entries(rt: HostRuntime) {
    let mut tlvs = ImageView::read(&COUNTED_IMAGE).expect(&rt, "a text").tlvs();
    let counter = Tlv {
        area: Area::Protected,
        kind: 0x50,
        value: &[7, 0, 0, 0],
    };
    let digest = Tlv {
        area: Area::Plain,
        kind: 0x10,
        value: &COUNTED_IMAGE[60..],
    };
    let found = [tlvs.next(), tlvs.next(), tlvs.next()];
    same(&rt, &found, &[Some(counter), Some(digest), None]);
}

/// What a judge says of bytes that come in pieces of so many at most.
fn judged(bytes: &[u8], most: usize) -> Result<Judged, ImageError>
    requires some { 0 < most }
    requires fits { length bytes.now ≤ 2 ^ 32 }
{
    let mut judge = Judge::new();
    let mut rest = bytes;
    while !rest.is_empty() {
        let (piece, after) = rest.split_at(most.min(rest.len()));
        judge.feed(piece);
        rest = after;
    }
    judge.finish()
}

/// The first beginning of an image that a judge and a view refuse for different reasons, by its length.
fn first_difference(image: &[u8], most: usize) -> Option<usize>
    requires some { 0 < most }
    requires fits { length image.now ≤ 2 ^ 32 }
{
    for n in 0..image.len() {
        if judged(&image[..n], most).err() != ImageView::read(&image[..n]).err() {
            return Some(n);
        }
    }
    None
}

/// What a judge is to say of a worked image, whose digest stands at its end.
fn judged_of(image: &[u8]) -> Judged
    requires { 32 ≤ length image.now }
{
    let mut digest = [0; 32];
    digest.copy_from_slice(&image[image.len() - 32..]);
    Judged {
        version: VERSION,
        size: image.len() as u64,
        digest,
    }
}

/// Judges a worked image and each of its beginnings.
fn is_judged(rt: &impl Abort, image: &[u8], most: usize)
    requires some { 0 < most }
    requires fits { (32 ≤ length image.now) × (length image.now ≤ 2 ^ 32) }
{
    same(rt, &judged(image, most), &Ok(judged_of(image)));
    same(rt, &first_difference(image, most), &None);
}

#[test]
fn worked_images_are_judged_in_any_pieces(rt: HostRuntime) {
    for most in [1, 7, 4096] {
        is_judged(&rt, &PLAIN_IMAGE, most);
        is_judged(&rt, &COUNTED_IMAGE, most);
        is_judged(&rt, &EMPTY_IMAGE, most);
    }
}

/// The first fault of so many bytes of the image with a counter: its header, payload and protected area have 52 bytes, and the
/// magic and the total of the plain area four more.
fn fault_of(len: usize) -> ImageError {
    match len {
        0..=31 => ImageError::Truncated,
        32..=51 => ImageError::TruncatedBody,
        52..=55 => ImageError::BadTlvMagic,
        _ => ImageError::BadTlvLength,
    }
}

#[test]
fn beginnings_of_an_image_have_their_first_faults(rt: HostRuntime) {
    for len in 0..92usize {
        let bytes = &COUNTED_IMAGE[..len];
        let wanted = Some(fault_of(len));
        same_at(&rt, &len, &ImageView::read(bytes).err(), &wanted);
        same_at(&rt, &len, &judged(bytes, 7).err(), &wanted);
    }
}

/// So many bytes of the image of a payload, and their first fault.
static CUT: [(usize, ImageError); 4] = [
    (31, ImageError::Truncated),
    (39, ImageError::TruncatedBody),
    (40, ImageError::BadTlvMagic),
    (79, ImageError::BadTlvLength),
];

/// The image of a payload in a slot, confirmed.
fn in_a_slot() -> [u8; 768] {
    let mut slot = [0xff; 768];
    slot[..80].copy_from_slice(&PLAIN_IMAGE);
    slot[744] = 1;
    slot[752..].copy_from_slice(&MAGIC);
    slot
}

#[test]
fn a_slot_and_cut_images_are_judged_in_any_pieces(rt: HostRuntime) {
    let slot = in_a_slot();
    let mut changed = PLAIN_IMAGE;
    changed[32] ^= 1;
    for most in [1, 7, 4096] {
        same_at(
            &rt,
            &most,
            &judged(&slot, most),
            &Ok(judged_of(&PLAIN_IMAGE)),
        );
        let fault = judged(&changed, most).err();
        same_at(&rt, &most, &fault, &Some(ImageError::WrongDigest));
        for (len, wanted) in &CUT {
            let fault = judged(&PLAIN_IMAGE[..(*len).min(80)], most).err();
            same_at(&rt, &(most, len), &fault, &Some(*wanted));
        }
    }
}

/// Texts of versions, and what is read of them.
static VERSIONS: [(&str, Result<[u32; 4], VersionError>); 6] = [
    ("1", Ok([1, 0, 0, 0])),
    ("1.2.3+4", Ok([1, 2, 3, 4])),
    ("", Err(VersionError::Syntax)),
    ("01", Err(VersionError::Syntax)),
    ("1.2+4", Err(VersionError::Syntax)),
    ("256", Err(VersionError::Range)),
];

/// The parts of the version that a text says.
fn read(text: &str) -> Result<[u32; 4], VersionError> {
    let version = Version::read(text)?;
    Ok([
        u32::from(version.major),
        u32::from(version.minor),
        u32::from(version.revision),
        version.build,
    ])
}

#[test]
fn versions_are_read_or_refused(rt: HostRuntime) {
    for (text, wanted) in &VERSIONS {
        same_at(&rt, text, &read(*text), wanted);
    }
}

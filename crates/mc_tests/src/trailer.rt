//! The worked layout's places, and what is read of the flashes of worked examples.
use crate::common::{flash_of, same, same_at};
use mc_fixtures::worked;
use mc_flash::Slot;
use mc_trailer::{Field, Flag, MAGIC, Magic, Trailer, entry_place, highest_entry, place};
use std::alloc::Global;
use std::process::Abort;

/// The places of the fields in the primary and in the secondary.
static FIELD_PLACES: [(Field, [u32; 2]); 5] = [
    (Field::Magic, [1008, 752]),
    (Field::ImageOk, [1000, 744]),
    (Field::CopyDone, [992, 736]),
    (Field::SwapInfo, [984, 728]),
    (Field::SwapSize, [976, 720]),
];

#[test]
fn fields_and_entries_stand_in_the_worked_places(rt: HostRuntime) {
    let layout = worked().expect(&rt, "a layout");
    for (field, wanted) in &FIELD_PLACES {
        let primary = place(&layout, Slot::Primary, *field);
        let secondary = place(&layout, Slot::Secondary, *field);
        same_at(&rt, field, &[primary, secondary], wanted);
    }
    for entry in 0..12u32 {
        same(&rt, &entry_place(&layout, entry), &(880 + 8 * entry));
    }
}

/// A flag by its byte.
fn flag(byte: u8) -> Flag {
    match byte {
        0x01 => Flag::Set,
        0xff => Flag::Unset,
        _ => Flag::Bad,
    }
}

/// What is read of the flags where this byte stands, or what is left of it up to 0xff: image-ok and copy-done of the primary
/// and of the secondary, and the swap-info.
fn flags_of(rt: &impl Abort, alloc: Global, byte: u8) -> ([Flag; 4], u8) {
    let other = 255 - byte;
    let changes = format!(in alloc;
        "1000={byte:02x},992={other:02x},984={byte:02x},1768={other:02x},1760={byte:02x}"
    ).expect(rt, "memory");
    let flash = flash_of(rt, alloc, changes.as_str());
    let first = Trailer::read(&flash, Slot::Primary);
    let second = Trailer::read(&flash, Slot::Secondary);
    let flags = [
        first.image_ok,
        first.copy_done,
        second.image_ok,
        second.copy_done,
    ];
    (flags, first.swap_info)
}

#[test]
fn every_byte_of_a_flag_is_read(rt: HostRuntime) {
    for byte in 0..=255u8 {
        let shown = flags_of(&rt, rt.alloc(), byte);
        let (one, other) = (flag(byte), flag(255 - byte));
        same(&rt, &shown, &([one, other, other, one], byte));
    }
}

/// The primary's magic where this byte stands in it.
fn magic_with(rt: &impl Abort, alloc: Global, place: usize, byte: u8) -> Magic {
    let changes = format!(in alloc; "1008=MAGIC,{place}={byte:02x}").expect(rt, "memory");
    let flash = flash_of(rt, alloc, changes.as_str());
    Trailer::read(&flash, Slot::Primary).magic
}

#[test]
fn a_magic_with_one_byte_off_is_bad(rt: HostRuntime) {
    for (off, byte) in MAGIC.iter().enumerate() {
        let found = magic_with(&rt, rt.alloc(), 1008 + off, *byte ^ 1);
        same_at(&rt, &off, &found, &Magic::Bad);
    }
}

/// Bytes of the primary, before a secondary of zeros, and the highest entry then. Bytes beside the entries are of none. Then entry 0
/// by its first byte, entry 3 by its last, entry 5 by a byte that is not 1.
static ENTRIES: [(&str, Option<u32>); 6] = [
    ("879=01", None),
    ("879=01,976=01", None),
    ("879=01,976=01,880=01", Some(0)),
    ("879=01,976=01,880=01,911=fe", Some(3)),
    ("879=01,976=01,880=01,911=fe,920=00", Some(5)),
    ("879=01,976=01,880=01,911=fe,920=00,975=01", Some(11)),
];

/// The highest entry where these bytes stand.
fn highest_with(rt: &impl Abort, alloc: Global, changes: &str) -> Option<u32> {
    let changes = format!(in alloc; "1024=zeros,1351=zeros,{changes}").expect(rt, "memory");
    highest_entry(&flash_of(rt, alloc, changes.as_str()))
}

#[test]
fn the_highest_written_entry_is_found(rt: HostRuntime) {
    for (changes, entry) in &ENTRIES {
        let found = highest_with(&rt, rt.alloc(), *changes);
        same_at(&rt, changes, &found, entry);
    }
}

//! What a running image does to the secondary, operation by operation, and what that erases.
ghost use Rattle.std.specs.Prelude.{◌≡◌, ◌<◌, [], ◌∷◌, ◌≤◌, ◌+◌, ◌%◌, length, IfErr, IfOk, OnOk, true, false};
ghost use Rattle.mc_boot.specs.Life.{AreSecondary};
ghost use Rattle.mc_flash.specs.Flash.{put, sectors_of, size_of, with_bytes};
ghost use Rattle.mc_flash.specs.Usage.{Does, limits_for};
ghost use Rattle.mc_flash.specs.declared.op.Op.TheVariants.{Erase, Program};
ghost use Rattle.mc_flash.specs.declared.op.Slot.TheVariants.{Primary, Secondary};
ghost use Rattle.mc_life.specs.Device.{worn, AskFails, asked, is_free, magic_write, marked, padded, wiped, wipes};
ghost use Rattle.mc_boot.specs.Plan.{image_ok_write};
ghost use Rattle.mc_trailer.specs.Trailer.{one_unit, before_end, place};
ghost use Rattle.mc_boot.specs.Restart.{filled};

use crate::request::Request;
use crate::wear::Wear;
use mc_flash::{Bytes16, Flash, FlashError, Grain, Layout, Slot};
use mc_image::are_bytes;
use mc_trailer::{Field, MAGIC, place};
use std::alloc::{AllocError, Global};

/// Erases a sector of the secondary, and counts that.
///
/// # Errors
///
/// `Memory`, where the flash can't grow.
pub fn erase<F: Flash>(flash: &mut F, wear: &mut Wear, sector: u32) -> Result<(), FlashError>
    requires { sector < sectors_of (F.seen flash.old).geometry Secondary }
    ensures does { Does (Erase Secondary sector) (F.seen flash.old) result (F.seen flash.new) }
    ensures wear { OnOk result (wear.new ≡ worn wear.old (Erase Secondary sector ∷ [])) }
    ensures err { IfErr result (λ e. e ≡ FlashError.Memory) }
{
    flash.erase(Slot::Secondary, sector)?;
    wear.erased(Slot::Secondary, sector);
    Ok(())
}

// Erases each sector of the secondary, the last first.
fn wipe<F: Flash>(flash: &mut F, wear: &mut Wear) -> Result<(), FlashError>
    ensures content { OnOk result ((F.seen flash.new).content ≡ with_bytes
        (F.seen flash.old).content Secondary (wiped (F.seen flash.old).geometry)) }
    ensures layout { (F.seen flash.new).geometry ≡ (F.seen flash.old).geometry }
    ensures wear { OnOk result (wear.new
        ≡ worn wear.old (wipes (F.seen flash.old).geometry.secondary)) }
    ensures err { IfErr result (λ e. e ≡ FlashError.Memory) }
{
    let _secondary = flash.read(Slot::Secondary);
    let mut left = flash.layout().secondary();
    'wipe: while left > 0 {
        left -= 1;
        erase(flash, wear, left)?;
    }
    wear.idles();
    Ok(())
}

/// Erases each sector of the secondary, the last first, and writes these bytes there.
///
/// # Errors
///
/// `Memory`, where the flash can't grow.
pub fn rewrite<F: Flash>(flash: &mut F, wear: &mut Wear, bytes: &[u8]) -> Result<(), FlashError>
    requires { length bytes.now ≡ size_of (F.seen flash.old).geometry Secondary }
    ensures content { OnOk result ((F.seen flash.new).content
        ≡ with_bytes (F.seen flash.old).content Secondary bytes.now) }
    ensures layout { (F.seen flash.new).geometry ≡ (F.seen flash.old).geometry }
    ensures wear { OnOk result (wear.new
        ≡ worn wear.old (wipes (F.seen flash.old).geometry.secondary)) }
    ensures err { IfErr result (λ e. e ≡ FlashError.Memory) }
{
    // Reading a field gives the prover that it is a layout.
    let _sector = flash.layout().sector();
    wipe(flash, wear)?;
    flash.program(Slot::Secondary, 0, bytes)
}

/// What stands in the secondary is something that may be stored there.
pub fn secondary_stands<F: Flash>(flash: &F)
    ensures { AreSecondary (F.seen flash.now).geometry (F.seen flash.now).content.secondary }
{
    are_bytes(flash.read(Slot::Secondary));
}

// Writes a field of the secondary's trailer, of whole units.
fn write_field<F: Flash>(flash: &mut F, field: Field, bytes: &[u8]) -> Result<(), FlashError>
    requires nonempty { 0 < length bytes.now }
    requires fits { length bytes.now ≤ before_end field }
    requires whole { length bytes.now % (F.seen flash.old).geometry.unit ≡ 0 }
    ensures { let g = (F.seen flash.old).geometry in
        Does (Program Secondary (place g Secondary field) bytes.now) (F.seen flash.old) result
        (F.seen flash.new) }
{
    let at = place(flash.layout(), Slot::Secondary, field);
    flash.program(Slot::Secondary, at, bytes)
}

// What is written for a flag that is set.
fn set_unit(layout: &Layout) -> Bytes16
    ensures { result ≡ one_unit layout.now 1 }
{
    let mut room = [0xff; 16];
    room[0] = 1;
    Bytes16::new(&room[..layout.unit() as usize])
}

// Writes the magic of the secondary.
fn write_magic<F: Flash>(flash: &mut F) -> Result<(), FlashError>
    ensures { Does (magic_write (F.seen flash.old).geometry) (F.seen flash.old) result
        (F.seen flash.new) }
{
    // Reading a field gives the prover that it is a layout.
    let _unit = flash.layout().unit();
    write_field(flash, Field::Magic, &MAGIC)
}

// Sets image-ok of the secondary.
fn write_image_ok<F: Flash>(flash: &mut F) -> Result<(), FlashError>
    ensures { Does (image_ok_write (F.seen flash.old).geometry Secondary) (F.seen flash.old) result
        (F.seen flash.new) }
{
    // Reading a field gives the prover that it is a layout.
    let _unit = flash.layout().unit();
    let unit = set_unit(flash.layout());
    write_field(flash, Field::ImageOk, unit.bytes())
}

/// Requests a test of the secondary's image, or an upgrade for good.
///
/// # Errors
///
/// `NotErased` where something is written already where it writes; `Memory`, where the flash can't grow.
pub fn ask<F: Flash>(flash: &mut F, request: Request) -> Result<(), FlashError>
    ensures content { let f = F.seen flash.old in OnOk result ((F.seen flash.new).content
        ≡ with_bytes f.content Secondary (asked f.geometry request f.content.secondary)) }
    ensures layout { (F.seen flash.new).geometry ≡ (F.seen flash.old).geometry }
    ensures refused { let f = F.seen flash.old in
        IfErr result (AskFails f.geometry f.content request) }
{
    write_magic(flash)?;
    match request {
        Request::Test => Ok(()),
        Request::Perm => write_image_ok(flash),
    }
}

// Bytes with 0xff after them, up to whole units.
fn padded(alloc: Global, layout: &Layout, part: &[u8]) -> Result<Vec<u8>, AllocError>
    requires { length part.now ≤ size_of layout.now Secondary }
    ensures value { IfOk result (λ bytes. bytes.items ≡ padded layout.now.unit part.now) }
    ensures whole { IfOk result (λ bytes. length bytes.items % layout.now.unit ≡ 0) }
    ensures at_least { IfOk result (λ bytes. length part.now ≤ length bytes.items) }
    ensures less { IfOk result (λ bytes. length bytes.items < length part.now + layout.now.unit) }
{
    let whole = part.len().next_multiple_of(layout.unit() as usize);
    let mut bytes = Vec::with_capacity(alloc, whole)?;
    bytes.extend_from_slice(part)?;
    bytes.resize(whole, 0xff)?;
    Ok(bytes)
}

/// Writes bytes into the secondary from the start of a unit on, padded with 0xff to whole units.
///
/// # Errors
///
/// `NotErased` where something is written already where it writes; `Memory`, where an allocation failed or the flash can't grow.
pub fn write<F: Flash>(alloc: Global, flash: &mut F, at: u32, part: &[u8]) -> Result<(), FlashError>
    requires inside { at + length part.now ≤ size_of (F.seen flash.old).geometry Secondary }
    requires aligned { at % (F.seen flash.old).geometry.unit ≡ 0 }
    ensures content { let f = F.seen flash.old in OnOk result ((F.seen flash.new).content
        ≡ with_bytes f.content Secondary
        (put f.content.secondary at (padded f.geometry.unit part.now))) }
    ensures free { let f = F.seen flash.old in OnOk result
        (is_free f.content at (padded f.geometry.unit part.now) ≡ true) }
    ensures layout { (F.seen flash.new).geometry ≡ (F.seen flash.old).geometry }
    ensures refused { let f = F.seen flash.old in IfErr result (λ e. e ≡ FlashError.NotErased
        → is_free f.content at (padded f.geometry.unit part.now) ≡ false) }
{
    // Reading the secondary gives the prover its length.
    let _secondary = flash.read(Slot::Secondary);
    // Reading a field gives the prover that it is a layout.
    let _unit = flash.layout().unit();
    if part.is_empty() {
        return Ok(());
    }
    let bytes = padded(alloc, flash.layout(), part)?;
    flash.program(Slot::Secondary, at, &bytes)
}

/// Bytes at the start of the secondary, the rest 0xff.
///
/// # Errors
///
/// Where an allocation failed.
pub fn filled(alloc: Global, layout: &Layout, image: &[u8]) -> Result<Vec<u8>, AllocError>
    requires { length image.now ≤ size_of layout.now Secondary }
    ensures value { IfOk result (λ bytes. bytes.items ≡ filled layout.now Secondary image.now) }
    ensures len { IfOk result (λ bytes. length bytes.items ≡ size_of layout.now Secondary) }
{
    let size = layout.size(Slot::Secondary) as usize;
    let mut bytes = Vec::with_capacity(alloc, size)?;
    bytes.extend_from_slice(image)?;
    bytes.resize(size, 0xff)?;
    Ok(bytes)
}

// Puts bytes at the primary's image-ok.
fn put_image_ok(layout: &Layout, primary: &mut [u8], bytes: &[u8])
    requires len { length primary.old ≡ size_of layout.now Primary }
    requires at_most { length bytes.now ≤ 8 }
    ensures value { let at = place layout.now Primary Field.ImageOk in primary.new
        ≡ put primary.old at bytes.now }
    ensures len { length primary.new ≡ length primary.old }
{
    let at = place(layout, Slot::Primary, Field::ImageOk) as usize;
    primary[at..at + bytes.len()].copy_from_slice(bytes);
}

/// The same flash with these bytes at the primary's image-ok, whatever stands there: it is loaded anew.
///
/// # Errors
///
/// `Memory`.
pub fn marked<F: Flash>(
    alloc: Global,
    flash: &F,
    grain: Grain,
    bytes: &[u8],
    boots: u32,
) -> Result<F, FlashError>
    requires at_most { length bytes.now ≤ 8 }
    requires boots { (1 ≤ boots) × (boots ≤ 32) }
    ensures content { let f = F.seen flash.now in IfOk result (λ made. (F.seen made).content
        ≡ marked f.geometry f.content bytes.now) }
    ensures layout { IfOk result (λ made. (F.seen made).geometry ≡ (F.seen flash.now).geometry) }
    ensures exact { let f = F.seen flash.now in IfOk result (λ made. F.counted ≡ true
        → (F.seen made).usage.limits ≡ limits_for grain f.geometry boots) }
    ensures err { IfErr result (λ e. e ≡ FlashError.Memory) }
{
    let layout = flash.layout();
    let mut primary = flash.read(Slot::Primary).to_vec(alloc)?;
    put_image_ok(layout, &mut primary, bytes);
    F::load(
        alloc,
        layout,
        grain,
        &primary,
        flash.read(Slot::Secondary),
        boots,
    )
}

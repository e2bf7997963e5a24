//! The transfers of a swap, and the operations of each.
ghost use Rattle.std.specs.Prelude.{◌≡◌, ◌+◌, ◌-◌, ◌*◌, ◌/◌, ◌<◌, ◌≤◌, slice_get, IfSome, Some};
ghost use Rattle.mc_trailer.specs.Trailer.{one_unit};
ghost use Rattle.mc_flash.specs.Geometry.{greatest_sectors, IsLayout};
ghost use Rattle.mc_flash.specs.Flash.{sectors_of, CanTry};
ghost use Rattle.mc_boot.specs.Plan.{transfers, steps, copy_of, entry_of, first_left};
ghost use Rattle.mc_boot.specs.Boot.{IsInside};
ghost use Rattle.mc_boot.specs.Copies.{AreCopies, whole_copy};

use mc_flash::{Bytes16, Layout, Op, Slot};
use mc_trailer::entry_place;

/// A sector that is copied to another. Sectors are counted from the slot's first.
#[derive(Clone, Copy)]
pub struct Transfer {
    pub from: Slot,
    pub from_sector: u32,
    pub to: Slot,
    pub to_sector: u32,
    /// The status entry that is written when it is done.
    pub entry: u32,
}

/// One transfer of a swap of so many sectors.
pub fn transfer_at(layout: &Layout, sectors: u32, index: u32) -> Transfer
    requires fits { sectors ≤ greatest_sectors layout.now }
    requires below { index < 3 * sectors }
    ensures at { slice_get (transfers layout.now sectors) index ≡ Some result }
    ensures inside { IsInside layout.now result }
{
    let max_sectors = layout.max_sectors();
    if index < sectors {
        return Transfer {
            from: Slot::Primary,
            from_sector: sectors - 1 - index,
            to: Slot::Primary,
            to_sector: sectors - index,
            entry: index,
        };
    }
    let sector = (index - sectors) / 2;
    if (index - sectors) % 2 == 0 {
        Transfer {
            from: Slot::Secondary,
            from_sector: sector,
            to: Slot::Primary,
            to_sector: sector,
            entry: max_sectors + 2 * sector,
        }
    } else {
        Transfer {
            from: Slot::Primary,
            from_sector: sector + 1,
            to: Slot::Secondary,
            to_sector: sector,
            entry: max_sectors + 2 * sector + 1,
        }
    }
}

/// The first transfer still to be made, where this is the highest entry; none where no transfer has that entry.
pub fn first_left(layout: &Layout, sectors: u32, highest: Option<u32>) -> Option<u32>
    requires { sectors ≤ greatest_sectors layout.now }
    ensures { result ≡ first_left layout.now sectors highest }
{
    let Some(entry) = highest else {
        return Some(0);
    };
    let max_sectors = layout.max_sectors();
    if entry < sectors {
        return Some(entry + 1);
    }
    if entry >= max_sectors && entry - max_sectors < 2 * sectors {
        return Some(sectors + (entry - max_sectors) + 1);
    }
    None
}

/// A value, then 0xff up to a whole unit.
pub fn one_unit(layout: &Layout, value: u8) -> Bytes16
    ensures { result ≡ one_unit layout.now value }
{
    let mut room = [0xff; 16];
    room[0] = value;
    Bytes16::new(&room[..layout.unit() as usize])
}

/// The first byte of a chunk of a sector.
fn chunk_offset(layout: &Layout, slot: Slot, sector: u32, chunk: u32) -> u32
    requires there { sector < sectors_of layout.now slot }
    requires below { chunk < layout.now.sector / layout.now.chunk }
    ensures { result ≡ sector * layout.now.sector + chunk * layout.now.chunk }
{
    sector * layout.sector() + chunk * layout.chunk()
}

/// The copying of one chunk of a transfer.
fn chunk_copy(layout: &Layout, transfer: Transfer, chunk: u32) -> Op
    requires inside { IsInside layout.now transfer }
    requires below { chunk < layout.now.sector / layout.now.chunk }
    ensures at { result ≡ copy_of layout.now transfer chunk }
    ensures inside { CanTry layout.now result }
{
    let at = chunk_offset(layout, transfer.from, transfer.from_sector, chunk);
    let offset = chunk_offset(layout, transfer.to, transfer.to_sector, chunk);
    Op::Copy(transfer.from, at, transfer.to, offset, layout.chunk())
}

/// The status entry of a transfer.
fn entry_write(layout: &Layout, transfer: Transfer) -> Op
    requires { IsInside layout.now transfer }
    ensures at { result ≡ entry_of layout.now transfer }
    ensures inside { CanTry layout.now result }
{
    Op::Program(
        Slot::Primary,
        entry_place(layout, transfer.entry),
        one_unit(layout, 1),
    )
}

/// Copies of as many bytes each, one after another: each goes on where the one before it ended.
#[derive(Clone, Copy)]
pub struct Copies {
    pub from: Slot,
    pub at: u32,
    pub to: Slot,
    pub offset: u32,
    /// How many bytes each copies.
    pub len: u32,
    /// How many they are.
    pub count: u32,
}

/// The copies of a transfer, which has so many operations, from that one on, at most so many, if it is a copy.
pub fn copies_of(
    layout: &Layout,
    transfer: Transfer,
    width: u32,
    index: u32,
    most: u32,
) -> Option<Copies>
    requires inside { IsInside layout.now transfer }
    requires width { width ≡ layout.now.sector / layout.now.chunk + 2 }
    ensures copies { IfSome result (AreCopies (steps layout.now transfer) index most) }
    ensures within { IfSome result (λ copies. index + copies.count < width) }
    ensures inside { IfSome result (λ copies. CanTry layout.now (whole_copy copies copies.count)) }
{
    if index == 0 || width - 1 <= index || most == 0 {
        return None;
    }
    let chunk = index - 1;
    let at = chunk_offset(layout, transfer.from, transfer.from_sector, chunk);
    let offset = chunk_offset(layout, transfer.to, transfer.to_sector, chunk);
    Some(Copies {
        from: transfer.from,
        at,
        to: transfer.to,
        offset,
        len: layout.chunk(),
        count: most.min(width - 1 - index),
    })
}

/// How many operations a transfer has.
pub fn transfer_len(layout: &Layout) -> u32
    ensures len { result ≡ layout.now.sector / layout.now.chunk + 2 }
    ensures valid { IsLayout layout.now }
{
    layout.sector() / layout.chunk() + 2
}

/// One operation of a transfer, which has so many.
pub fn transfer_op(layout: &Layout, transfer: Transfer, width: u32, index: u32) -> Op
    requires inside { IsInside layout.now transfer }
    requires width { width ≡ layout.now.sector / layout.now.chunk + 2 }
    requires below { index < width }
    ensures at { slice_get (steps layout.now transfer) index ≡ Some result }
    ensures inside { CanTry layout.now result }
{
    if index == 0 {
        Op::Erase(transfer.to, transfer.to_sector)
    } else if index < width - 1 {
        chunk_copy(layout, transfer, index - 1)
    } else {
        entry_write(layout, transfer)
    }
}

//! The operations of a swap by their number, from its opening to its end.
ghost use Rattle.std.specs.Prelude.{◌≡◌, ◌*◌, ◌+◌, ◌-◌, ◌/◌, ◌≤◌, length, map, slice_get, IfSome, Some, if◌then◌else◌};
ghost use Rattle.mc_flash.specs.Geometry.{greatest_sectors};
ghost use Rattle.mc_flash.specs.Flash.{CanTry};
ghost use Rattle.mc_boot.specs.inner.Section.{counted, first_of, head_list, is_confirmed, preparation_sections, resumed_sections, swap_sections, when};

use crate::section::{Counted, Section, len_of, op_of};
use crate::transfer::{Copies, Transfer, copies_of, transfer_at, transfer_len, transfer_op};
use crate::writes::{is_revert, is_test, number_of, write_len};
use mc_flash::{Grain, Layout, Op, Slot};
use mc_trailer::{Field, SwapType};

/// How a course begins.
#[derive(Clone, Copy)]
pub enum Opening {
    /// A swap from its start, whose larger image has this size.
    New {
        kind: SwapType,
        size: u32,
    },
    /// A swap that was cut: the first transfer still to be made, whether the secondary's trailer is erased again, and
    /// whether image-ok is written at the end.
    Resumed {
        first: u32,
        erases: bool,
        image_ok: bool,
    },
}

impl Opening {
    /// The first transfer still to be made.
    fn first(&self) -> u32
        ensures { result ≡ first_of self.now }
    {
        match *self {
            Opening::New { .. } => 0,
            Opening::Resumed { first, .. } => first,
        }
    }

    /// How many operations the finish has.
    fn finish_len(&self) -> u32
        ensures { result ≡ (if is_confirmed self.now then 2 else 1) }
    {
        match *self {
            Opening::Resumed { image_ok: true, .. } => 2,
            _ => 1,
        }
    }
}

/// A swap of so many sectors, from its opening to its end. The layout's chunk is what is copied at once.
#[derive(Clone, Copy)]
pub struct Course {
    pub grain: Grain,
    pub layout: Layout,
    pub sectors: u32,
    pub opening: Opening,
    // How many operations stand before the transfers.
    head: u32,
    // How many operations a transfer has.
    width: u32,
    ghost fits: { sectors ≤ greatest_sectors layout },
    ghost head_is: { head ≡ length (head_list grain layout opening) },
    ghost width_is: { width ≡ layout.sector / layout.chunk + 2 },
}

/// How many operations stand before the transfers of a course.
fn head_len(grain: Grain, layout: &Layout, opening: Opening) -> u32
    ensures len { result ≡ length (head_list grain layout.now opening) }
{
    let erases = layout.trailer_sectors();
    match opening {
        Opening::New { kind, .. } => {
            let size = write_len(layout, grain, layout.unit().max(4));
            let marking = size + write_len(layout, grain, 16);
            let image_ok = if is_test(kind) { 0 } else { 1 };
            let swap = erases + 1 + image_ok + marking + erases;
            if is_revert(kind) {
                erases + 1 + marking + swap
            } else {
                swap
            }
        }
        Opening::Resumed { erases: wanted, .. } => { if wanted { erases } else { 0 } }
    }
}

/// A section, or none.
fn when(wanted: bool, section: Section) -> Section
    ensures { result ≡ when wanted section }
{
    if wanted { section } else { Section::Nothing }
}

impl Course {
    ghost use Rattle.mc_boot.specs.Boot.{course_list, list_from, IsInside};
    ghost use Rattle.mc_boot.specs.Copies.{AreCopies, whole_copy};
    ghost use Rattle.mc_boot.specs.inner.Section.{IsTransferOf};

    /// The swap of so many sectors that begins so, in a layout by the pieces in which sectors are copied.
    pub fn new(grain: Grain, layout: Layout, sectors: u32, opening: Opening) -> Course
        requires { sectors ≤ greatest_sectors layout }
        ensures list { course_list result ≡ list_from grain layout sectors opening }
        ensures layout { result.layout ≡ layout }
        ensures grain { result.grain ≡ grain }
    {
        let head = head_len(grain, &layout, opening);
        let width = transfer_len(&layout);
        Course {
            grain,
            layout,
            sectors,
            opening,
            head,
            width,
        }
    }

    /// What a revert begins with: the secondary's trailer is made anew.
    pub fn preparation(&self, size: u32) -> [Counted; 4]
        ensures { result ≡ map (counted self.now.grain self.now.layout self.now.sectors)
            (preparation_sections size) }
    {
        [
            Section::Erases(Slot::Secondary).counted(self),
            Section::Flag(Slot::Secondary, Field::ImageOk, 1).counted(self),
            Section::Size(Slot::Secondary, size).counted(self),
            Section::Magic(Slot::Secondary).counted(self),
        ]
    }

    /// A swap from its start, after a revert's preparation.
    pub fn swap(&self, kind: SwapType, size: u32) -> [Counted; 8]
        ensures { result ≡ map (counted self.now.grain self.now.layout self.now.sectors)
            (swap_sections kind size) }
    {
        [
            Section::Erases(Slot::Primary).counted(self),
            Section::Flag(Slot::Primary, Field::SwapInfo, number_of(kind)).counted(self),
            when(
                !is_test(kind),
                Section::Flag(Slot::Primary, Field::ImageOk, 1),
            )
            .counted(self),
            Section::Size(Slot::Primary, size).counted(self),
            Section::Magic(Slot::Primary).counted(self),
            Section::Erases(Slot::Secondary).counted(self),
            Section::Transfers(0).counted(self),
            Section::Flag(Slot::Primary, Field::CopyDone, 1).counted(self),
        ]
    }

    // A swap that was cut.
    fn resumed(&self, first: u32, erases: bool, image_ok: bool) -> [Counted; 4]
        ensures { result ≡ map (counted self.now.grain self.now.layout self.now.sectors)
            (resumed_sections first erases image_ok) }
    {
        [
            when(erases, Section::Erases(Slot::Secondary)).counted(self),
            Section::Transfers(first).counted(self),
            when(image_ok, Section::Flag(Slot::Primary, Field::ImageOk, 1)).counted(self),
            Section::Flag(Slot::Primary, Field::CopyDone, 1).counted(self),
        ]
    }

    /// How many operations there are.
    pub fn len(&self) -> u32
        ensures len { result ≡ length (course_list self.now) }
        // At most 3,072 transfers of 65,538 operations each, and those on the trailers.
        ensures at_most { result ≤ 204000000 }
    {
        // Reading a field gives the prover that it is a layout.
        let _unit = self.layout.unit();
        self.head + self.transfers() * self.width + self.opening.finish_len()
    }

    // How many transfers are left.
    fn transfers(&self) -> u32
        ensures { result ≡ 3 * self.now.sectors - first_of self.now.opening }
    {
        // Reading a field gives the prover that it is a layout.
        let _unit = self.layout.unit();
        (3 * self.sectors).saturating_sub(self.opening.first())
    }

    /// The operation of a number, if there is one.
    pub fn op(&self, index: u32) -> Option<Op>
        ensures at { result ≡ slice_get (course_list self.now) index }
        ensures inside { IfSome result (λ op. CanTry self.now.layout op) }
    {
        match self.transfer_op(index) {
            Some(op) => Some(op),
            None => self.section_op(index),
        }
    }

    // The operation of a number, where it is one of a transfer, as most are.
    fn transfer_op(&self, index: u32) -> Option<Op>
        ensures at { IfSome result (λ op. slice_get (course_list self.now) index ≡ Some op) }
        ensures inside { IfSome result (λ op. CanTry self.now.layout op) }
    {
        // Reading a field gives the prover that it is a layout.
        let _unit = self.layout.unit();
        let later = index.checked_sub(self.head)?;
        let transfer = self.transfer_of(later)?;
        Some(transfer_op(&self.layout, transfer, self.width, later % self.width))
    }

    // The transfer of the operation that has so many before it, of the transfers.
    fn transfer_of(&self, later: u32) -> Option<Transfer>
        ensures there { IfSome result (λ transfer. IsTransferOf self.now.layout self.now.sectors
            self.now.opening (later / self.now.width) transfer) }
        ensures inside { IfSome result (IsInside self.now.layout) }
    {
        // Reading a field gives the prover that it is a layout.
        let _unit = self.layout.unit();
        let number = later / self.width;
        if self.transfers() <= number {
            return None;
        }
        let first = self.opening.first();
        Some(transfer_at(&self.layout, self.sectors, first + number))
    }

    /// The copies of a transfer from that operation on, at most so many, if it is one of them.
    pub fn copies(&self, index: u32, most: u32) -> Option<Copies>
        ensures copies { IfSome result (AreCopies (course_list self.now) index most) }
        ensures inside { IfSome result (λ copies. CanTry self.now.layout (whole_copy copies
            copies.count)) }
        ensures few { IfSome result (λ copies. index + copies.count ≤ 204000000) }
    {
        // Reading a field gives the prover that it is a layout.
        let _unit = self.layout.unit();
        let later = index.checked_sub(self.head)?;
        let transfer = self.transfer_of(later)?;
        copies_of(&self.layout, transfer, self.width, later % self.width, most)
    }

    // The operation of a number, by the sections.
    fn section_op(&self, index: u32) -> Option<Op>
        ensures at { result ≡ slice_get (course_list self.now) index }
        ensures inside { IfSome result (λ op. CanTry self.now.layout op) }
    {
        // Reading a field gives the prover that it is a layout.
        let _unit = self.layout.unit();
        match self.opening {
            Opening::New { kind, size } => {
                let swap = self.swap(kind, size);
                if !is_revert(kind) {
                    return op_of(self, &swap, index);
                }
                let preparation = self.preparation(size);
                let len = len_of(self, &preparation);
                if index < len {
                    op_of(self, &preparation, index)
                } else {
                    op_of(self, &swap, index - len)
                }
            }
            Opening::Resumed {
                first,
                erases,
                image_ok,
            } => op_of(self, &self.resumed(first, erases, image_ok), index),
        }
    }
}

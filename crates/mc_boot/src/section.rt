//! The sections of a course: how many operations each has, and which.
ghost use Rattle.std.specs.Prelude.{◌≡◌, ◌<◌, ◌≤◌, length, slice_get, IfSome};
ghost use Rattle.mc_flash.specs.Flash.{CanTry};
ghost use Rattle.mc_boot.specs.inner.Section.{AreCounted, count_in, counted, ops_in, ops_of_all};

use crate::course::Course;
use crate::transfer::{one_unit, transfer_at, transfer_len, transfer_op};
use crate::writes::{size_bytes, trailer_erase, write_len, write_op};
use mc_flash::{Op, Slot};
use mc_trailer::{Field, MAGIC, place};

/// A part of a course.
#[derive(Clone, Copy)]
pub enum Section {
    /// No operations.
    Nothing,
    /// The erases of a slot's trailer.
    Erases(Slot),
    /// The write of a field of one unit.
    Flag(Slot, Field, u8),
    /// The write of the larger image's size.
    Size(Slot, u32),
    /// The write of the magic.
    Magic(Slot),
    /// The transfers from the one of this number on.
    Transfers(u32),
}

impl Section {
    /// How many operations it has.
    fn len(&self, course: &Course) -> u32
        ensures { result ≡ count_in course.now.grain course.now.layout course.now.sectors self.now }
    {
        let layout = &course.layout;
        let unit = layout.unit();
        match *self {
            Section::Nothing => 0,
            Section::Erases(_) => layout.trailer_sectors(),
            Section::Flag(..) => 1,
            Section::Size(..) => write_len(layout, course.grain, unit.max(4)),
            Section::Magic(_) => write_len(layout, course.grain, 16),
            Section::Transfers(first) => {
                (3 * course.sectors).saturating_sub(first) * transfer_len(layout)
            }
        }
    }

    /// It, and how many it has.
    pub fn counted(self, course: &Course) -> Counted
        ensures { result ≡ counted course.now.grain course.now.layout course.now.sectors self }
    {
        Counted {
            section: self,
            len: self.len(course),
        }
    }

    /// One of them.
    fn op(&self, course: &Course, index: u32) -> Option<Op>
        requires { index < count_in course.now.grain course.now.layout course.now.sectors self.now }
        ensures at { result
            ≡ slice_get (ops_in course.now.grain course.now.layout course.now.sectors self.now) index }
        ensures inside { IfSome result (λ op. CanTry course.now.layout op) }
    {
        let layout = &course.layout;
        let grain = course.grain;
        // Reading a field gives the prover that it is a layout.
        let _unit = layout.unit();
        match *self {
            Section::Nothing => None,
            Section::Erases(slot) => Some(trailer_erase(layout, slot, index)),
            Section::Flag(slot, field, value) => Some(Op::Program(
                slot,
                place(layout, slot, field),
                one_unit(layout, value),
            )),
            Section::Size(slot, size) => {
                let bytes = size_bytes(layout, size);
                Some(write_op(layout, grain, slot, Field::SwapSize, bytes.bytes(), index))
            }
            Section::Magic(slot) => {
                Some(write_op(layout, grain, slot, Field::Magic, &MAGIC, index))
            }
            Section::Transfers(first) => {
                let width = transfer_len(layout);
                let transfer = transfer_at(layout, course.sectors, first + index / width);
                Some(transfer_op(layout, transfer, width, index % width))
            }
        }
    }
}

/// A section of a course, and how many operations it has there.
#[derive(Clone, Copy)]
pub struct Counted {
    section: Section,
    len: u32,
}

/// How many operations some sections have.
pub fn len_of(course: &Course, sections: &[Counted]) -> u32
    requires counted { AreCounted course.now.grain course.now.layout course.now.sectors
        sections.now }
    requires at_most { length sections.now ≤ 8 }
    ensures { result ≡ length (ops_of_all course.now.grain course.now.layout course.now.sectors
        sections.now) }
{
    // Reading a field gives the prover that it is a layout.
    let _unit = course.layout.unit();
    let mut sum = 0;
    for counted in sections {
        sum += counted.len;
    }
    sum
}

/// One of them, by its number.
pub fn op_of(course: &Course, sections: &[Counted], index: u32) -> Option<Op>
    requires { AreCounted course.now.grain course.now.layout course.now.sectors sections.now }
    ensures at { result ≡ slice_get (ops_of_all course.now.grain course.now.layout
        course.now.sectors sections.now) index }
    ensures inside { IfSome result (λ op. CanTry course.now.layout op) }
{
    let mut left = index;
    for counted in sections {
        if left < counted.len {
            return counted.section.op(course, left);
        }
        left -= counted.len;
    }
    None
}

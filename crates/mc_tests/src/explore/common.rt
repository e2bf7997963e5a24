//! What the tests share.
use mc_explore::{Kind, Start};
use mc_fixtures::{FIRST_IMAGE, SECOND_IMAGE, worked};
use std::alloc::Global;
use std::process::Abort;

/// A start of both images with a swap for a test.
pub fn swap(rt: &impl Abort, alloc: Global) -> Start {
    let layout = worked().expect(rt, "a layout");
    Start::from_images(alloc, &layout, Kind::Test, &FIRST_IMAGE, &SECOND_IMAGE).expect(
        rt, "a start",
    )
}

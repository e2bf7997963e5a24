//! What a boot asks of the images at the start of the slots.
ghost use Rattle.std.specs.Prelude.{◌≡◌, ◌<◌, ◌≤◌, ◌^◌, true, length, max, option_map};
ghost use Rattle.mc_flash.specs.Flash.{bytes_of};
ghost use Rattle.std.specs.Option.{is_some};
ghost use Rattle.mc_image.specs.Image.{Begins, image_text};
ghost use Rattle.mc_image.specs.Valid.{identity, is_valid, id_of};
ghost use Rattle.mc_boot.specs.Plan.{image_size, images_of, identity_of};

use mc_flash::{Flash, Slot};
use mc_image::{ImageView, Version};

/// What distinguishes valid images.
#[derive(Clone, Copy, Debug, PartialEq, Eq)]
pub struct ImageId {
    /// The version in the header.
    pub version: Version,
    /// The image's length in bytes.
    pub size: u32,
    /// The SHA-256 of header, payload and protected area.
    pub digest: [u8; 32],
}

/// What a new swap asks of the slots: whether the secondary's image is valid, and the size of the larger image.
#[derive(Clone, Copy, Debug)]
pub struct Images {
    pub valid: bool,
    pub size: u32,
}

/// The image that a slot's bytes begin with: its size by structure alone, and what distinguishes it where it is valid.
#[derive(Clone, Copy, Debug)]
pub struct Held {
    pub size: u32,
    pub id: Option<ImageId>,
}

/// The bytes of a slot, as many as its layout says.
pub fn slot_bytes<F: Flash>(flash: &F, slot: Slot) -> &[u8]
    ensures value { result.now ≡ bytes_of (F.seen flash.now).content slot }
    ensures at_most { length result.now ≤ 2 ^ 24 }
{
    let size = flash.layout().size(slot) as usize;
    &flash.read(slot)[..size]
}

/// The length of the image at the start of a slot's bytes.
fn view_size(bytes: &[u8], view: &ImageView<'_>) -> u32
    requires at_most { length bytes.now ≤ 2 ^ 24 }
    requires begins { Begins bytes.now view.now }
    ensures { result ≡ length (image_text view.now) }
{
    view.size() as u32
}

/// The size of the image that the bytes begin with, by structure alone; 0 where they begin with none.
#[tactic(auto, using(crate::specs::facts::Sizes::size_read, crate::proofs::Images::size_refused))]
pub fn image_size(bytes: &[u8]) -> u32
    requires { length bytes.now ≤ 2 ^ 24 }
    ensures { result ≡ image_size bytes.now }
{
    match ImageView::read(bytes) {
        Ok(view) => view_size(bytes, &view),
        Err(_) => 0,
    }
}

impl ImageId {
    /// What distinguishes the image of a view.
    pub fn of(view: &ImageView<'_>) -> ImageId
        requires { length (image_text view.now) < 2 ^ 32 }
        ensures { identity_of result ≡ identity view.now }
    {
        let mut digest = [0; 32];
        digest.copy_from_slice(view.digest());
        ImageId {
            version: view.version(),
            size: view.size() as u32,
            digest,
        }
    }
}

impl Held {
    /// The image that the bytes begin with, read and hashed once.
    #[tactic(auto, using(crate::specs::facts::Sizes::size_read, crate::proofs::Images::size_refused, crate::proofs::Images::id_good, crate::proofs::Images::id_bad, crate::proofs::Images::id_refused))]
    pub fn read(bytes: &[u8]) -> Held
        requires { length bytes.now ≤ 2 ^ 24 }
        ensures size { result.size ≡ image_size bytes.now }
        ensures id { option_map identity_of result.id ≡ id_of bytes.now }
    {
        let Ok(view) = ImageView::read(bytes) else {
            return Held { size: 0, id: None };
        };
        let size = view_size(bytes, &view);
        match view.check() {
            Ok(()) => Held {
                size,
                id: Some(ImageId::of(&view)),
            },
            Err(_) => Held { size, id: None },
        }
    }
}

impl Images {
    /// By the size of the primary's image, and by what the secondary holds.
    pub fn new(primary_size: u32, secondary: &Held) -> Images
        ensures valid { result.valid ≡ is_some secondary.now.id }
        ensures size { result.size ≡ max primary_size secondary.now.size }
    {
        Images {
            valid: secondary.id.is_some(),
            size: primary_size.max(secondary.size),
        }
    }
}

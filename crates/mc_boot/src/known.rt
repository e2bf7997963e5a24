//! Images whose bytes are known: where a slot begins with them, nothing is hashed.
ghost use Rattle.std.specs.Prelude.{◌≡◌, ◌≤◌, ◌^◌, true, length, take, IfSome, option_map, Some};
ghost use Rattle.mc_image.specs.Valid.{id_of};
ghost use Rattle.mc_boot.specs.Plan.{image_size, images_of, identity_of};

use crate::image::{Held, ImageId, Images, image_size, slot_bytes};
use mc_flash::{Flash, Slot};
use mc_image::{are_bytes, same_prefix};

/// A valid image: bytes that begin with it, and what distinguishes it. It takes no memory.
#[derive(Clone, Copy)]
pub struct KnownImage<'a> {
    bytes: &'a [u8],
    id: ImageId,
    ghost valid: { id_of bytes.now ≡ Some (identity_of id) },
}

impl<'a> KnownImage<'a> {
    /// The valid image that these bytes begin with.
    pub fn new(bytes: &'a [u8], id: ImageId) -> KnownImage<'a>
        requires { id_of bytes.now ≡ Some (identity_of id) }
    {
        KnownImage { bytes, id }
    }

    // What distinguishes it, where other bytes begin with it.
    fn id_in(&self, bytes: &[u8]) -> Option<ImageId>
        ensures { IfSome result (λ id. id_of bytes.now ≡ Some (identity_of id)) }
    {
        // Bytes that agree as far as the image goes begin with it too.
        same_prefix();
        are_bytes(self.bytes);
        let size = self.id.size as usize;
        if begin_alike(self.bytes, bytes, size) {
            Some(self.id)
        } else {
            None
        }
    }
}

// Whether both have so many bytes, and the same.
fn begin_alike(first: &[u8], second: &[u8], size: usize) -> bool
    ensures { result ≡ true → take size second.now ≡ take size first.now }
{
    if first.len() < size || second.len() < size {
        return false;
    }
    first[..size] == second[..size]
}

/// What distinguishes the image that the bytes begin with, where it is one of those that are known. It compares bytes, and hashes none.
/// Promised: a known image's identity is the hashed one (`id_of`).
pub fn known_id(bytes: &[u8], known: &[Option<KnownImage<'_>>]) -> Option<ImageId>
    ensures { IfSome result (λ id. id_of bytes.now ≡ Some (identity_of id)) }
{
    for image in known {
        if let Some(image) = image {
            let id = image.id_in(bytes);
            if id.is_some() {
                return id;
            }
        }
    }
    None
}

impl Held {
    /// The image that the bytes begin with. It is hashed where it is none of those that are known.
    #[tactic(auto, using(crate::proofs::Images::known_size))]
    pub fn read_among(bytes: &[u8], known: &[Option<KnownImage<'_>>]) -> Held
        requires { length bytes.now ≤ 2 ^ 24 }
        ensures size { result.size ≡ image_size bytes.now }
        ensures id { option_map identity_of result.id ≡ id_of bytes.now }
    {
        match known_id(bytes, known) {
            Some(id) => Held {
                size: id.size,
                id: Some(id),
            },
            None => Held::read(bytes),
        }
    }
}

/// The valid image that the bytes begin with. It is hashed where it is none of those that are known.
pub fn image_in(bytes: &[u8], known: &[Option<KnownImage<'_>>]) -> Option<ImageId>
    requires { length bytes.now ≤ 2 ^ 24 }
    ensures { option_map identity_of result ≡ id_of bytes.now }
{
    Held::read_among(bytes, known).id
}

impl Images {
    /// By the bytes of the slots. Of the primary no digest is asked; the secondary's image is hashed where it is none of those that
    /// are known.
    pub fn read_among<F: Flash>(flash: &F, known: &[Option<KnownImage<'_>>]) -> Images
        ensures { result ≡ images_of (F.seen flash.now).content }
    {
        let primary = image_size(slot_bytes(flash, Slot::Primary));
        let secondary = Held::read_among(slot_bytes(flash, Slot::Secondary), known);
        Images::new(primary, &secondary)
    }
}

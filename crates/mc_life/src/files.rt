//! The files that a script names.
ghost use Rattle.std.specs.Prelude.{◌≡◌, ◌≤◌, ◌^◌, length, IfOk, Some, option_map};
ghost use Rattle.mc_life.specs.Script.{file_of};
ghost use Rattle.mc_start.specs.Start.{IsKnown};

use mc_boot::{ImageId, KnownImage, image_in};
use std::alloc::{AllocError, Global};
use std::marker::Model;

/// A file by its name, what it holds, and the valid image that it begins with.
#[derive(Drop)]
pub struct File {
    name: String,
    bytes: Vec<u8>,
    id: Option<ImageId>,
}

impl Model for File {
    ghost use Rattle.std.specs.Prelude.{string_bytes};
    ghost use Rattle.mc_life.specs.Script.{Named};
    ghost use Rattle.mc_start.specs.Start.{IsKnown};

    ghost Value = { Named };

    ghost view = { λ f. record { name = string_bytes f.name; bytes = f.bytes.items } };

    ghost invariant = { λ f. IsKnown f.bytes.items f.id };
}

// The valid image that some bytes begin with, as one that is known.
fn known_in(bytes: &[u8], id: Option<ImageId>) -> Option<KnownImage<'_>>
    requires { IsKnown bytes.now id }
{
    let id = id?;
    Some(KnownImage::new(bytes, id))
}

impl File {
    /// A file of that name which holds these bytes. Its image is hashed once.
    ///
    /// # Errors
    ///
    /// Where an allocation failed.
    pub fn new(alloc: Global, name: &str, bytes: Vec<u8>) -> Result<File, AllocError>
        requires { length bytes.items ≤ 2 ^ 24 }
        ensures { IfOk result (λ f. f ≡ record { name = name.now; bytes = bytes.items }) }
    {
        let name = name.to_string(alloc)?;
        let id = image_in(&bytes, &[]);
        Ok(File { name, bytes, id })
    }

    /// What it holds.
    pub fn bytes(&self) -> &[u8]
        ensures { result.now ≡ self.now.bytes }
    {
        &self.bytes
    }

    // The valid image that it begins with.
    fn known(&self) -> Option<KnownImage<'_>> {
        known_in(&self.bytes, self.id)
    }
}

/// The bytes of the first file of a name.
pub fn find<'a>(files: &'a [File], name: &str) -> Option<&'a [u8]>
    ensures { option_map (λ b. b.now) result ≡ file_of files.now name.now }
{
    for file in files {
        if file.name.as_str() == name {
            return Some(file.bytes());
        }
    }
    None
}

/// The image of the file of a number, if there is such a file, and it begins with one.
pub fn known_at(files: &[File], number: usize) -> Option<KnownImage<'_>> {
    let file = files.get(number)?;
    file.known()
}

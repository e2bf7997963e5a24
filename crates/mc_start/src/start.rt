//! The flash that an exploration starts from.
ghost use Rattle.std.specs.Prelude.{◌≡◌, ℕ, ◌≤◌, ◌+◌, ◌^◌, ◌++◌, [], ◌∷◌, List, length, IfOk, IfErr, MatchResult, Some, None, option_map, string_bytes};
ghost use Rattle.mc_image.specs.Image.{image_text};
ghost use Rattle.mc_image.specs.Valid.{identity, id_of, image_fault};
ghost use Rattle.mc_flash.specs.Geometry.{IsLayout};
ghost use Rattle.mc_flash.specs.Flash.{size_of};
ghost use Rattle.mc_flash.specs.declared.op.Slot.TheVariants.{Primary, Secondary};
ghost use Rattle.mc_boot.specs.Plan.{again, image_size, identity_of};
ghost use Rattle.mc_boot.specs.Restart.{image_bytes};
ghost use Rattle.mc_start.specs.Start.{layout_line, IsKnown, Starts, Gives, begun, in_order, of_flash, start_digest};

use crate::slots::start_slots;
use mc_boot::{ImageId, Kind, KnownImage, image_in, known_id};
use mc_flash::{Content, Flash, FlashError, Layout, Slot};
use mc_image::{ImageError, ImageView, digest_of_parts};
use mc_trailer::Rules;
use std::alloc::{AllocError, Global};
use std::marker::Model;
use thiserror::Error;

/// Why there is no start. Of several reasons the first in this order is reported.
#[derive(Clone, Copy, Debug, PartialEq, Eq, Error)]
pub enum StartError {
    /// The first image is none, or not valid.
    #[error("{0} in image A")]
    ImageA(ImageError),
    /// The second image is none, or not valid.
    #[error("{0} in image B")]
    ImageB(ImageError),
    /// An image has more sectors than can be swapped.
    #[error("E50 DoesNotFit")]
    DoesNotFit,
    /// The bytes are not as many as both slots have.
    #[error("E51 FlashSize")]
    FlashSize,
    /// An allocation failed.
    #[error("E52 Memory")]
    Memory,
}

impl From<AllocError> for StartError {
    ghost use Rattle.mc_start.specs.declared.start.StartError.TheVariants.{Memory};

    ghost from_gives = { λ _ e. e ≡ Memory };

    fn from(_: AllocError) -> Self {
        StartError::Memory
    }
}

impl From<FlashError> for StartError {
    ghost use Rattle.mc_start.specs.declared.start.StartError.TheVariants.{Memory};

    ghost from_gives = { λ _ e. e ≡ Memory };

    fn from(_: FlashError) -> Self {
        StartError::Memory
    }
}

/// A flash to start from, with its layout and the rules of the boots from there on.
#[derive(Drop)]
pub struct Start {
    layout: Layout,
    rules: Rules,
    // The layout's text and a line feed, for the digest.
    line: String,
    content: Content,
    // The valid images that the slots begin with, where that is known.
    in_primary: Option<ImageId>,
    in_secondary: Option<ImageId>,
    // The named image and the other one.
    named: Option<(ImageId, ImageId)>,
}

impl Model for Start {
    ghost use Rattle.mc_start.specs.Start.{Started, IsKnown, layout_line};
    ghost use Rattle.std.specs.Prelude.{option_map, ◌≡◌, ◌++◌, ◌∷◌, [], length, string_bytes};
    ghost use Rattle.mc_boot.specs.Plan.{identity_of};
    ghost use Rattle.mc_flash.specs.Geometry.{IsLayout};
    ghost use Rattle.mc_flash.specs.Flash.{IsSized};

    ghost Value = { Started };

    ghost view = { λ s. record {
      geometry = s.layout;
      rules = s.rules;
      content = s.content;
      named = option_map (λ p. (identity_of p.0, identity_of p.1)) s.named;
    } };

    ghost invariant = { λ s. IsLayout s.layout × IsSized s.layout s.content
        × (string_bytes s.line ≡ layout_line s.layout ++ 10 ∷ [])
        × IsKnown s.content.primary s.in_primary
        × IsKnown s.content.secondary s.in_secondary };
}

// The line of a layout, with its line feed.
fn layout_line(alloc: Global, layout: &Layout) -> Result<String, AllocError>
    ensures { IfOk result (λ text. string_bytes text ≡ layout_line layout.now ++ 10 ∷ []) }
{
    let sector = layout.sector();
    let unit = layout.unit();
    let max_sectors = layout.max_sectors();
    let chunk = layout.chunk();
    let primary = layout.primary();
    let secondary = layout.secondary();
    let mut line = format!(in alloc; "sector={sector} unit={unit} max={max_sectors}")?;
    let rest = format!(in alloc; " chunk={chunk} primary={primary} secondary={secondary}")?;
    line.push_str(rest.as_str())?;
    line.push_str("\n")?;
    Ok(line)
}

// A valid image: its bytes, and what was read of them.
#[derive(Drop)]
struct ValidImage<'a> {
    bytes: &'a [u8],
    view: ImageView<'a>,
}

impl<'a> ValidImage<'a> {
    // The valid image that some bytes begin with.
    fn read(bytes: &'a [u8]) -> Result<ValidImage<'a>, ImageError>
        ensures value { MatchResult result
            (λ image. (image_fault bytes.entry.now ≡ None)
            × (image.bytes.now ≡ image_bytes bytes.entry.now)
            × (id_of bytes.entry.now ≡ Some (identity image.view)))
            (λ e. image_fault bytes.entry.now ≡ Some e) }
        ensures len { IfOk result (λ image. length image.bytes.now ≡ image_size bytes.entry.now) }
        ensures size { IfOk result (λ image. length (image_text image.view)
            ≡ image_size bytes.entry.now) }
    {
        let view = ImageView::read_valid(bytes)?;
        let size = view.size() as usize;
        Ok(ValidImage {
            bytes: &bytes[..size],
            view,
        })
    }

    // What distinguishes it.
    fn id(&self) -> ImageId
        requires { length (image_text self.now.view) ≤ 2 ^ 24 }
        ensures { identity_of result ≡ identity self.now.view }
    {
        ImageId::of(&self.view)
    }
}

// The image that the bytes begin with, where that is known.
fn known_in(bytes: &[u8], id: Option<ImageId>) -> Option<KnownImage<'_>>
    requires { IsKnown bytes.now id }
{
    let id = id?;
    Some(KnownImage::new(bytes, id))
}

// The image that a kind of start names, and the other.
fn named_of(kind: Kind, first: ImageId, second: ImageId) -> (ImageId, ImageId)
    ensures { result ≡ in_order kind first second }
{
    match kind {
        Kind::None => (first, second),
        _ => (second, first),
    }
}

impl Start {
    /// The start of two images: the first in the primary, the second in the secondary, and what that kind of start asks
    /// for. Bytes after an image are left out. For `Revert` it is what the whole swap of the exchanged images for a test
    /// leaves. Its boots go by whole calls and the first profile.
    /// Promised: the start of two images, or the first of A's and B's faults and 50 (`Starts`).
    ///
    /// # Errors
    ///
    /// `ImageA` and `ImageB` with the first fault of an image; `DoesNotFit`; `Memory`.
    pub fn from_images(
        alloc: Global,
        layout: &Layout,
        kind: Kind,
        a: &[u8],
        b: &[u8],
    ) -> Result<Start, StartError>
        ensures { Starts layout.now kind a.now b.now result }
    {
        let first = match ValidImage::read(a) {
            Ok(image) => image,
            Err(error) => return Err(StartError::ImageA(error)),
        };
        let second = match ValidImage::read(b) {
            Ok(image) => image,
            Err(error) => return Err(StartError::ImageB(error)),
        };
        if !layout.fits(first.bytes.len() as u64) {
            return Err(StartError::DoesNotFit);
        }
        if !layout.fits(second.bytes.len() as u64) {
            return Err(StartError::DoesNotFit);
        }
        let (in_a, in_b) = (first.id(), second.id());
        let images = [
            Some(KnownImage::new(a, in_a)),
            Some(KnownImage::new(b, in_b)),
        ];
        let line = layout_line(alloc, layout)?;
        let content = start_slots(alloc, layout, kind, first.bytes, second.bytes, &images)?;
        Ok(Start {
            layout: *layout,
            rules: Rules::PLAIN,
            line,
            in_primary: known_id(content.bytes(Slot::Primary), &images),
            in_secondary: known_id(content.bytes(Slot::Secondary), &images),
            content,
            named: Some(named_of(kind, in_a, in_b)),
        })
    }

    /// The start from the bytes of both slots, the primary's first. Its boots go by whole calls and the first profile. What the
    /// slots hold is hashed here, and again nowhere.
    /// Promised: the start of a flash; 51 exactly by its length, 52 last (`Gives`, `of_flash`).
    ///
    /// # Errors
    ///
    /// `FlashSize` where the bytes are not exactly as many; `Memory`.
    pub fn from_flash(alloc: Global, layout: &Layout, bytes: &[u8]) -> Result<Start, StartError>
        ensures { Gives layout.now result (of_flash layout.now bytes.now) }
    {
        let primary = layout.size(Slot::Primary) as usize;
        let secondary = layout.size(Slot::Secondary) as usize;
        if bytes.len() != primary + secondary {
            return Err(StartError::FlashSize);
        }
        let (low, high) = bytes.split_at(primary);
        Ok(Start {
            layout: *layout,
            rules: Rules::PLAIN,
            line: layout_line(alloc, layout)?,
            content: Content::of(alloc, low, high)?,
            in_primary: image_in(low, &[]),
            in_secondary: image_in(high, &[]),
            named: None,
        })
    }

    /// The start by the same rules from what a flash of its layout contains. An image there that this start is not known to hold is
    /// hashed.
    ///
    /// # Errors
    ///
    /// Where an allocation failed.
    pub fn again<F: Flash>(&self, alloc: Global, flash: &F) -> Result<Start, AllocError>
        requires { (F.seen flash.now).geometry ≡ self.now.geometry }
        ensures { IfOk result (λ then. begun then
            ≡ again (begun self.now) (F.seen flash.now).content) }
    {
        let content = Content::read(alloc, flash)?;
        let known = self.known();
        Ok(Start {
            layout: self.layout,
            rules: self.rules,
            line: self.line.clone()?,
            in_primary: image_in(content.bytes(Slot::Primary), &known),
            in_secondary: image_in(content.bytes(Slot::Secondary), &known),
            content,
            named: None,
        })
    }

    /// The layout. It takes no memory.
    pub fn layout(&self) -> &Layout
        ensures value { result.now ≡ self.now.geometry }
        ensures valid { IsLayout self.now.geometry }
    {
        &self.layout
    }

    /// The rules of the boots. It takes no memory.
    pub fn rules(&self) -> Rules
        ensures { result ≡ self.now.rules }
    {
        self.rules
    }

    /// The same start under other rules. Its flash stays as it is. It takes no memory.
    /// Promised, also of `named`: a start's rules, and the images that it names (`named`).
    pub fn with_rules(self, rules: Rules) -> Start
        ensures { result ≡ record {
          geometry = self.geometry;
          rules = rules;
          content = self.content;
          named = self.named;
        } }
    {
        Start { rules, ..self }
    }

    /// The bytes of the primary. It takes no memory.
    pub fn primary(&self) -> &[u8]
        ensures value { result.now ≡ self.now.content.primary }
        ensures len { length result.now ≡ size_of self.now.geometry Primary }
    {
        self.content.bytes(Slot::Primary)
    }

    /// The bytes of the secondary. It takes no memory.
    pub fn secondary(&self) -> &[u8]
        ensures value { result.now ≡ self.now.content.secondary }
        ensures len { length result.now ≡ size_of self.now.geometry Secondary }
    {
        self.content.bytes(Slot::Secondary)
    }

    /// The image that is to be in the primary at the end, and the other one, of a start of two images; none for one of bytes. It
    /// takes no memory.
    pub fn named(&self) -> Option<(ImageId, ImageId)>
        ensures { option_map (λ p. (identity_of p.0, identity_of p.1)) result ≡ self.now.named }
    {
        self.named
    }

    /// The valid images that its slots begin with, where that is known. It takes no memory, and hashes nothing.
    pub fn known(&self) -> [Option<KnownImage<'_>>; 2] {
        [
            known_in(self.content.bytes(Slot::Primary), self.in_primary),
            known_in(self.content.bytes(Slot::Secondary), self.in_secondary),
        ]
    }

    /// What distinguishes starts in a cursor: the SHA-256 of the layout's line, a line feed, the primary and the secondary.
    /// It takes no memory.
    /// Promised: a start's digest (`start_digest`).
    pub fn digest(&self) -> [u8; 32]
        ensures { result ≡ start_digest (begun self.now) }
    {
        digest_of_parts(
            self.line.as_bytes(),
            self.content.bytes(Slot::Primary),
            self.content.bytes(Slot::Secondary),
        )
    }
}

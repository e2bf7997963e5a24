//! The digest that names a flash, of one after another: that of a sector which stays is not computed again.
ghost use Rattle.std.specs.Prelude.{◌≡◌, ◌<◌, ◌≤◌, ◌+◌, ◌*◌, ◌++◌, List, ℕ, length, IfOk, OnOk};
ghost use Rattle.std.specs.List.{concat};
ghost use Rattle.mc_flash.specs.Flash.{size_of};
ghost use Rattle.mc_flash.specs.declared.op.Slot.TheVariants.{Primary, Secondary};
ghost use Rattle.mc_vectors.specs.Cases.{flash_digest, sector_digest};
ghost use Rattle.mc_vectors.specs.inner.Digests.{AreDigests, AreOfFlash, IsWhole};
ghost use Rattle.sha2.specs.Hashers.{Holds256};

use mc_flash::{Flash, Layout, Slot};
use sha2::{Digest, Sha256};
use std::alloc::{AllocError, Global};

// The bytes of a slot as they were last, and the digests of its sectors.
#[derive(Drop)]
struct SlotDigests {
    bytes: Vec<u8>,
    digests: Vec<[u8; 32]>,
}

impl SlotDigests {
    // Those of a slot without bytes.
    fn new(alloc: Global) -> SlotDigests
        ensures { (size : ℕ) → AreDigests size result }
    {
        SlotDigests {
            bytes: Vec::new(alloc),
            digests: Vec::new(alloc),
        }
    }

    // The digest of a sector of that size and number among other bytes.
    fn digest_of(&self, size: usize, number: usize, bytes: &[u8]) -> [u8; 32]
        requires kept { AreDigests size self.now }
        requires inside { number * size + size ≤ length bytes.now }
        ensures { result ≡ sector_digest size bytes.now number }
    {
        let at = number * size;
        let to = at + size;
        if number < self.digests.len() && self.bytes[at..to] == bytes[at..to] {
            return self.digests[number];
        }
        Sha256::digest(&bytes[at..to])
    }

    // Takes other bytes of the slot.
    fn renew(&mut self, alloc: Global, size: usize, bytes: &[u8]) -> Result<(), AllocError>
        requires some { 0 < size }
        requires kept { AreDigests size self.old }
        requires whole { IsWhole size bytes.now }
        ensures kept { OnOk result (AreDigests size self.new) }
        ensures bytes { OnOk result (self.new.bytes.items ≡ bytes.now) }
    {
        let count = bytes.len() / size;
        let mut digests = Vec::with_capacity(alloc, count)?;
        for number in 0..count {
            digests.push(self.digest_of(size, number, bytes))?;
        }
        self.digests = digests;
        self.bytes.clear();
        self.bytes.extend_from_slice(bytes)?;
        Ok(())
    }

    // Adds them to a message.
    fn add_to(&self, hasher: &mut Sha256)
        ensures { (m : List ℕ) → Holds256 hasher.old m
            → Holds256 hasher.new (m ++ concat self.now.digests.items) }
    {
        for digest in &self.digests {
            hasher.update(digest);
        }
    }
}

/// The digests of the sectors of a flash, as they were last.
#[derive(Drop)]
pub struct Digests {
    alloc: Global,
    primary: SlotDigests,
    secondary: SlotDigests,
}

impl Digests {
    /// Those of a flash without bytes.
    pub fn new(alloc: Global) -> Digests
        ensures { (size : ℕ) → AreOfFlash size result }
    {
        Digests {
            alloc,
            primary: SlotDigests::new(alloc),
            secondary: SlotDigests::new(alloc),
        }
    }

    /// The digest of a flash. What it does not have in common with the one before is not hashed again.
    ///
    /// # Errors
    ///
    /// Where an allocation failed: then it serves no more.
    pub fn digest<F: Flash>(&mut self, flash: &F) -> Result<[u8; 32], AllocError>
        requires { AreOfFlash (F.seen flash.now).geometry.sector self.old }
        ensures digest { IfOk result (λ digest. digest
            ≡ flash_digest (F.seen flash.now).geometry (F.seen flash.now).content) }
        ensures kept { OnOk result (AreOfFlash (F.seen flash.now).geometry.sector self.new) }
    {
        let (primary, secondary) = (flash.read(Slot::Primary), flash.read(Slot::Secondary));
        self.digest_of(flash.layout(), primary, secondary)
    }

    /// The digest of a flash whose slots have these bytes.
    ///
    /// # Errors
    ///
    /// Those of `digest`.
    pub fn digest_of(
        &mut self,
        layout: &Layout,
        primary: &[u8],
        secondary: &[u8],
    ) -> Result<[u8; 32], AllocError>
        requires kept { AreOfFlash layout.now.sector self.old }
        requires primary { length primary.now ≡ size_of layout.now Primary }
        requires secondary { length secondary.now ≡ size_of layout.now Secondary }
        ensures digest { IfOk result (λ digest. digest ≡ flash_digest layout.now
            (record { primary = primary.now; secondary = secondary.now })) }
        ensures kept { OnOk result (AreOfFlash layout.now.sector self.new) }
    {
        let size = layout.sector() as usize;
        self.primary.renew(self.alloc, size, primary)?;
        self.secondary.renew(self.alloc, size, secondary)?;
        let mut hasher = Sha256::new();
        self.primary.add_to(&mut hasher);
        self.secondary.add_to(&mut hasher);
        Ok(hasher.finalize())
    }
}

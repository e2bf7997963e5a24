//! The areas of an image, which come in pieces: their heads, and a walk along their entries.
ghost use Rattle.std.specs.Prelude.{◌≡◌, ℕ, List, ◌+◌, ◌≤◌, ◌<◌, [], ◌++◌, length, is_some, true, MatchResult, IfOk, None, Some, ◌==◌, ◌||◌, not};
ghost use Rattle.mc_image.specs.Image.{u16_at, entries_of, entries_in, digests};
ghost use Rattle.mc_image.specs.Valid.{digest_fault, is_bad_area};
ghost use Rattle.mc_image.specs.inner.Reading.{held, head_fault, entries_fault, IsAt, IsOne, IsEntered, Finds, Reaches, Scans, Follows, Goes};

use crate::ImageError;
use crate::entries::{DIGEST, PLAIN_MAGIC, PROTECTED_MAGIC};
use crate::gather::Gather;
use crate::numbers::u16_at;

/// The value of a digest's entry: where it starts among the entries, and its first 33 bytes, which show whether it has
/// 32.
#[derive(Clone, Copy)]
pub(crate) struct DigestValue {
    pub(crate) start: usize,
    pub(crate) bytes: Gather<33>,
}

impl DigestValue {
    /// The value of 32 bytes.
    pub(crate) fn to_array(self) -> [u8; 32]
        requires { length (held self.bytes) ≡ 32 }
        ensures { result ≡ held self.bytes }
    {
        let mut digest = [0u8; 32];
        digest.copy_from_slice(self.bytes.as_slice());
        digest
    }
}

/// The digests in whole entries.
#[derive(Clone, Copy)]
enum Found {
    Nothing,
    One(DigestValue),
    Many,
}

impl Found {
    /// With one digest more, of an entry that is complete.
    fn with(self, value: DigestValue) -> Found
        ensures { (whole begun : List ℕ) → Finds self whole → is_some (entries_of whole) ≡ true
            → IsEntered value (length whole) begun → Finds result (whole ++ begun) }
    {
        match self {
            Found::Nothing => Found::One(value),
            Found::One(_) | Found::Many => Found::Many,
        }
    }
}

/// Where a walk stands.
#[derive(Clone, Copy)]
enum EntryPart {
    /// In an entry's head; with no byte of it, between entries.
    Head(Gather<4>),
    /// In a value of which so many bytes are to come.
    Value(usize),
    /// In the value of a digest's entry, of which so many bytes are to come.
    Digest(usize, DigestValue),
}

impl EntryPart {
    /// The part after some bytes of an entry's head, at a distance from the first entry.
    fn after_head(head: Gather<4>, distance: usize) -> EntryPart
        ensures { (before : ℕ) (begun : List ℕ) → length begun ≤ 4 → held head ≡ begun
            → distance ≡ before + length begun → IsAt result before begun }
    {
        if !head.is_full() {
            return EntryPart::Head(head);
        }
        let left = u16_at(head.as_slice(), 2) as usize;
        if u16_at(head.as_slice(), 0) != DIGEST {
            return EntryPart::Value(left);
        }
        let value = DigestValue {
            start: distance,
            bytes: Gather::new(),
        };
        EntryPart::Digest(left, value)
    }
}

/// A walk along entries.
#[derive(Clone, Copy)]
pub(crate) struct EntryScan {
    /// How many bytes it has passed.
    scanned: usize,
    part: EntryPart,
    found: Found,
}

impl EntryScan {
    /// A walk at the first entry.
    pub(crate) fn new() -> EntryScan
        ensures { Scans result [] }
    {
        EntryScan {
            scanned: 0,
            part: EntryPart::Head(Gather::new()),
            found: Found::Nothing,
        }
    }

    /// Goes on in an entry's head.
    fn in_head<'p>(self, head: Gather<4>, piece: &'p [u8]) -> (EntryScan, &'p [u8])
        requires part { self.part ≡ EntryPart.Head head }
        requires nonempty { 0 < length piece.now }
        requires fits { (bytes : List ℕ) × Scans self bytes
            × (length bytes + length piece.now ≤ 65535) }
        ensures { Goes (Scans self) (Reaches result.0) piece.now result.1.now }
    {
        let (head, rest) = head.with(piece);
        let scanned = self.scanned + (piece.len() - rest.len());
        let part = EntryPart::after_head(head, scanned);
        (
            EntryScan {
                scanned,
                part,
                found: self.found,
            },
            rest,
        )
    }

    /// Goes on in a value.
    fn in_value<'p>(self, left: usize, piece: &'p [u8]) -> (EntryScan, &'p [u8])
        requires part { self.part ≡ EntryPart.Value left }
        requires nonempty { 0 < length piece.now }
        requires fits { (bytes : List ℕ) × Scans self bytes
            × (length bytes + length piece.now ≤ 65535) }
        ensures { Goes (Scans self) (Reaches result.0) piece.now result.1.now }
    {
        let taken = left.min(piece.len());
        (
            EntryScan {
                scanned: self.scanned + taken,
                part: EntryPart::Value(left - taken),
                found: self.found,
            },
            &piece[taken..],
        )
    }

    /// Goes on in the value of a digest's entry.
    fn in_digest<'p>(
        self,
        left: usize,
        value: DigestValue,
        piece: &'p [u8],
    ) -> (EntryScan, &'p [u8])
        requires part { self.part ≡ EntryPart.Digest left value }
        requires nonempty { 0 < length piece.now }
        requires fits { (bytes : List ℕ) × Scans self bytes
            × (length bytes + length piece.now ≤ 65535) }
        ensures { Goes (Scans self) (Reaches result.0) piece.now result.1.now }
    {
        let taken = left.min(piece.len());
        let (bytes, _) = value.bytes.with(&piece[..taken]);
        let value = DigestValue {
            start: value.start,
            bytes,
        };
        (
            EntryScan {
                scanned: self.scanned + taken,
                part: EntryPart::Digest(left - taken, value),
                found: self.found,
            },
            &piece[taken..],
        )
    }

    /// Between entries, with these digests.
    fn between_entries(self, found: Found) -> EntryScan
        ensures { (bytes : List ℕ) → Reaches self bytes → is_some (entries_of bytes) ≡ true
            → Finds found bytes → Scans result bytes }
    {
        EntryScan {
            scanned: self.scanned,
            part: EntryPart::Head(Gather::new()),
            found,
        }
    }

    /// Goes on in the entry that is begun.
    fn feed_entry<'p>(self, piece: &'p [u8]) -> (EntryScan, &'p [u8])
        requires nonempty { 0 < length piece.now }
        requires fits { (bytes : List ℕ) × Scans self bytes
            × (length bytes + length piece.now ≤ 65535) }
        ensures { Goes (Scans self) (Reaches result.0) piece.now result.1.now }
    {
        match self.part {
            EntryPart::Head(head) => self.in_head(head, piece),
            EntryPart::Value(left) => self.in_value(left, piece),
            EntryPart::Digest(left, value) => self.in_digest(left, value, piece),
        }
    }

    /// Passes an entry that is complete.
    fn finish_entry(self) -> EntryScan
        ensures { (bytes : List ℕ) → Reaches self bytes → Scans result bytes }
    {
        match self.part {
            EntryPart::Head(_) => self,
            EntryPart::Value(left) => {
                if left > 0 {
                    return self;
                }
                self.between_entries(self.found)
            }
            EntryPart::Digest(left, value) => {
                if left > 0 {
                    return self;
                }
                self.between_entries(self.found.with(value))
            }
        }
    }

    /// Goes along the first bytes of a piece, one at least, and leaves the rest.
    fn step<'p>(self, piece: &'p [u8]) -> (EntryScan, &'p [u8])
        requires nonempty { 0 < length piece.now }
        requires fits { (bytes : List ℕ) × Scans self bytes
            × (length bytes + length piece.now ≤ 65535) }
        ensures { Goes (Scans self) (Scans result.0) piece.now result.1.now }
    {
        let (scan, rest) = self.feed_entry(piece);
        (scan.finish_entry(), rest)
    }

    /// Goes along a piece.
    pub(crate) fn feed(self, piece: &[u8]) -> EntryScan
        requires { (bytes : List ℕ) × Scans self bytes × (length bytes + length piece.now ≤ 65535) }
        ensures { (bytes : List ℕ) → Scans self bytes → Scans result (bytes ++ piece.now) }
    {
        let mut scan = self;
        let mut rest = piece;
        while !rest.is_empty() {
            (scan, rest) = scan.step(rest);
        }
        scan
    }

    /// Whether it stands between entries.
    pub(crate) fn is_between(&self) -> bool
        ensures { (bytes : List ℕ) → Scans self.now bytes → result ≡ is_some (entries_of bytes) }
    {
        match self.part {
            EntryPart::Head(head) => head.is_empty(),
            EntryPart::Value(_) | EntryPart::Digest(_, _) => false,
        }
    }

    /// The value of the one entry of the digest's type, of 32 bytes.
    fn found_digest(&self) -> Result<DigestValue, ImageError>
        ensures len { IfOk result (λ v. length (held v.bytes) ≡ 32) }
        ensures exact { (bytes : List ℕ) → Scans self.now bytes → is_some (entries_of bytes) ≡ true
            → MatchResult result (λ v. IsOne v bytes)
            (λ e. digest_fault (digests (entries_in bytes)) ≡ Some e) }
    {
        match self.found {
            Found::Nothing => Err(ImageError::NoDigest),
            Found::Many => Err(ImageError::ManyDigests),
            Found::One(value) => {
                if value.bytes.len() == 32 {
                    Ok(value)
                } else {
                    Err(ImageError::DigestLength)
                }
            }
        }
    }

    /// The value of the one entry of the digest's type, of 32 bytes, if entries fill the bytes.
    #[tactic(auto, unfolding(crate::specs::inner::Reading::entries_fault))]
    pub(crate) fn digest(&self) -> Result<DigestValue, ImageError>
        ensures len { IfOk result (λ v. length (held v.bytes) ≡ 32) }
        ensures exact { (bytes : List ℕ) → Scans self.now bytes → MatchResult result
            (λ v. (is_some (entries_of bytes) ≡ true) × IsOne v bytes)
            (λ e. entries_fault bytes ≡ Some e) }
    {
        if !self.is_between() {
            return Err(ImageError::BadTlvLength);
        }
        self.found_digest()
    }
}

/// The length of the plain area that the bytes begin with, by its head.
#[tactic(auto, unfolding(crate::specs::inner::Reading::head_fault))]
pub(crate) fn plain_total(bytes: &[u8]) -> Result<u16, ImageError>
    ensures { MatchResult result (λ n. (head_fault bytes.now ≡ None) × (4 ≤ length bytes.now)
        × (4 ≤ n) × (n ≡ u16_at 2 bytes.now)) (λ e. head_fault bytes.now ≡ Some e) }
{
    if bytes.len() < 4 || u16_at(bytes, 0) != PLAIN_MAGIC {
        return Err(ImageError::BadTlvMagic);
    }
    let total = u16_at(bytes, 2);
    if total < 4 {
        return Err(ImageError::BadTlvLength);
    }
    Ok(total)
}

/// Whether a head is that of no protected area of this length.
fn is_other_head(head: &[u8], total: u16) -> bool
    requires { 4 ≤ length head.now }
    ensures { result ≡ (not (u16_at 0 head.now == 0x6908) || not (u16_at 2 head.now == total)) }
{
    u16_at(head, 0) != PROTECTED_MAGIC || u16_at(head, 2) != total
}

/// A protected area, as far as it has come.
#[derive(Clone, Copy)]
pub(crate) struct ProtectedArea {
    head: Gather<4>,
    scan: EntryScan,
}

impl ProtectedArea {
    /// No byte of an area.
    pub(crate) fn new() -> ProtectedArea
        ensures { Follows result [] }
    {
        ProtectedArea {
            head: Gather::new(),
            scan: EntryScan::new(),
        }
    }

    /// Goes along a piece.
    pub(crate) fn feed(self, piece: &[u8]) -> ProtectedArea
        requires { (bytes : List ℕ) × Follows self bytes
            × (length bytes + length piece.now ≤ 65535) }
        ensures { (bytes : List ℕ) → Follows self bytes → Follows result (bytes ++ piece.now) }
    {
        let (head, entries) = self.head.with(piece);
        let scan = self.scan.feed(entries);
        ProtectedArea { head, scan }
    }

    /// Whether the bytes so far, of this length, are no protected area that its entries fill exactly.
    pub(crate) fn is_bad(&self, total: u16) -> bool
        ensures { (bytes : List ℕ) → Follows self.now bytes → total ≡ length bytes
            → result ≡ is_bad_area 0x6908 bytes }
    {
        if !self.head.is_full() {
            return true;
        }
        if is_other_head(self.head.as_slice(), total) {
            return true;
        }
        !self.scan.is_between()
    }
}

//! An image judged as its bytes come, in pieces of any length.
ghost use Rattle.std.specs.Prelude.{◌≡◌, ℕ, List, ◌+◌, ◌≤◌, ◌<◌, ◌^◌, [], ◌++◌, length, None};
ghost use Rattle.sha2.specs.Hashers.{Holds256};
ghost use Rattle.mc_image.specs.Image.{IsBytes, payload_end, protected_end};
ghost use Rattle.mc_image.specs.Valid.{protected_fault};
ghost use Rattle.mc_image.specs.inner.Reading.{held, Goes};
ghost use Rattle.mc_image.specs.inner.Judging.{HasHeader, IsSealed, IsPlain};
ghost use Rattle.mc_image.specs.Judging.{Finishes, Judges};
ghost use Rattle.mc_image.specs.Verdict.{verdict};

use crate::areas::{EntryScan, ProtectedArea, plain_total};
use crate::gather::Gather;
use crate::header::{FIELDS, Header};
use crate::view::are_same;
use crate::{ImageError, Version};
use sha2::{Digest, Sha256};

/// What is known of a valid image.
#[derive(Clone, Copy, Debug, PartialEq, Eq)]
pub struct Judged {
    /// The version in the header.
    pub version: Version,
    /// The image's length in bytes, from the header's first to the plain area's last.
    pub size: u64,
    /// The 32 bytes of the digest's entry.
    pub digest: [u8; 32],
}

/// What is kept of header, payload and protected area.
#[derive(Clone, Copy)]
struct Sealed {
    header: Header,
    /// Their digest.
    digest: [u8; 32],
}

/// What comes next.
#[derive(Clone, Copy)]
enum Stage {
    /// The header's fields.
    Fields(Gather<32>),
    /// So many bytes of header and payload.
    Payload(Header, u64),
    /// So many bytes of the protected area.
    Protected(Header, usize, ProtectedArea),
    /// The plain area's magic and total.
    PlainHead(Sealed, Gather<4>),
    /// In a plain area of this length, so many bytes.
    Plain(Sealed, u16, usize, EntryScan),
    /// Nothing that would change the answer.
    Over(Result<Judged, ImageError>),
}

/// Judges the image that some bytes begin with, as they come: other bytes may follow it. It takes no memory, and it
/// does not matter how the bytes are cut into pieces.
#[derive(Drop)]
pub struct Judge {
    stage: Stage,
    /// Of the bytes so far, up to the end of the protected area.
    hasher: Sha256,
}

/// The answer for a plain area of this length after header, payload and protected area.
fn answer_of(sealed: &Sealed, total: u16, scan: &EntryScan) -> Result<Judged, ImageError>
    ensures { (body area : List ℕ) → IsSealed sealed.now body → IsPlain total 0 scan.now area
        → (more : List ℕ) → IsBytes (body ++ (area ++ more)) → verdict (body ++ (area ++ more))
        ≡ result }
{
    let digest = scan.digest()?.to_array();
    if are_same(digest.as_slice(), sealed.digest.as_slice()) {
        Ok(Judged {
            version: sealed.header.version,
            size: sealed.header.body_len() + total as u64,
            digest,
        })
    } else {
        Err(ImageError::WrongDigest)
    }
}

impl Judge {
    /// A judge of no bytes.
    /// Promised, also of `feed` and `finish`: bytes in pieces: the first fault, or version, size, digest (`Judges`, `Finishes`).
    pub fn new() -> Judge
        ensures { Judges result [] }
    {
        Judge {
            stage: Stage::Fields(Gather::new()),
            hasher: Sha256::new(),
        }
    }

    /// After header, payload and protected area.
    fn seal(&mut self, header: Header)
        ensures { (bytes : List ℕ) → IsBytes bytes → Holds256 self.old.hasher bytes
            → HasHeader header bytes → length bytes ≡ protected_end bytes
            → protected_fault bytes ≡ None → Judges self.new bytes }
    {
        let digest = self.hasher.finalize_reset();
        self.stage = Stage::PlainHead(Sealed { header, digest }, Gather::new());
    }

    /// After header and payload.
    fn after_payload(&mut self, header: Header)
        ensures { (bytes : List ℕ) → IsBytes bytes → Holds256 self.old.hasher bytes
            → HasHeader header bytes → length bytes ≡ payload_end bytes → Judges self.new bytes }
    {
        if header.protected == 0 {
            self.seal(header);
        } else {
            let left = header.protected as usize;
            self.stage = Stage::Protected(header, left, ProtectedArea::new());
        }
    }

    /// After the header's fields.
    fn after_fields(&mut self, fields: Gather<32>)
        ensures { (bytes : List ℕ) → IsBytes bytes → Holds256 self.old.hasher bytes
            → held fields ≡ bytes → length bytes ≡ 32 → Judges self.new bytes }
    {
        match Header::read(fields.as_slice()) {
            Err(error) => self.stage = Stage::Over(Err(error)),
            Ok(header) => {
                let left = header.payload_end() - FIELDS as u64;
                if left > 0 {
                    self.stage = Stage::Payload(header, left);
                } else {
                    self.after_payload(header);
                }
            }
        }
    }

    /// Takes bytes of the header's fields.
    fn in_fields<'p>(&mut self, fields: Gather<32>, piece: &'p [u8]) -> &'p [u8]
        requires stage { self.old.stage ≡ Stage.Fields fields }
        requires nonempty { 0 < length piece.now }
        requires fed { (bytes : List ℕ) × Judges self.old bytes }
        ensures { Goes (Judges self.old) (Judges self.new) piece.now result.now }
    {
        let (fields, rest) = fields.with(piece);
        self.hasher.update(&piece[..piece.len() - rest.len()]);
        if fields.is_full() {
            self.after_fields(fields);
        } else {
            self.stage = Stage::Fields(fields);
        }
        rest
    }

    /// Takes bytes of the rest of the header and of the payload.
    fn in_payload<'p>(&mut self, header: Header, left: u64, piece: &'p [u8]) -> &'p [u8]
        requires stage { self.old.stage ≡ Stage.Payload header left }
        requires nonempty { 0 < length piece.now }
        requires fed { (bytes : List ℕ) × Judges self.old bytes }
        ensures { Goes (Judges self.old) (Judges self.new) piece.now result.now }
    {
        let taken = left.min(piece.len() as u64);
        let (covered, rest) = piece.split_at(taken as usize);
        self.hasher.update(covered);
        if left > taken {
            self.stage = Stage::Payload(header, left - taken);
        } else {
            self.after_payload(header);
        }
        rest
    }

    /// Takes bytes of the protected area. Its fault is reported only once it is whole.
    fn in_protected<'p>(
        &mut self,
        header: Header,
        left: usize,
        area: ProtectedArea,
        piece: &'p [u8],
    ) -> &'p [u8]
        requires stage { self.old.stage ≡ Stage.Protected header left area }
        requires nonempty { 0 < length piece.now }
        requires fed { (bytes : List ℕ) × Judges self.old bytes }
        ensures { Goes (Judges self.old) (Judges self.new) piece.now result.now }
    {
        let taken = left.min(piece.len());
        let (inside, rest) = piece.split_at(taken);
        self.hasher.update(inside);
        let area = area.feed(inside);
        if left > taken {
            self.stage = Stage::Protected(header, left - taken, area);
        } else if area.is_bad(header.protected) {
            self.stage = Stage::Over(Err(ImageError::BadProtected));
        } else {
            self.seal(header);
        }
        rest
    }

    /// In the plain area, of which so many bytes are left.
    fn continue_plain(&mut self, sealed: Sealed, total: u16, left: usize, scan: EntryScan)
        ensures { (body area : List ℕ) → IsBytes (body ++ area) → IsSealed sealed body
            → IsPlain total left scan area → Judges self.new (body ++ area) }
    {
        if left > 0 {
            self.stage = Stage::Plain(sealed, total, left, scan);
        } else {
            self.stage = Stage::Over(answer_of(&sealed, total, &scan));
        }
    }

    /// After the head of the plain area.
    fn after_head(&mut self, sealed: Sealed, head: Gather<4>)
        ensures { (body rest : List ℕ) → IsBytes (body ++ rest) → IsSealed sealed body
            → held head ≡ rest → length rest ≡ 4 → Judges self.new (body ++ rest) }
    {
        match plain_total(head.as_slice()) {
            Err(error) => self.stage = Stage::Over(Err(error)),
            Ok(total) => self.continue_plain(sealed, total, total as usize - 4, EntryScan::new()),
        }
    }

    /// Takes bytes of the head of the plain area.
    fn in_plain_head<'p>(&mut self, sealed: Sealed, head: Gather<4>, piece: &'p [u8]) -> &'p [u8]
        requires stage { self.old.stage ≡ Stage.PlainHead sealed head }
        requires nonempty { 0 < length piece.now }
        requires fed { (bytes : List ℕ) × Judges self.old bytes }
        ensures { Goes (Judges self.old) (Judges self.new) piece.now result.now }
    {
        let (head, rest) = head.with(piece);
        if head.is_full() {
            self.after_head(sealed, head);
        } else {
            self.stage = Stage::PlainHead(sealed, head);
        }
        rest
    }

    /// Takes bytes of the entries of the plain area.
    fn in_plain<'p>(
        &mut self,
        sealed: Sealed,
        total: u16,
        left: usize,
        scan: EntryScan,
        piece: &'p [u8],
    ) -> &'p [u8]
        requires stage { self.old.stage ≡ Stage.Plain sealed total left scan }
        requires nonempty { 0 < length piece.now }
        requires fed { (bytes : List ℕ) × Judges self.old bytes }
        ensures { Goes (Judges self.old) (Judges self.new) piece.now result.now }
    {
        let taken = left.min(piece.len());
        let (inside, rest) = piece.split_at(taken);
        self.continue_plain(sealed, total, left - taken, scan.feed(inside));
        rest
    }

    /// Takes the first bytes of a piece, one at least, and leaves the rest.
    fn advance<'p>(&mut self, piece: &'p [u8]) -> &'p [u8]
        requires nonempty { 0 < length piece.now }
        requires fed { (bytes : List ℕ) × Judges self.old bytes }
        ensures { Goes (Judges self.old) (Judges self.new) piece.now result.now }
    {
        match self.stage {
            Stage::Fields(fields) => self.in_fields(fields, piece),
            Stage::Payload(header, left) => self.in_payload(header, left, piece),
            Stage::Protected(header, left, area) => self.in_protected(header, left, area, piece),
            Stage::PlainHead(sealed, head) => self.in_plain_head(sealed, head, piece),
            Stage::Plain(sealed, total, left, scan) => {
                self.in_plain(sealed, total, left, scan, piece)
            }
            Stage::Over(_) => &piece[piece.len()..],
        }
    }

    /// Goes on with the bytes that follow those before, at most 2^32 in all.
    pub fn feed(&mut self, piece: &[u8])
        requires { (bytes : List ℕ) × Judges self.old bytes
            × (length bytes + length piece.now ≤ 2 ^ 32) }
        ensures { (bytes : List ℕ) → Judges self.old bytes → Judges self.new (bytes ++ piece.now) }
    {
        let mut rest = piece;
        while !rest.is_empty() {
            rest = self.advance(rest);
        }
    }

    /// The answer for the bytes so far.
    ///
    /// # Errors
    ///
    /// The first fault, a wrong digest last, in the order of `ImageError`.
    pub fn finish(&self) -> Result<Judged, ImageError>
        ensures { Finishes self.now result }
    {
        match self.stage {
            Stage::Fields(_) => Err(ImageError::Truncated),
            Stage::Payload(_, _) => Err(ImageError::TruncatedBody),
            Stage::Protected(_, _, _) => Err(ImageError::TruncatedBody),
            Stage::PlainHead(_, _) => Err(ImageError::BadTlvMagic),
            Stage::Plain(_, _, _, _) => Err(ImageError::BadTlvLength),
            Stage::Over(answer) => answer,
        }
    }
}

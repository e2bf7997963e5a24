//! Laws of the definitions, each the contract of a function that does nothing.
ghost use Rattle.std.specs.Prelude.{◌≡◌, ℕ, List, None, Some, true, length, take, ◌↔◌, Result};
ghost use Rattle.std.specs.List.{concat};
ghost use Rattle.mc_image.specs.Image.{IsBytes, Image, Begins, image_in, image_text};
ghost use Rattle.mc_image.specs.Valid.{first_fault, IsValid, Identity, identity, is_valid, id_of, image_fault};
ghost use Rattle.mc_image.specs.Judging.{Judges, Finishes};
ghost use Rattle.mc_image.specs.declared.error.ImageError.{ImageError};
ghost use Rattle.mc_image.specs.declared.judge.Judge.{Judge};
ghost use Rattle.mc_image.specs.declared.judge.Judged.{Judged};

/// One reading: bytes have no fault exactly where an image is encoded at their start, and that image and that prefix
/// are then the only ones.
/// Promised: one reading: no fault exactly where one image begins (`begins`, `only`, `one`).
pub fn one_reading()
    ensures begins { (b : List ℕ) → IsBytes b → first_fault b ≡ None → Begins b (image_in b) }
    ensures only { (b : List ℕ) (v : Image) → Begins b v → first_fault b ≡ None }
    ensures one { (b : List ℕ) (v w : Image) → Begins b v → Begins b w → v ≡ w }
{}

/// The test of a valid image, the identity and the last fault are those of the one image that the bytes begin with.
/// Promised: test, identity and last fault are that image's (`valid`, `same`, `none`, `fault`).
pub fn valid_bytes()
    ensures valid { (b : List ℕ) → IsBytes b → (is_valid b ≡ true) ↔ IsValid b }
    ensures same { (b : List ℕ) (h : IsValid b) → id_of b ≡ Some (identity h.image) }
    ensures none { (b : List ℕ) → (IsValid b → ⊥) → IsBytes b → id_of b ≡ None }
    ensures fault { (b : List ℕ) → IsBytes b → (image_fault b ≡ None) ↔ IsValid b }
{}

/// Byte lists that agree as far as the image goes that one of them begins with begin with the same image.
/// Promised: bytes that agree with an image begin with it (`begins`, `id`).
pub fn same_prefix()
    ensures begins { (b c : List ℕ) (v : Image) → Begins b v
        → take (length (image_text v)) c ≡ take (length (image_text v)) b → Begins c v }
    ensures id { (b c : List ℕ) (i : Identity) → IsBytes b → id_of b ≡ Some i
        → take i.size c ≡ take i.size b → id_of c ≡ Some i }
{}

/// Any cut: judges that were fed one list of bytes, however it was cut into pieces, answer the same.
/// Promised: pieces give the same however they are cut (`Finishes`).
pub fn any_cut()
    ensures { (pieces others : List (List ℕ)) → concat pieces ≡ concat others
        → (first second : Judge) → Judges first (concat pieces) → Judges second (concat others)
        → (r s : Result Judged ImageError) → Finishes first r → Finishes second s → r ≡ s }
{}

/// What a slice holds are bytes.
#[inline]
pub fn are_bytes(bytes: &[u8])
    ensures { IsBytes bytes.now }
{}

//! The first bytes of a list that comes in pieces.
ghost use Rattle.std.specs.Prelude.{◌≤◌};

/// Room for `N` bytes, filled from the start.
#[derive(Clone, Copy)]
pub(crate) struct Gather<const N: usize> {
    bytes: [u8; N],
    count: usize,
    ghost within: { count ≤ N },
}

impl<const N: usize> Gather<N> {
    ghost use Rattle.std.specs.Prelude.{◌≡◌, ◌-◌, ◌≤◌, [], ◌++◌, length, take, drop, ◌==◌};
    ghost use Rattle.mc_image.specs.inner.Reading.{held};

    /// No bytes.
    #[tactic(auto, unfolding(crate::specs::inner::Reading::held))]
    pub(crate) fn new() -> Gather<N>
        ensures { held result ≡ [] }
    {
        Gather {
            bytes: [0; N],
            count: 0,
        }
    }

    /// These bytes and those of a piece, as far as there is room, and the rest of the piece.
    #[tactic(auto, unfolding(crate::specs::inner::Reading::held))]
    pub(crate) fn with<'p>(self, piece: &'p [u8]) -> (Gather<N>, &'p [u8])
        ensures held { held result.0 ≡ take N (held self.entry ++ piece.now) }
        ensures rest { result.1.now ≡ drop (N - length (held self.entry)) piece.now }
    {
        let taken = (N - self.count).min(piece.len());
        let end = self.count + taken;
        let mut bytes = self.bytes;
        let room = &mut bytes[..];
        room[self.count..end].copy_from_slice(&piece[..taken]);
        (Gather { bytes, count: end }, &piece[taken..])
    }

    /// The bytes that are there.
    #[tactic(auto, unfolding(crate::specs::inner::Reading::held))]
    pub(crate) fn as_slice(&self) -> &[u8]
        ensures bytes { result.now ≡ held self.now }
        ensures within { length result.now ≤ N }
    {
        &self.bytes.as_slice()[..self.count]
    }

    /// Whether there is no more room.
    #[tactic(auto, unfolding(crate::specs::inner::Reading::held))]
    pub(crate) fn is_full(&self) -> bool
        ensures { result ≡ (length (held self.now) == N) }
    {
        self.count == N
    }

    /// Whether no byte is there.
    #[tactic(auto, unfolding(crate::specs::inner::Reading::held))]
    pub(crate) fn is_empty(&self) -> bool
        ensures { result ≡ (length (held self.now) == 0) }
    {
        self.count == 0
    }

    /// How many bytes are there.
    #[tactic(auto, unfolding(crate::specs::inner::Reading::held))]
    pub(crate) fn len(&self) -> usize
        ensures { result ≡ length (held self.now) }
    {
        self.count
    }
}

//! The pieces of a list.
ghost use Rattle.std.specs.Prelude.{◌≡◌, ◌∷◌, ◌++◌, MatchOption};
ghost use Rattle.life_gate.specs.declared.media.pieces.Place.TheVariants.{Outside};
ghost use Rattle.life_gate.specs.MediaList.{comma, IsPiece, IsLastPiece};
ghost use Rattle.life_gate.specs.Scanning.{ends, after, piece_len};

/// Where a byte of a list stands.
#[derive(Clone, Copy)]
enum Place {
    /// In no quoted part.
    Outside,
    /// In a quoted part.
    Quoted,
    /// Behind a backslash in a quoted part.
    Escaped,
}

impl Place {
    /// Whether the byte ends a piece here.
    fn ends_at(self, byte: u8) -> bool
        ensures { result ≡ ends self byte }
    {
        match self {
            Place::Outside => byte == b',',
            Place::Quoted | Place::Escaped => false,
        }
    }

    /// The place of the next byte.
    fn after(self, byte: u8) -> Place
        ensures { result ≡ after self byte }
    {
        match self {
            Place::Outside if byte == b'"' => Place::Quoted,
            Place::Outside => Place::Outside,
            Place::Quoted if byte == b'"' => Place::Outside,
            Place::Quoted if byte == b'\\' => Place::Escaped,
            Place::Quoted | Place::Escaped => Place::Quoted,
        }
    }
}

/// How many bytes the first piece has.
fn piece_len(text: &[u8]) -> usize
    ensures { result ≡ piece_len Outside text.now }
{
    let mut place = Place::Outside;
    for (i, byte) in text.iter().enumerate() {
        if place.ends_at(*byte) {
            return i;
        }
        place = place.after(*byte);
    }
    text.len()
}

/// The first piece and what stands after its comma, or none where the text is one piece.
pub fn cut(text: &[u8]) -> Option<(&[u8], &[u8])>
    ensures { MatchOption result (IsLastPiece text.now)
        (λ found. IsPiece found.0.now × (text.now ≡ found.0.now ++ comma ∷ found.1.now)) }
{
    let (piece, rest) = text.split_at(piece_len(text));
    match rest {
        [_, rest @ ..] => Some((piece, rest)),
        [] => None,
    }
}

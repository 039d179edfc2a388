//! Where bytes go that come in pieces.
ghost use Rattle.std.specs.Prelude.{List, ℕ, [], ◌++◌};

/// What takes bytes piece by piece, as the body of a message comes. Whoever hands them on holds no more than one piece.
pub trait Body {
    ghost use Rattle.std.specs.Prelude.{List, ℕ};

    /// The new one is the old one after these bytes, in whatever pieces they came.
    ghost took: { Self → Self → List ℕ → Type 0 };

    /// Takes the next piece.
    fn take(&mut self, piece: &[u8])
        ensures { took self.old self.new piece.now };

    /// Law: without a byte it stays.
    ghost stays: { (b : Self) → took b b [] };

    /// Law: bytes behind bytes are both, in their order.
    ghost joined: { (a b c : Self) (first second : List ℕ) → took a b first → took b c second → took a c (first ++ second) };
}

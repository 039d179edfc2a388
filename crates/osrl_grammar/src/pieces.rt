//! The pieces of a text.

ghost use Rattle.std.specs.Prelude.{◌≡◌, ◌≢◌, ◌↔◌, ◌++◌, ◌∷◌, [], ℕ, List, IsTrue, MatchOption, None, Some, length};
ghost use Rattle.osrl_grammar.specs.Numbers.{IsFree};
ghost use Rattle.osrl_grammar.specs.Pieces as pieces;
ghost use Rattle.osrl_grammar.specs.Pieces.{more};

/// The text before the first such byte, and the text behind it; or all of it, where it has no such byte.
pub(crate) fn cut(text: &[u8], byte: u8) -> (&[u8], Option<&[u8]>)
    ensures free { IsFree byte result.0.now }
    ensures parts { MatchOption result.1 (text.now ≡ result.0.now) (λ rest. text.now ≡ result.0.now ++ byte ∷ rest.now) }
{
    for i in 0..text.len() {
        if text[i] == byte {
            return (&text[..i], Some(&text[i + 1..]));
        }
    }
    (text, None)
}

/// Whether the text is without this byte.
pub(crate) fn is_free(text: &[u8], byte: u8) -> bool
    ensures { IsTrue result ↔ IsFree byte text.now }
{
    match cut(text, byte) {
        (_, None) => true,
        (_, Some(_)) => false,
    }
}

/// What stands before and behind the first colon of a piece, if it has one.
pub(crate) fn parted(piece: &[u8]) -> Option<(&[u8], &[u8])>
    ensures { MatchOption result (pieces.parted piece.now ≡ None) (λ p. pieces.parted piece.now ≡ Some (record { column = p.0.now; factor = p.1.now })) }
{
    let (column, behind) = cut(piece, b':');
    match behind {
        Some(factor) => Some((column, factor)),
        None => None,
    }
}

/// The first piece of a text, and what stands behind it.
pub(crate) fn first_piece(text: &[u8]) -> (&[u8], Option<&[u8]>)
    ensures { pieces.pieces text.now ≡ result.0.now ∷ more result.1 }
{
    cut(text, b' ')
}

/// The same, where there is a text.
pub(crate) fn next(rest: Option<&[u8]>) -> Option<(&[u8], Option<&[u8]>)>
    ensures { MatchOption result (more rest.entry ≡ []) (λ p. more rest.entry ≡ p.0.now ∷ more p.1) }
{
    match rest {
        Some(text) => Some(first_piece(text)),
        None => None,
    }
}

/// The piece, where there is just one.
pub(crate) fn one_piece(rest: Option<&[u8]>) -> Option<&[u8]>
    ensures { MatchOption result (length (more rest.entry) ≢ 1) (λ a. more rest.entry ≡ a.now ∷ []) }
{
    let (a, rest) = next(rest)?;
    if rest.is_some() { None } else { Some(a) }
}

/// The pieces, where there are just two.
pub(crate) fn two_pieces(rest: Option<&[u8]>) -> Option<(&[u8], &[u8])>
    ensures { MatchOption result (length (more rest.entry) ≢ 2) (λ p. more rest.entry ≡ p.0.now ∷ p.1.now ∷ []) }
{
    let (a, rest) = next(rest)?;
    let b = one_piece(rest)?;
    Some((a, b))
}

/// The pieces, where there are just three.
pub(crate) fn three_pieces(rest: Option<&[u8]>) -> Option<(&[u8], &[u8], &[u8])>
    ensures { MatchOption result (length (more rest.entry) ≢ 3) (λ p. more rest.entry ≡ p.0.now ∷ p.1.now ∷ p.2.now ∷ []) }
{
    let (a, rest) = next(rest)?;
    let (b, c) = two_pieces(rest)?;
    Some((a, b, c))
}

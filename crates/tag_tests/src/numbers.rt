//! Numbers of one tag that are read together.

ghost use Rattle.std.specs.Prelude.{◌≡◌, MatchResult, Ok};
ghost use Rattle.tag_tests.specs.Fields.{IsFirstOf};

/// Why a number isn't read. Of a tag with both kinds the first is told.
#[derive(Clone, Copy, PartialEq, Eq, Drop)]
pub enum Unread {
    /// A text isn't of its grammar.
    NotNumber,
    /// A number is too great.
    Wide,
}

/// Both numbers, or `NotNumber` where one of them is so, and else `Wide`.
pub fn both<A: Drop, B: Drop>(a: Result<A, Unread>, b: Result<B, Unread>) -> Result<(A, B), Unread>
    ensures { MatchResult result (λ x. (a ≡ Ok x.0) × (b ≡ Ok x.1)) (IsFirstOf a b) }
{
    match (a, b) {
        (Ok(a), Ok(b)) => Ok((a, b)),
        (Err(Unread::NotNumber), _) => Err(Unread::NotNumber),
        (_, Err(Unread::NotNumber)) => Err(Unread::NotNumber),
        _ => Err(Unread::Wide),
    }
}

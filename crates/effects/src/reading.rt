//! Records, read.

ghost use Rattle.std.specs.Prelude.{◌≡◌, ◌<◌, ◌≤◌, ◌++◌, ◌∷◌, List, ℕ, Option, length, IfSome, IfNone};
ghost use Rattle.std.specs.Int.{w32, to_be_bytes};
ghost use Rattle.effects.specs.Records.{Deed, number, text, document, body, Fits, FitsPaper, most_text, deed_of, paper_of};

use crate::kinds::{Document, Effect};
use os_io::MOST_BYTES;

/// The most bytes of a text.
const MOST_TEXT: u32 = MOST_BYTES as u32;

fn take_number(bytes: &[u8]) -> Option<(u64, &[u8])>
    ensures some { IfSome result (λ r. bytes.now ≡ number r.0 ++ r.1.now) }
    ensures none { IfNone result (length bytes.now < 8) }
{
    match bytes {
        [a, b, c, d, e, f, g, h, rest @ ..] => {
            Some((u64::from_be_bytes([*a, *b, *c, *d, *e, *f, *g, *h]), rest))
        }
        _ => None,
    }
}

fn take_length(bytes: &[u8]) -> Option<(u32, &[u8])>
    ensures some { IfSome result (λ r. bytes.now ≡ to_be_bytes w32 r.0 ++ r.1.now) }
    ensures none { IfNone result (length bytes.now < 4) }
{
    match bytes {
        [a, b, c, d, rest @ ..] => Some((u32::from_be_bytes([*a, *b, *c, *d]), rest)),
        _ => None,
    }
}

fn take_text(bytes: &[u8]) -> Option<(&[u8], &[u8])>
    ensures some { IfSome result (λ r. (bytes.now ≡ text r.0.now ++ r.1.now) × (length r.0.now ≤ most_text)) }
    ensures none { IfNone result ((t rest : List ℕ) → length t ≤ most_text → bytes.now ≡ text t ++ rest → ⊥) }
{
    let (length, rest) = take_length(bytes)?;
    if length > MOST_TEXT || length as usize > rest.len() {
        return None;
    }
    Some(rest.split_at(length as usize))
}

fn take_document(bytes: &[u8]) -> Option<(Document<'_>, &[u8])>
    ensures some { IfSome result (λ r. (bytes.now ≡ document (paper_of r.0) ++ r.1.now) × FitsPaper (paper_of r.0)) }
    ensures none { IfNone result ((d : Option (List ℕ)) (rest : List ℕ) → FitsPaper d → bytes.now ≡ document d ++ rest → ⊥) }
{
    match bytes {
        [0, rest @ ..] => Some((Document::Missing, rest)),
        [1, rest @ ..] => match take_text(rest) {
            Some((text, rest)) => Some((Document::Kept { text }, rest)),
            None => None,
        },
        _ => None,
    }
}

fn take_texts(bytes: &[u8]) -> Option<(&[u8], &[u8], &[u8])>
    ensures some { IfSome result (λ r. (bytes.now ≡ text r.0.now ++ text r.1.now ++ r.2.now) × (length r.0.now ≤ most_text) × (length r.1.now ≤ most_text)) }
    ensures none { IfNone result ((t u rest : List ℕ) → length t ≤ most_text → length u ≤ most_text → bytes.now ≡ text t ++ text u ++ rest → ⊥) }
{
    match take_text(bytes) {
        Some((osil, rest)) => match take_text(rest) {
            Some((osol, rest)) => Some((osil, osol, rest)),
            None => None,
        },
        None => None,
    }
}

fn take_sent(bytes: &[u8]) -> Option<(Effect<'_>, &[u8])>
    ensures some { IfSome result (λ r. (2 ∷ bytes.now ≡ body (deed_of r.0) ++ r.1.now) × Fits (deed_of r.0)) }
    ensures none { IfNone result ((d : Deed) (rest : List ℕ) → Fits d → 2 ∷ bytes.now ≡ body d ++ rest → ⊥) }
{
    let (number, rest) = take_number(bytes)?;
    let (osil, osol, rest) = take_texts(rest)?;
    Some((Effect::Send { number, osil, osol }, rest))
}

fn take_entered(bytes: &[u8]) -> Option<(Effect<'_>, &[u8])>
    ensures some { IfSome result (λ r. (3 ∷ bytes.now ≡ body (deed_of r.0) ++ r.1.now) × Fits (deed_of r.0)) }
    ensures none { IfNone result ((d : Deed) (rest : List ℕ) → Fits d → 3 ∷ bytes.now ≡ body d ++ rest → ⊥) }
{
    let (osil, osol, rest) = take_texts(bytes)?;
    Some((Effect::Enter { osil, osol }, rest))
}

fn take_finished(bytes: &[u8]) -> Option<(Effect<'_>, &[u8])>
    ensures some { IfSome result (λ r. (4 ∷ bytes.now ≡ body (deed_of r.0) ++ r.1.now) × Fits (deed_of r.0)) }
    ensures none { IfNone result ((d : Deed) (rest : List ℕ) → Fits d → 4 ∷ bytes.now ≡ body d ++ rest → ⊥) }
{
    let (number, rest) = take_number(bytes)?;
    let (document, rest) = take_document(rest)?;
    Some((Effect::Finish { number, document }, rest))
}

/// The effect whose record, from its kind on, the bytes begin with, and what follows it. None where they begin with no record.
pub fn decode(bytes: &[u8]) -> Option<(Effect<'_>, &[u8])>
    ensures some { IfSome result (λ r. (bytes.now ≡ body (deed_of r.0) ++ r.1.now) × Fits (deed_of r.0)) }
    ensures none { IfNone result ((d : Deed) (rest : List ℕ) → Fits d → bytes.now ≡ body d ++ rest → ⊥) }
{
    match bytes {
        [1, rest @ ..] => Some((Effect::Issue, rest)),
        [2, rest @ ..] => take_sent(rest),
        [3, rest @ ..] => take_entered(rest),
        [4, rest @ ..] => take_finished(rest),
        [5, rest @ ..] => {
            let (number, rest) = take_number(rest)?;
            Some((Effect::Killed { number }, rest))
        }
        [6, rest @ ..] => {
            let (number, rest) = take_number(rest)?;
            Some((Effect::Marked { number }, rest))
        }
        [7, rest @ ..] => {
            let (number, rest) = take_number(rest)?;
            Some((Effect::GivenUp { number }, rest))
        }
        [8, rest @ ..] => {
            let (first, rest) = take_number(rest)?;
            Some((Effect::Begin { first }, rest))
        }
        _ => None,
    }
}

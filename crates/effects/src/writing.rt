//! Records, written.

ghost use Rattle.std.specs.Prelude.{◌≡◌, ◌<◌, ◌≤◌, ◌+◌, ◌-◌, ◌^◌, ◌++◌, ◌∷◌, [], length, min, OnOk, OnErr, vec_len, vec_capacity};
ghost use Rattle.effects.specs.Records.{number, text, document, body, Fits, deed_of, paper_of};

use crate::kinds::{Document, Effect};
use os_io::Memory;

fn put_byte(buffer: &mut Vec<u8>, byte: u8) -> Result<(), Memory>
    ensures ok { OnOk result (buffer.new.items ≡ buffer.old.items ++ byte ∷ []) }
    ensures err { OnErr result (vec_capacity buffer.old < vec_len buffer.old + 1) }
    ensures room { vec_capacity buffer.old ≤ vec_capacity buffer.new }
{
    buffer.push(byte)?;
    Ok(())
}

fn put_number(buffer: &mut Vec<u8>, n: u64) -> Result<(), Memory>
    ensures ok { OnOk result (buffer.new.items ≡ buffer.old.items ++ number n) }
    ensures err { OnErr result (vec_capacity buffer.old < vec_len buffer.old + 8) }
    ensures room { vec_capacity buffer.old ≤ vec_capacity buffer.new }
{
    buffer.extend_from_slice(&n.to_be_bytes())
}

/// Writes a kind, and the number behind it.
fn put_numbered(buffer: &mut Vec<u8>, kind: u8, n: u64) -> Result<(), Memory>
    ensures ok { OnOk result (buffer.new.items ≡ buffer.old.items ++ kind ∷ number n) }
    ensures err { OnErr result (vec_capacity buffer.old < vec_len buffer.old + 9) }
    ensures room { vec_capacity buffer.old ≤ vec_capacity buffer.new }
{
    put_byte(buffer, kind)?;
    put_number(buffer, n)
}

fn put_text(buffer: &mut Vec<u8>, t: &[u8]) -> Result<(), Memory>
    requires { length t.now < 2 ^ 32 }
    ensures ok { OnOk result (buffer.new.items ≡ buffer.old.items ++ text t.now) }
    ensures err { OnErr result (vec_capacity buffer.old < vec_len buffer.old + (4 + length t.now)) }
    ensures room { vec_capacity buffer.old ≤ vec_capacity buffer.new }
{
    buffer.extend_from_slice(&(t.len() as u32).to_be_bytes())?;
    buffer.extend_from_slice(t)
}

/// How many bytes a text takes, at most 2^64 - 1.
fn size_of_text(t: &[u8]) -> usize
    ensures { result ≡ min (4 + length t.now) (2 ^ 64 - 1) }
{
    t.len().saturating_add(4)
}

/// How many bytes a record takes from its kind on, at most 2^64 - 1.
pub fn size(effect: &Effect) -> usize
    ensures { result ≡ min (length (body (deed_of effect.now))) (2 ^ 64 - 1) }
{
    match effect {
        Effect::Issue => 1,
        Effect::Send { osil, osol, .. } => {
            size_of_text(osil)
                .saturating_add(size_of_text(osol))
                .saturating_add(9)
        }
        Effect::Enter { osil, osol } => {
            size_of_text(osil)
                .saturating_add(size_of_text(osol))
                .saturating_add(1)
        }
        Effect::Finish { document, .. } => match document {
            Document::Missing => 10,
            Document::Kept { text } => size_of_text(text).saturating_add(10),
        },
        Effect::Killed { .. } => 9,
        Effect::Marked { .. } => 9,
        Effect::GivenUp { .. } => 9,
        Effect::Begin { .. } => 9,
    }
}

fn put_document(buffer: &mut Vec<u8>, paper: &Document) -> Result<(), Memory>
    requires { length (document (paper_of paper.now)) < 2 ^ 32 }
    ensures ok { OnOk result (buffer.new.items ≡ buffer.old.items ++ document (paper_of paper.now)) }
    ensures err { OnErr result (vec_capacity buffer.old < vec_len buffer.old + length (document (paper_of paper.now))) }
    ensures room { vec_capacity buffer.old ≤ vec_capacity buffer.new }
{
    match paper {
        Document::Missing => put_byte(buffer, 0),
        Document::Kept { text } => {
            put_byte(buffer, 1)?;
            put_text(buffer, text)
        }
    }
}

/// Writes a record from its kind on behind what the buffer holds.
pub fn encode(buffer: &mut Vec<u8>, effect: &Effect) -> Result<(), Memory>
    requires { length (body (deed_of effect.now)) < 2 ^ 32 }
    ensures ok { OnOk result (buffer.new.items ≡ buffer.old.items ++ body (deed_of effect.now)) }
    ensures err { OnErr result (vec_capacity buffer.old < vec_len buffer.old + length (body (deed_of effect.now))) }
    ensures room { vec_capacity buffer.old ≤ vec_capacity buffer.new }
{
    match effect {
        Effect::Issue => put_byte(buffer, 1),
        Effect::Send { number, osil, osol } => {
            put_numbered(buffer, 2, *number)?;
            put_text(buffer, osil)?;
            put_text(buffer, osol)
        }
        Effect::Enter { osil, osol } => {
            put_byte(buffer, 3)?;
            put_text(buffer, osil)?;
            put_text(buffer, osol)
        }
        Effect::Finish { number, document } => {
            put_numbered(buffer, 4, *number)?;
            put_document(buffer, document)
        }
        Effect::Killed { number } => put_numbered(buffer, 5, *number),
        Effect::Marked { number } => put_numbered(buffer, 6, *number),
        Effect::GivenUp { number } => put_numbered(buffer, 7, *number),
        Effect::Begin { first } => put_numbered(buffer, 8, *first),
    }
}

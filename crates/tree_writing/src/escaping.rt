//! Characters that can't stand for themselves, as references.

ghost use Rattle.std.specs.Prelude.{◌≡◌, ◌++◌, [], ◌∷◌, flat_map, OnOk, OnErr, MatchOption};
ghost use Rattle.tree_grammar.specs.WrittenText.{escaped, escaped_value};
ghost use Rattle.tree_writing.specs.Escapes.{escaped_by};

use os_io::{Memory, Text};

/// The reference that a character is written as, if it is: in an attribute's value, or else in text.
pub(crate) fn reference(byte: u8, in_value: bool) -> Option<&'static [u8]>
    ensures { MatchOption result (escaped_by in_value byte ≡ byte ∷ []) (λ r. escaped_by in_value byte ≡ r.now) }
{
    match byte {
        b'&' => Some(b"&amp;"),
        b'<' => Some(b"&lt;"),
        b'>' => Some(b"&gt;"),
        b'\r' => Some(b"&#13;"),
        b'"' if in_value => Some(b"&quot;"),
        b'\t' if in_value => Some(b"&#9;"),
        b'\n' if in_value => Some(b"&#10;"),
        _ => None,
    }
}

/// Appends a character, escaped.
fn put_escaped(byte: u8, in_value: bool, out: &mut Text) -> Result<(), Memory>
    ensures ok { OnOk result (out.new ≡ out.old ++ escaped_by in_value byte) }
    ensures err { OnErr result (out.new ≡ out.old) }
{
    match reference(byte, in_value) {
        Some(text) => out.extend(text),
        None => out.push(byte),
    }
}

/// Appends characters, escaped.
fn put_all_escaped(bytes: &[u8], in_value: bool, out: &mut Text) -> Result<(), Memory>
    ensures ok { OnOk result (out.new ≡ out.old ++ flat_map (escaped_by in_value) bytes.now) }
    ensures err { OnErr result (out.new ≡ out.old) }
{
    let before = out.len();
    for byte in bytes {
        if let Err(e) = put_escaped(*byte, in_value, out) {
            out.truncate(before);
            return Err(e);
        }
    }
    Ok(())
}

/// Appends character data (XML 1.0, section 2.4): `&`, `<`, `>` and the carriage return become references. After
/// want of memory the text is as before.
pub fn escape(text: &[u8], out: &mut Text) -> Result<(), Memory>
    ensures ok { OnOk result (out.new ≡ out.old ++ escaped text.now) }
    ensures err { OnErr result (out.new ≡ out.old) }
{
    put_all_escaped(text, false, out)
}

/// Appends an attribute's value, to stand in double quotes (XML 1.0, sections 2.3 and 3.3.3): the quote, the tab and
/// the line feed become references too. After want of memory the text is as before.
pub fn escape_value(value: &[u8], out: &mut Text) -> Result<(), Memory>
    ensures ok { OnOk result (out.new ≡ out.old ++ escaped_value value.now) }
    ensures err { OnErr result (out.new ≡ out.old) }
{
    put_all_escaped(value, true, out)
}

//! White space round a number's text.
ghost use Rattle.std.specs.Prelude.{◌≡◌, reverse};
ghost use Rattle.decimal_text.specs.Space.{is_space, without_leading_space, trimmed};

/// Whether the byte is white space of XML.
fn is_space(byte: u8) -> bool
    ensures { result ≡ is_space byte }
{
    byte == b' ' || byte == b'\t' || byte == b'\n' || byte == b'\r'
}

/// The text without the white space that it begins with.
fn trim_start(text: &[u8]) -> &[u8]
    ensures { result.now ≡ without_leading_space text.now }
{
    let mut rest = text;
    while let [first, tail @ ..] = rest {
        if !is_space(*first) {
            break;
        }
        rest = tail;
    }
    rest
}

/// The text without the white space that it ends with.
fn trim_end(text: &[u8]) -> &[u8]
    ensures { result.now ≡ reverse (without_leading_space (reverse text.now)) }
{
    let mut rest = text;
    while let [front @ .., last] = rest {
        if !is_space(*last) {
            break;
        }
        rest = front;
    }
    rest
}

/// The text without the white space at both ends.
pub fn trim(text: &[u8]) -> &[u8]
    ensures { result.now ≡ trimmed text.now }
{
    trim_end(trim_start(text))
}

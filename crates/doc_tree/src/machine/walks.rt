//! Bytes that are taken together: characters that stand for themselves, and tags without attributes.

ghost use Rattle.std.specs.Prelude.{◌≡◌, ◌≤◌, ◌<◌, ◌+◌, ◌∷◌, ◌↔◌, IsTrue, IfOk, length, take};
ghost use Rattle.tree_grammar.specs.Characters.{Each, IsName, IsNameChar};
ghost use Rattle.doc_tree.specs.Completions.{view, Good};
ghost use Rattle.doc_tree.specs.Walks.{Walks, IsPlainText, IsPlainValue, IsQuoted, IsEndTag, IsClosed};

use super::{Machine, Place, refill};
use crate::names::{Part, is_name_char, is_name_start, is_quote, local_part};
use std::alloc::AllocError;
use tree_grammar::DEPTH;

/// Whether a byte is a character that stands for itself in content, whatever stands beside it.
fn is_plain_text(b: u8) -> bool
    ensures { IsTrue result ↔ IsPlainText b }
{
    b >= b' ' && b < 0x80 && b != b'<' && b != b'&' && b != b']' && b != b'>'
}

/// How many such bytes stand first.
fn text_length(bytes: &[u8]) -> usize
    ensures within { result ≤ length bytes.now }
    ensures plain { Each IsPlainText (take result bytes.now) }
{
    for i in 0..bytes.len() {
        if !is_plain_text(bytes[i]) {
            return i;
        }
    }
    bytes.len()
}

/// Whether a byte is a character that stands for itself in a value between such quotes.
fn is_plain_value(quote: u8, b: u8) -> bool
    ensures { IsTrue result ↔ IsPlainValue quote b }
{
    b > b' ' && b < 0x80 && b != quote && b != b'<' && b != b'&'
}

/// How many such bytes stand first.
fn value_length(quote: u8, bytes: &[u8]) -> usize
    ensures within { result ≤ length bytes.now }
    ensures plain { Each (IsPlainValue quote) (take result bytes.now) }
{
    for i in 0..bytes.len() {
        if !is_plain_value(quote, bytes[i]) {
            return i;
        }
    }
    bytes.len()
}

/// How many bytes stand first that go on with a name.
fn rest_length(bytes: &[u8]) -> usize
    ensures within { result ≤ length bytes.now }
    ensures chars { Each IsNameChar (take result bytes.now) }
{
    for i in 0..bytes.len() {
        if !is_name_char(bytes[i]) {
            return i;
        }
    }
    bytes.len()
}

/// How many bytes stand first that are a name; none where no name begins.
fn name_length(bytes: &[u8]) -> usize
    ensures within { result ≤ length bytes.now }
    ensures name { 0 < result → IsName (take result bytes.now) }
{
    match bytes.split_first() {
        Some((first, rest)) => {
            if is_name_start(*first) {
                1 + rest_length(rest)
            } else {
                0
            }
        }
        None => 0,
    }
}

/// Whether `=` and a quote stand first.
fn is_quoted(bytes: &[u8]) -> bool
    ensures { IsTrue result → IsQuoted bytes.now }
{
    if bytes.len() < 2 {
        return false;
    }
    bytes[0] == b'=' && is_quote(bytes[1])
}

/// Whether this name stands first, and `>` behind it.
fn is_closed(bytes: &[u8], name: &[u8]) -> bool
    ensures { IsTrue result → IsClosed name.now bytes.now }
{
    match bytes.strip_prefix(name) {
        Some(rest) => match rest.split_first() {
            Some((first, _)) => *first == b'>',
            None => false,
        },
        None => false,
    }
}

impl Machine {
    /// Takes the bytes at the front that are taken together, if there are such, and says how many.
    pub(crate) fn walk(&mut self, bytes: &[u8]) -> Result<usize, AllocError>
        requires { Good self.old.place (view self.old) }
        ensures within { IfOk result (λ n. n ≤ length bytes.now) }
        ensures walks { IfOk result (λ n. Walks (view self.old) (take n bytes.now) (view self.new)) }
    {
        match self.place {
            Place::Content => self.content_walk(bytes),
            Place::TagSpace => self.key_walk(bytes),
            Place::Value => self.value_walk(bytes),
            _ => Ok(0),
        }
    }

    /// Takes an attribute's name that is new, with `=` and the quote behind it.
    fn key_walk(&mut self, bytes: &[u8]) -> Result<usize, AllocError>
        requires place { self.old.place ≡ Place.TagSpace }
        requires good { Good Place.TagSpace (view self.old) }
        ensures within { IfOk result (λ n. n ≤ length bytes.now) }
        ensures walks { IfOk result (λ n. Walks (view self.old) (take n bytes.now) (view self.new)) }
    {
        let length = name_length(bytes);
        if length == 0 {
            return Ok(0);
        }
        if !is_quoted(&bytes[length..]) {
            return Ok(0);
        }
        if self.keys.holds(&bytes[..length])? {
            return Ok(0);
        }
        refill(&mut self.key, &bytes[..length])?;
        self.part = Part::First;
        self.quote = bytes[length + 1];
        self.value.clear();
        self.place = Place::Value;
        Ok(length + 2)
    }

    /// Takes characters of a value.
    fn value_walk(&mut self, bytes: &[u8]) -> Result<usize, AllocError>
        requires place { self.old.place ≡ Place.Value }
        requires good { Good Place.Value (view self.old) }
        ensures within { IfOk result (λ n. n ≤ length bytes.now) }
        ensures walks { IfOk result (λ n. Walks (view self.old) (take n bytes.now) (view self.new)) }
    {
        let length = value_length(self.quote, bytes);
        self.value.extend_from_slice(&bytes[..length])?;
        Ok(length)
    }

    /// Takes characters of content, or a tag.
    fn content_walk(&mut self, bytes: &[u8]) -> Result<usize, AllocError>
        requires place { self.old.place ≡ Place.Content }
        requires good { Good Place.Content (view self.old) }
        ensures within { IfOk result (λ n. n ≤ length bytes.now) }
        ensures walks { IfOk result (λ n. Walks (view self.old) (take n bytes.now) (view self.new)) }
    {
        match bytes.split_first() {
            Some((first, rest)) => {
                if *first == b'<' {
                    return self.tag_walk(rest);
                }
                self.text_walk(bytes)
            }
            None => Ok(0),
        }
    }

    /// Takes characters of content.
    fn text_walk(&mut self, bytes: &[u8]) -> Result<usize, AllocError>
        requires place { self.old.place ≡ Place.Content }
        requires good { Good Place.Content (view self.old) }
        ensures within { IfOk result (λ n. n ≤ length bytes.now) }
        ensures walks { IfOk result (λ n. Walks (view self.old) (take n bytes.now) (view self.new)) }
    {
        let length = text_length(bytes);
        if length == 0 {
            return Ok(0);
        }
        self.builder.push_text(&bytes[..length])?;
        self.brackets = 0;
        Ok(length)
    }

    /// Takes a tag, of which this stands behind `<`.
    fn tag_walk(&mut self, rest: &[u8]) -> Result<usize, AllocError>
        requires place { self.old.place ≡ Place.Content }
        requires good { Good Place.Content (view self.old) }
        ensures within { IfOk result (λ n. n ≤ length rest.now + 1) }
        ensures walks { IfOk result (λ n. Walks (view self.old) (take n (60 ∷ rest.now)) (view self.new)) }
    {
        match rest.split_first() {
            Some((first, more)) => {
                if *first == b'/' {
                    return self.end_walk(more);
                }
                self.start_walk(rest)
            }
            None => Ok(0),
        }
    }

    /// Takes a start tag up to the end of its name, and its `>`, if that is next.
    fn start_walk(&mut self, rest: &[u8]) -> Result<usize, AllocError>
        requires place { self.old.place ≡ Place.Content }
        requires good { Good Place.Content (view self.old) }
        ensures within { IfOk result (λ n. n ≤ length rest.now + 1) }
        ensures walks { IfOk result (λ n. Walks (view self.old) (take n (60 ∷ rest.now)) (view self.new)) }
    {
        let length = name_length(rest);
        if length == 0 {
            return Ok(0);
        }
        if self.names.len() >= DEPTH {
            return Ok(0);
        }
        refill(&mut self.name, &rest[..length])?;
        self.keys.clear();
        self.part = Part::First;
        self.place = Place::TagName;
        if length < rest.len() {
            if rest[length] == b'>' {
                self.tag_opens()?;
                return Ok(length + 2);
            }
        }
        Ok(length + 1)
    }

    /// Whether the innermost element's end tag goes on so behind its `</`.
    fn is_end_tag(&self, rest: &[u8]) -> bool
        ensures { IsTrue result → IsEndTag (view self.now).names rest.now }
    {
        let names = self.names.as_slice();
        let count = names.len();
        if count == 0 {
            return false;
        }
        let name = names[count - 1].as_slice();
        if name.is_empty() {
            return false;
        }
        is_closed(rest, name)
    }

    /// Takes an end tag, of which this stands behind `</`.
    fn end_walk(&mut self, rest: &[u8]) -> Result<usize, AllocError>
        requires place { self.old.place ≡ Place.Content }
        requires good { Good Place.Content (view self.old) }
        ensures within { IfOk result (λ n. n ≤ length rest.now + 2) }
        ensures walks { IfOk result (λ n. Walks (view self.old) (take n (60 ∷ 47 ∷ rest.now)) (view self.new)) }
    {
        if !self.is_end_tag(rest) {
            return Ok(0);
        }
        match self.names.pop() {
            Some(name) => {
                let length = name.len();
                self.builder.close(local_part(name.as_slice()))?;
                self.name = name;
                self.element_over();
                Ok(length + 3)
            }
            None => Ok(0),
        }
    }
}

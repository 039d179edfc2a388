//! The checks of a request's head, in their order.
ghost use Rattle.std.specs.Prelude.{◌≡◌, ◌==◌, ◌≤◌, ◌<◌, ◌&&◌, ◌||◌, nat_lt, ℕ, List, [], All, Ok, Err, map, length, count_by, IfSome, IsTrue, slice_range, slice_get, codes, None, Some, if◌then◌else◌};
ghost use Rattle.std.specs.List.{list_all, list_any};
ghost use Rattle.std.specs.Char.{is_ascii_digit};
ghost use Rattle.std.specs.Option.{option_copied};
ghost use Rattle.std.specs.Str.Parse.{digits_value};
ghost use Rattle.httparse.specs.Spans.{header_bytes, IsHeaderWithin};
ghost use Rattle.http_link.specs.Checks.{is_named, is_number, field_values, writes_number, most_body, most_counted, has_bad_host, asks_to_close, lists_close, is_close, outcome_of_parts, length_by, without_zeros, ReadsWithin};

use crate::Refusal;
use httparse::Status;
use httparse::spans::{EMPTY_HEADER_SPAN, HeaderSpan, parse_request};
use os_io::MOST_BYTES;

/// The most bytes of a body.
pub const MOST_BODY: usize = MOST_BYTES as usize;

/// The most field lines of a head.
pub(crate) const MOST_FIELDS: usize = 64;

/// What a head that is accepted says.
#[derive(Clone, Copy, PartialEq, Eq, Drop)]
pub struct Accepted {
    /// The body's length.
    pub len: usize,
    /// Whether the connection is to close behind the body.
    pub close: bool,
}

/// What is accepted, or the first refusal, of a head that has no more than `MOST_FIELDS` fields.
pub(crate) fn head_outcome(head: &[u8]) -> Result<Accepted, Refusal>
    ensures { ReadsWithin 64 head.now result }
{
    let mut headers = [EMPTY_HEADER_SPAN; MOST_FIELDS];
    match parse_request(head, &mut headers) {
        Ok(Status::Complete(spans)) => {
            if spans.len == head.len() {
                let method = spans.method.of(head);
                outcome(head, method, spans.version, &headers[..spans.headers])
            } else {
                Err(Refusal::BadRequest)
            }
        }
        Ok(Status::Partial) => Err(Refusal::BadRequest),
        Err(_) => Err(Refusal::BadRequest),
    }
}

/// What is accepted, or the first refusal, of a head with these parts.
fn outcome(
    head: &[u8],
    method: &[u8],
    minor: u8,
    headers: &[HeaderSpan],
) -> Result<Accepted, Refusal>
    requires { All (IsHeaderWithin (length head.now)) headers.now }
    ensures { result ≡ outcome_of_parts method.now minor (map (header_bytes head.now) headers.now) }
{
    let hosts = count_named(head, headers, b"host");
    if hosts > 1 || minor == 1 && hosts == 0 {
        Err(Refusal::BadRequest)
    } else if method != b"POST".as_slice() {
        Err(Refusal::MethodNotAllowed)
    } else if count_named(head, headers, b"transfer-encoding") > 0 {
        Err(Refusal::NotImplemented)
    } else {
        match body_length(head, headers, MOST_BODY) {
            Ok(len) => Ok(Accepted {
                len,
                close: asks_to_close(head, minor, headers),
            }),
            Err(refusal) => Err(refusal),
        }
    }
}

/// Whether the connection is to close behind the request.
fn asks_to_close(head: &[u8], minor: u8, headers: &[HeaderSpan]) -> bool
    requires { All (IsHeaderWithin (length head.now)) headers.now }
    ensures { result ≡ asks_to_close minor (map (header_bytes head.now) headers.now) }
{
    minor == 0 || any_lists_close(head, headers)
}

/// Whether a `Connection` field lists `close`.
fn any_lists_close(head: &[u8], headers: &[HeaderSpan]) -> bool
    requires { All (IsHeaderWithin (length head.now)) headers.now }
    ensures { result ≡ list_any lists_close (field_values (codes "connection") (map (header_bytes head.now) headers.now)) }
{
    for header in headers {
        if has_name(head, header, b"connection") && lists_close(header.value.of(head)) {
            return true;
        }
    }
    false
}

/// Whether `close` is among the items of a list, which commas part.
fn lists_close(value: &[u8]) -> bool
    ensures { result ≡ lists_close value.now }
{
    value.split(|b| *b == b',').any(|item| is_close(item))
}

/// Whether an item is `close`, whatever the case, without the white space round it.
fn is_close(item: &[u8]) -> bool
    ensures { result ≡ is_close item.now }
{
    item.trim_ascii().eq_ignore_ascii_case(b"close")
}

/// The length of a body of at most so many bytes, by the values of `Content-Length`.
pub(crate) fn body_length(
    head: &[u8],
    headers: &[HeaderSpan],
    most: usize,
) -> Result<usize, Refusal>
    requires within { All (IsHeaderWithin (length head.now)) headers.now }
    requires counted { most ≤ most_counted }
    ensures { result ≡ length_by most (field_values (codes "content-length") (map (header_bytes head.now) headers.now)) }
{
    let Some(value) = first_value(head, headers, b"content-length") else {
        return Err(Refusal::LengthRequired);
    };
    if !is_number(value) || !all_write(head, headers, b"content-length", value) {
        return Err(Refusal::BadRequest);
    }
    number_within(value, most).ok_or(Refusal::ContentTooLarge)
}

/// Whether the header has that name, whatever the case.
fn has_name(head: &[u8], header: &HeaderSpan, name: &[u8]) -> bool
    requires { IsHeaderWithin (length head.now) header.now }
    ensures { result ≡ is_named name.now (header_bytes head.now header.now) }
{
    header.name.of(head).eq_ignore_ascii_case(name)
}

/// How many headers have that name.
pub(crate) fn count_named(head: &[u8], headers: &[HeaderSpan], name: &[u8]) -> usize
    requires { All (IsHeaderWithin (length head.now)) headers.now }
    ensures { result ≡ count_by (is_named name.now) (map (header_bytes head.now) headers.now) }
{
    let mut count = 0;
    for header in headers {
        if has_name(head, header, name) {
            count += 1;
        }
    }
    count
}

/// The value of the first header of that name.
fn first_value<'b>(head: &'b [u8], headers: &[HeaderSpan], name: &[u8]) -> Option<&'b [u8]>
    requires { All (IsHeaderWithin (length head.now)) headers.now }
    ensures { option_copied result ≡ slice_get (field_values name.now (map (header_bytes head.now) headers.now)) 0 }
{
    for header in headers {
        if has_name(head, header, name) {
            return Some(header.value.of(head));
        }
    }
    None
}

/// Whether each value of that name writes the same number as `value`.
fn all_write(head: &[u8], headers: &[HeaderSpan], name: &[u8], value: &[u8]) -> bool
    requires within { All (IsHeaderWithin (length head.now)) headers.now }
    requires number { IsTrue (is_number value.now) }
    ensures { result ≡ list_all (writes_number (digits_value 10 value.now)) (field_values name.now (map (header_bytes head.now) headers.now)) }
{
    for header in headers {
        if has_name(head, header, name) && !writes_same(header.value.of(head), value) {
            return false;
        }
    }
    true
}

/// Whether the bytes are a number, and the same as `value` is.
fn writes_same(bytes: &[u8], value: &[u8]) -> bool
    requires { IsTrue (is_number value.now) }
    ensures { result ≡ writes_number (digits_value 10 value.now) bytes.now }
{
    is_number(bytes) && without_zeros(bytes) == without_zeros(value)
}

/// Whether the value is a number: one digit or more.
fn is_number(value: &[u8]) -> bool
    ensures { result ≡ is_number value.now }
{
    !value.is_empty() && all_digits(value)
}

/// Whether each byte is a digit.
fn all_digits(bytes: &[u8]) -> bool
    ensures { result ≡ list_all is_ascii_digit bytes.now }
{
    bytes.iter().all(|b| b.is_ascii_digit())
}

/// The digits without the zeros at their front.
fn without_zeros(digits: &[u8]) -> &[u8]
    ensures { result.now ≡ without_zeros digits.now }
{
    for (i, digit) in digits.iter().enumerate() {
        if *digit != b'0' {
            return &digits[i..];
        }
    }
    &[]
}

/// The number, if it is at most `most`.
fn number_within(value: &[u8], most: usize) -> Option<usize>
    requires number { IsTrue (is_number value.now) }
    requires counted { most ≤ most_counted }
    ensures { result ≡ (if nat_lt most (digits_value 10 value.now) then None else Some (digits_value 10 value.now)) }
{
    let mut number = 0;
    for digit in value {
        number = number * 10 + (*digit - b'0') as usize;
        if number > most {
            return None;
        }
    }
    Some(number)
}

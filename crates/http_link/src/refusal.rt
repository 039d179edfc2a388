//! How requests are refused.

use thiserror::Error;

/// Why a request isn't answered, each with the status that says so.
#[derive(Clone, Copy, PartialEq, Eq, Debug, Drop, Error)]
pub enum Refusal {
    /// 400: the head is no request head, or names no host or two, or its lengths are no numbers or differ.
    #[error("400 Bad Request")]
    BadRequest,
    /// 405: the method isn't `POST`.
    #[error("405 Method Not Allowed")]
    MethodNotAllowed,
    /// 411: the head has no `Content-Length`.
    #[error("411 Length Required")]
    LengthRequired,
    /// 413: the body has more than 4,194,304 bytes.
    #[error("413 Content Too Large")]
    ContentTooLarge,
    /// 431: the head has more than 16,384 bytes, or more than 64 field lines.
    #[error("431 Request Header Fields Too Large")]
    HeadTooLarge,
    /// 501: the body has a transfer coding.
    #[error("501 Not Implemented")]
    NotImplemented,
    /// 503: the server can't answer now.
    #[error("503 Service Unavailable")]
    ServiceUnavailable,
}

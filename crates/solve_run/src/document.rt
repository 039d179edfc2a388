//! Result documents.
use os_io::Text;

/// The text of a result document, and whether it reports an error.
#[derive(Drop)]
pub struct Document {
    pub text: Text,
    pub is_error: bool,
}

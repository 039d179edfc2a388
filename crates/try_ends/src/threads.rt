//! What threads may have.

ghost use Rattle.std.specs.Prelude.{◌≡◌};

/// Something that threads may share.
pub(crate) fn shared<T: Sync>(value: T) -> T
    ensures { result ≡ value }
{
    value
}

/// Something that may go to another thread.
pub(crate) fn moved<T: Send>(value: T) -> T
    ensures { result ≡ value }
{
    value
}

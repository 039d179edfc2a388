//! The product of two numbers of 64 bits.
ghost use Rattle.std.specs.Prelude.{◌≡◌, ◌≤◌, ◌^◌, unsigned_abs, ◌*ℤ◌};

/// The product of two numbers, which never passes 127 bits.
#[inline]
pub fn product(x: i64, y: i64) -> i128
    ensures value { result ≡ x *ℤ y }
    ensures size { unsigned_abs result ≤ 2 ^ 126 }
{
    x as i128 * y as i128
}

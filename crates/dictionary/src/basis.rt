//! The places of columns.
ghost use Rattle.std.specs.Prelude.{◌≡◌, ℕ, ◌<◌, ◌≤◌, ◌^◌, length, slice_index, IfOk};
ghost use Rattle.dictionary.specs.Basis.{ChangePlaces};

use std::alloc::{AllocError, Global};

/// Each place has the column of its number.
pub fn number(list: &mut [u32])
    requires { length list.old ≤ 2 ^ 32 }
    ensures { (k : ℕ) → k < length list.old → slice_index list.new k ≡ k }
{
    for k in 0..list.len() {
        list[k] = k as u32;
    }
}

/// So many places, each with the column of its number.
pub fn make_numbers(alloc: Global, count: usize) -> Result<Vec<u32>, AllocError>
    requires { count ≤ 2 ^ 32 }
    ensures count { IfOk result (λ v. length v.items ≡ count) }
    ensures numbers { IfOk result (λ v. (k : ℕ) → k < count → slice_index v.items k ≡ k) }
{
    let mut list = vec![in alloc; 0; count]?;
    number(list.as_mut_slice());
    Ok(list)
}

/// Exchanges the places of two columns.
pub fn exchange(columns: &mut [u32], places: &mut [u32], a: u32, b: u32)
    requires a { a < length places.old }
    requires b { b < length places.old }
    requires a_stands { slice_index places.old a < length columns.old }
    requires b_stands { slice_index places.old b < length columns.old }
    ensures columns { ChangePlaces (slice_index places.old a) (slice_index places.old b) (slice_index columns.old) (slice_index columns.new) }
    ensures places { ChangePlaces a b (slice_index places.old) (slice_index places.new) }
{
    columns.swap(places[a as usize] as usize, places[b as usize] as usize);
    places.swap(a as usize, b as usize);
}

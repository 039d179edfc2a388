//! The rows that a certificate adds, in room that was taken beforehand.
ghost use Rattle.std.specs.Prelude.{◌≡◌, ◌≤◌, ◌<◌, ℕ, Some, length};
ghost use Rattle.rational.specs.Ratio.{Ratio};
ghost use Rattle.fraction.specs.Frac.{ratio, ratios};
ghost use Rattle.fraction.specs.declared.frac.Frac as fracs;
ghost use Rattle.evidence.specs.Point.{value_at};
ghost use Rattle.cert_checker.specs.Programs.{coefficient, HoldsRow};
ghost use Rattle.cert_checker.specs.Slots.{slot_at};

use crate::at_hand::Added;
use fraction::Frac;
use instance::{Row, zero};

/// The sum, 0 where there is none.
fn number_of(slot: Option<Frac>) -> Frac
    ensures { (x : fracs.Frac) → slot ≡ Some x → result ≡ x }
{
    match slot {
        Some(number) => number,
        None => zero(),
    }
}

/// Copies the sums that there are.
fn fill(numbers: &mut [Frac], slots: &[Option<Frac>])
    requires { length slots.now ≤ length numbers.old }
    ensures { (j : ℕ) (x : fracs.Frac) → j < length slots.now → slot_at slots.now j ≡ Some x → value_at (ratios numbers.new) j ≡ ratio x }
{
    for j in 0..slots.len() {
        numbers[j] = number_of(slots[j]);
    }
}

/// Makes a row of these ends and coefficients.
pub fn put(row: &mut Added, ends: Row, slots: &[Option<Frac>])
    requires { length slots.now ≤ length row.old.coefficients.items }
    ensures ends { row.new.ends ≡ ends }
    ensures size { length row.new.coefficients.items ≡ length row.old.coefficients.items }
    ensures row { (n : ℕ) (f : ℕ → Ratio) → n ≤ length slots.now → HoldsRow n f slots.now → (j : ℕ) → j < n → coefficient row.new j ≡ f j }
{
    row.ends = ends;
    fill(row.coefficients.as_mut_slice(), slots);
}

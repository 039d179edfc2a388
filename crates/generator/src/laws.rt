//! What the definitions say together of the generated instances and their texts.

ghost use Rattle.std.specs.Prelude.{◌≡◌, ◌⊎◌, ◌+◌, ◌*◌, ◌≤◌, ℕ, List, length, Result, Ok, Err, IfOk, IfErr};
ghost use Rattle.instance.specs.Parts.{Parts, IsValid};
ghost use Rattle.osil_grammar.specs.declared.fault.OsilFault.{OsilFault};
ghost use Rattle.osil_grammar.specs.declared.fault.OsilFault.TheVariants as read;
ghost use Rattle.osil_grammar.specs.declared.fault.EncodeFault.{EncodeFault};
ghost use Rattle.osil_grammar.specs.declared.fault.EncodeFault.TheVariants as written;
ghost use Rattle.osil_grammar.specs.Reading.{IsInstanceText, DecodeFails};
ghost use Rattle.osil_grammar.specs.Telling.{EncodeFails};
ghost use Rattle.osil_grammar.specs.Writing.{HasDecimals, IsWrittenText};
ghost use Rattle.generator.specs.Instances.{generated};

use decimal_text::decimals_have_one_text;
use osil_grammar::{instances_are_read_back, written_text_is_of_one_instance};

/// Law: the generated parts are those of an instance.
pub fn generated_is_valid()
    ensures { (n : ℕ) → 1 ≤ n → n ≤ 1000 → IsValid (generated n) }
{}

/// Law: [`encode`](osil_grammar::encode) of a generated instance has no fault but want of memory: each number has a
/// decimal, and each text that the instance is written as is short.
pub fn generated_is_encoded()
    ensures decimals { (n : ℕ) → HasDecimals (generated n) }
    ensures short { (n : ℕ) (text : List ℕ) → 1 ≤ n → n ≤ 1000 → IsWrittenText (generated n) text → length text ≤ 300 * n + 1000 }
    ensures faults { (n : ℕ) (f : EncodeFault) → 1 ≤ n → n ≤ 1000 → EncodeFails (generated n) f → f ≡ written.Memory }
{
    decimals_have_one_text();
}

/// Law: the text of a generated instance is that of this instance and of no other, and [`decode`](osil_grammar::decode)
/// of it answers, by its contract, the instance, or finds no memory.
pub fn generated_is_read_back()
    ensures own { (n : ℕ) (text : List ℕ) → 1 ≤ n → n ≤ 1000 → IsWrittenText (generated n) text → IsInstanceText text (generated n) }
    ensures only { (n : ℕ) (q : Parts) (text : List ℕ) → 1 ≤ n → n ≤ 1000 → IsWrittenText (generated n) text → IsInstanceText text q → q ≡ generated n }
    ensures back { (n : ℕ) (text : List ℕ) (r : Result Parts OsilFault) → 1 ≤ n → n ≤ 1000 → IsWrittenText (generated n) text → IfOk r (IsInstanceText text) → IfErr r (DecodeFails text) → (r ≡ Ok (generated n)) ⊎ (r ≡ Err read.Memory) }
{
    generated_is_valid();
    generated_is_encoded();
    written_text_is_of_one_instance();
    instances_are_read_back();
}

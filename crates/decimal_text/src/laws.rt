//! Laws: what is written is read back.
ghost use Rattle.std.specs.Prelude.{◌≡◌, ◌≤◌, List, ℕ, ℤ, Result, Ok, IfOk, IfErr, unsigned_abs, decimal};
ghost use Rattle.std.specs.Fmt.{signed_decimal};
ghost use Rattle.fraction.specs.declared.frac.Frac.{Frac};
ghost use Rattle.fraction.specs.Frac.{ratio};
ghost use Rattle.decimal_text.specs.declared.fault.DecimalFault.{DecimalFault};
ghost use Rattle.decimal_text.specs.Count.{CountGrammar, IsCount, IsWideCount, most_count};
ghost use Rattle.decimal_text.specs.Decimal.{DecimalGrammar, IsDecimal, IsWideDecimal};
ghost use Rattle.decimal_text.specs.Exact.{RatioText, ratio_text};
ghost use Rattle.decimal_text.specs.Fault.{RefusesText, RefusesRatio};
ghost use Rattle.decimal_text.specs.Plain.{PlainText};
ghost use Rattle.decimal_text.specs.Space.{trimmed};
ghost use Rattle.decimal_text.specs.Whole.{WholeGrammar, IsWholeText, IsWideWhole};

/// Law: a ratio is read as it was written: [`read_ratio`](crate::read_ratio) of what
/// [`write_ratio`](crate::write_ratio) wrote answers, by its contract, the ratio.
pub fn ratios_are_read_back()
    ensures { (x : Frac) (r : Result Frac DecimalFault) → IfOk r (λ y. RatioText (ratio_text (ratio x)) (ratio y)) → IfErr r (RefusesRatio (ratio_text (ratio x))) → r ≡ Ok x }
{}

/// Law: a text is read as its one value: [`read_decimal`](crate::read_decimal) of a text that is a decimal with this
/// value, as is what [`write_decimal`](crate::write_decimal) wrote of it, answers, by its contract, the value.
pub fn decimals_are_read_back()
    ensures { (x : Frac) (text : List ℕ) (r : Result Frac DecimalFault) → IsDecimal text (ratio x) → IfOk r (λ y. IsDecimal text (ratio y)) → IfErr r (RefusesText DecimalGrammar (IsWideDecimal text) (trimmed text)) → r ≡ Ok x }
{}

/// Law: a count is read as it was written: the digits of a number up to the greatest count are its text, and
/// [`read_count`](crate::read_count) of them answers, by its contract, the number.
pub fn counts_are_read_back()
    ensures text { (n : ℕ) → n ≤ most_count → IsCount (decimal n) n }
    ensures back { (n : ℕ) (r : Result ℕ DecimalFault) → n ≤ most_count → IfOk r (λ m. IsCount (decimal n) m) → IfErr r (RefusesText CountGrammar (IsWideCount (decimal n)) (trimmed (decimal n))) → r ≡ Ok n }
{}

/// Law: a whole number is read as it was written: its digits behind a sign where it is below 0, up to the size of the
/// greatest count, are its text, and [`read_whole`](crate::read_whole) of them answers, by its contract, the number.
pub fn wholes_are_read_back()
    ensures text { (z : ℤ) → unsigned_abs z ≤ most_count → IsWholeText (signed_decimal z) z }
    ensures back { (z : ℤ) (r : Result ℤ DecimalFault) → unsigned_abs z ≤ most_count → IfOk r (λ y. IsWholeText (signed_decimal z) y) → IfErr r (RefusesText WholeGrammar (IsWideWhole (signed_decimal z)) (trimmed (signed_decimal z))) → r ≡ Ok z }
{}

/// Law: a decimal is written in one way, without an exponent, and what is written is a decimal of the value where the
/// value has one.
pub fn decimals_have_one_text()
    ensures one { (x : Frac) (s t : List ℕ) → PlainText s (ratio x) → PlainText t (ratio x) → s ≡ t }
    ensures read { (x : Frac) (text : List ℕ) → PlainText text (ratio x) → (other : List ℕ) → IsDecimal other (ratio x) → IsDecimal text (ratio x) }
{}

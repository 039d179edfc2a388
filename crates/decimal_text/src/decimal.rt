//! Decimals, read.
ghost use Rattle.std.specs.Prelude.{◌≡◌, ◌∷◌, [], length, IfOk, IfErr, MatchOption};
ghost use Rattle.fraction.specs.Frac.{ratio};
ghost use Rattle.decimal_text.specs.Bound.{BoundGrammar, SaysEnd, InfinityStop};
ghost use Rattle.decimal_text.specs.Decimal.{DecimalGrammar, FittingText, WideText, IsDecimal, IsWideDecimal};
ghost use Rattle.decimal_text.specs.Fault.{RefusesText};
ghost use Rattle.decimal_text.specs.Head.{DoesNotBegin, SignSplit};
ghost use Rattle.decimal_text.specs.Space.{trimmed};

use crate::digits::{split_sign, strip};
use crate::fault::DecimalFault;
use crate::parts::split_unsigned;
use crate::power::value;
use crate::space::trim;
use fraction::{End, Frac};

/// The number of a text, which is split behind its sign.
fn finite(core: &[u8], is_negative: bool, unsigned: &[u8]) -> Result<Frac, DecimalFault>
    requires { SignSplit core.now is_negative unsigned.now }
    ensures ok { IfOk result (λ x. FittingText core.now (ratio x)) }
    ensures err { IfErr result (RefusesText DecimalGrammar (WideText core.now) core.now) }
    ensures bound { IfErr result (λ e. DoesNotBegin 73 unsigned.now → RefusesText BoundGrammar (WideText core.now) core.now e) }
{
    let parts = match split_unsigned(unsigned) {
        Ok(parts) => parts,
        Err(left) => {
            return Err(DecimalFault::NotNumber {
                at: core.len() - left,
            });
        }
    };
    match value(is_negative, parts) {
        Some(x) => Ok(x),
        None => Err(DecimalFault::Wide),
    }
}

/// The number that the text writes: the lexical form of a double (XML Schema part 2, section 3.2.5) without its
/// special values, white space round it dropped. The value is exact. With the value as n times ten to the k, n no
/// multiple of ten, `Wide` comes where k is negative and n or ten to the -k passes `2^127 - 1`, and where k isn't and
/// the value does.
pub fn read_decimal(text: &[u8]) -> Result<Frac, DecimalFault>
    ensures ok { IfOk result (λ x. IsDecimal text.now (ratio x)) }
    ensures err { IfErr result (RefusesText DecimalGrammar (IsWideDecimal text.now) (trimmed text.now)) }
{
    let core = trim(text);
    let (is_negative, unsigned) = split_sign(core);
    finite(core, is_negative, unsigned)
}

/// How much of the text is left where it stops being `NF`, or nothing where it is that.
fn infinity_left(behind: &[u8]) -> Option<usize>
    ensures { MatchOption result (behind.now ≡ 78 ∷ 70 ∷ []) (λ left. InfinityStop behind.now left) }
{
    let (has_second, third) = strip(behind, b'N');
    if !has_second {
        return Some(behind.len());
    }
    let (has_third, rest) = strip(third, b'F');
    if !has_third {
        return Some(third.len());
    }
    if rest.is_empty() {
        None
    } else {
        Some(rest.len())
    }
}

/// The end that the text writes: a decimal, `INF`, `+INF` or `-INF`, white space round it dropped. `Wide` as of
/// [`read_decimal`].
pub fn read_bound(text: &[u8]) -> Result<End, DecimalFault>
    ensures ok { IfOk result (λ e. SaysEnd text.now e) }
    ensures err { IfErr result (RefusesText BoundGrammar (IsWideDecimal text.now) (trimmed text.now)) }
{
    let core = trim(text);
    let (is_negative, unsigned) = split_sign(core);
    let (has_first, behind) = strip(unsigned, b'I');
    if !has_first {
        return match finite(core, is_negative, unsigned) {
            Ok(x) => Ok(End::At(x)),
            Err(e) => Err(e),
        };
    }
    if let Some(left) = infinity_left(behind) {
        return Err(DecimalFault::NotNumber {
            at: core.len() - left,
        });
    }
    Ok(if is_negative { End::NegInf } else { End::Inf })
}

//! Fractions written as ratios.
ghost use Rattle.std.specs.Prelude.{◌≡◌, ◌++◌, ◌==◌, [], ◌∷◌, cond, OnOk, OnErr, take, length, decimal};
ghost use Rattle.std.specs.Fmt.{signed_decimal};
ghost use Rattle.fraction.specs.Frac.{ratio};
ghost use Rattle.decimal_text.specs.Exact.{ratio_text, denominator_text};

use fraction::Frac;
use itoa::Buffer;
use os_io::{Memory, Text};

/// Writes `/` and the denominator, or nothing where it is 1.
fn write_denominator(denom: u128, out: &mut Text) -> Result<(), Memory>
    ensures ok { OnOk result (out.new ≡ out.old ++ denominator_text denom) }
    ensures err { OnErr result (take (length out.old) out.new ≡ out.old) }
{
    if denom == 1 {
        return Ok(());
    }
    out.push(b'/')?;
    out.extend(Buffer::new().format(denom).as_bytes())
}

fn write_parts(value: Frac, out: &mut Text) -> Result<(), Memory>
    ensures ok { OnOk result (out.new ≡ out.old ++ ratio_text (ratio value)) }
    ensures err { OnErr result (take (length out.old) out.new ≡ out.old) }
{
    out.extend(Buffer::new().format(value.numer).as_bytes())?;
    write_denominator(value.denom, out)
}

/// Writes the ratio, in lowest terms, behind `out`. This form is the project's own. After `Memory` `out` is as before.
pub fn write_ratio(value: Frac, out: &mut Text) -> Result<(), Memory>
    ensures ok { OnOk result (out.new ≡ out.old ++ ratio_text (ratio value)) }
    ensures err { OnErr result (out.new ≡ out.old) }
{
    let len = out.len();
    let written = write_parts(value, out);
    if written.is_err() {
        out.truncate(len);
    }
    written
}

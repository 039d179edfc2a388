//! Ends of runs as texts.
ghost use Rattle.std.specs.Prelude.{◌≡◌};
ghost use Rattle.simplex.specs.Memory.{width_in, height_in};

use decimal_text::write_ratio;
use os_io::{Memory, Text};
use simplex::{LpEnd, Work};
use std::sync::ledger::Ledger;
use tableaus::put_count;

/// Puts the last point.
fn put_point<L: Ledger>(text: &mut Text, work: &Work<L>, width: u32) -> Result<(), Memory>
    requires { width_in work.now ≡ width }
{
    text.extend(b" at")?;
    for j in 0..width {
        text.push(b' ')?;
        write_ratio(work.point_at(j), text)?;
    }
    Ok(())
}

/// Puts the last direction.
fn put_direction<L: Ledger>(text: &mut Text, work: &Work<L>, width: u32) -> Result<(), Memory>
    requires { width_in work.now ≡ width }
{
    text.extend(b" along")?;
    for j in 0..width {
        text.push(b' ')?;
        write_ratio(work.ray_at(j), text)?;
    }
    Ok(())
}

/// Puts the last multipliers that aren't 0.
fn put_multipliers<L: Ledger>(
    text: &mut Text,
    work: &Work<L>,
    width: u32,
    height: u32,
) -> Result<(), Memory>
    requires width { width_in work.now ≡ width }
    requires height { height_in work.now ≡ height }
{
    text.extend(b" by")?;
    for col in 0..width.saturating_add(height) {
        let by = work.mult_at(col);
        if by.numer != 0 {
            text.push(b' ')?;
            put_count(text, col as u64)?;
            text.push(b':')?;
            write_ratio(by, text)?;
        }
    }
    Ok(())
}

/// Puts an end, with what the work tells of it.
pub fn put_end<L: Ledger>(
    text: &mut Text,
    end: LpEnd,
    work: &Work<L>,
    width: u32,
    height: u32,
) -> Result<(), Memory>
    requires width { width_in work.now ≡ width }
    requires height { height_in work.now ≡ height }
{
    match end {
        LpEnd::Best { bound } => {
            text.extend(b"best ")?;
            write_ratio(bound, text)?;
            put_point(text, work, width)?;
            put_multipliers(text, work, width, height)
        }
        LpEnd::Clash { col } => {
            text.extend(b"clash ")?;
            put_count(text, col as u64)
        }
        LpEnd::Empty => {
            text.extend(b"empty")?;
            put_multipliers(text, work, width, height)
        }
        LpEnd::Endless => {
            text.extend(b"endless")?;
            put_point(text, work, width)?;
            put_direction(text, work, width)
        }
        LpEnd::TurnLimit => text.extend(b"turn limit"),
        LpEnd::Wide(step) => {
            text.extend(b"wide ")?;
            text.extend(step.name())
        }
        LpEnd::Stopped => text.extend(b"stopped"),
    }
}

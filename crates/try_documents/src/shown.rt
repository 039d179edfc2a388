//! Numbers and instances in words.

use fraction::{End, Entry, Frac};
use instance::{Goal, Instance, Row, Sense, Var};
use itoa::Buffer;
use os_io::{Memory, Text};
use std::alloc::Global;

/// Appends a whole number.
pub(crate) fn put_number(text: &mut Text, n: i128) -> Result<(), Memory> {
    text.extend(Buffer::new().format(n).as_bytes())
}

/// Appends a fraction: its numerator, and its denominator behind a `/` where it isn't 1.
pub(crate) fn put_frac(text: &mut Text, x: Frac) -> Result<(), Memory> {
    put_number(text, x.numer())?;
    if x.denom() == 1 {
        return Ok(());
    }
    text.push(b'/')?;
    put_number(text, x.denom())
}

/// Appends an end.
pub(crate) fn put_end(text: &mut Text, end: End) -> Result<(), Memory> {
    match end {
        End::NegInf => text.extend(b"-INF"),
        End::At(x) => put_frac(text, x),
        End::Inf => text.extend(b"INF"),
    }
}

/// Words one after another: of equal ones one, and how many they are.
#[derive(Drop)]
struct Words {
    text: Text,
    last: Text,
    times: u64,
}

impl Words {
    /// Begins a list with this name.
    fn begin(&mut self, name: &[u8]) -> Result<(), Memory> {
        self.close()?;
        self.text.extend(name)
    }

    /// Adds a word.
    fn put(&mut self, word: Text) -> Result<(), Memory> {
        if self.times > 0 && self.last.as_slice() == word.as_slice() {
            self.times = self.times.saturating_add(1);
            return Ok(());
        }
        self.close()?;
        self.last = word;
        self.times = 1;
        Ok(())
    }

    /// Writes the last word.
    fn close(&mut self) -> Result<(), Memory> {
        if self.times == 0 {
            return Ok(());
        }
        self.text.push(b' ')?;
        self.text.extend(self.last.as_slice())?;
        if self.times > 1 {
            self.text.extend(b" * ")?;
            put_number(&mut self.text, self.times as i128)?;
        }
        self.times = 0;
        self.text.push(b';')
    }
}

/// Two ends.
fn put_between(text: &mut Text, lb: End, ub: End) -> Result<(), Memory> {
    put_end(text, lb)?;
    text.extend(b"..")?;
    put_end(text, ub)
}

fn var_text(alloc: Global, var: Var) -> Result<Text, Memory> {
    let kind = if var.whole {
        b"whole ".as_slice()
    } else {
        b"any ".as_slice()
    };
    let mut text = Text::from_slice(alloc, kind)?;
    put_between(&mut text, var.lb, var.ub)?;
    if var.zero {
        text.extend(b" or 0")?;
    }
    Ok(text)
}

fn row_text(alloc: Global, row: Row) -> Result<Text, Memory> {
    let mut text = Text::new(alloc);
    put_between(&mut text, row.lb, row.ub)?;
    Ok(text)
}

fn frac_text(alloc: Global, x: Frac) -> Result<Text, Memory> {
    let mut text = Text::new(alloc);
    put_frac(&mut text, x)?;
    Ok(text)
}

fn entry_text(alloc: Global, entry: Entry) -> Result<Text, Memory> {
    let mut text = Text::new(alloc);
    put_number(&mut text, entry.row as i128)?;
    text.push(b' ')?;
    put_number(&mut text, entry.col as i128)?;
    text.push(b' ')?;
    put_frac(&mut text, entry.value)?;
    Ok(text)
}

fn put_vars(alloc: Global, words: &mut Words, vars: &[Var]) -> Result<(), Memory> {
    words.begin(b"vars")?;
    for var in vars {
        words.put(var_text(alloc, *var)?)?;
    }
    Ok(())
}

fn put_costs(alloc: Global, words: &mut Words, costs: &[Frac]) -> Result<(), Memory> {
    for cost in costs {
        words.put(frac_text(alloc, *cost)?)?;
    }
    Ok(())
}

fn put_goals(alloc: Global, words: &mut Words, goals: &[Goal]) -> Result<(), Memory> {
    for goal in goals {
        words.begin(match goal.sense {
            Sense::Min => b" min ",
            Sense::Max => b" max ",
        })?;
        put_frac(&mut words.text, goal.constant)?;
        put_costs(alloc, words, goal.costs.as_slice())?;
    }
    Ok(())
}

fn put_rows(alloc: Global, words: &mut Words, rows: &[Row]) -> Result<(), Memory> {
    words.begin(b" rows")?;
    for row in rows {
        words.put(row_text(alloc, *row)?)?;
    }
    Ok(())
}

fn put_entries(alloc: Global, words: &mut Words, entries: &[Entry]) -> Result<(), Memory> {
    words.begin(b" entries")?;
    for entry in entries {
        words.put(entry_text(alloc, *entry)?)?;
    }
    Ok(())
}

/// What an instance says.
pub(crate) fn instance_text(alloc: Global, instance: &Instance) -> Result<Text, Memory> {
    let mut words = Words {
        text: Text::new(alloc),
        last: Text::new(alloc),
        times: 0,
    };
    put_vars(alloc, &mut words, instance.vars())?;
    put_goals(alloc, &mut words, instance.goals())?;
    put_rows(alloc, &mut words, instance.rows())?;
    put_entries(alloc, &mut words, instance.entries())?;
    words.close()?;
    Ok(words.text)
}

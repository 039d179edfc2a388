//! Options documents (`docs/rules/options.md`).

use cases::{DocumentCases, Documents};
use decimal_text::write_ratio;
use fraction::Frac;
use itoa::Buffer;
use os_io::{Memory, Text};
use osol_grammar::{Gap, Options, OsolFault, decode, encode, refusal_text};
use std::alloc::Global;

/// Options documents.
#[derive(Drop)]
pub(crate) struct Osol;

/// Appends a word and a number.
fn put_amount(text: &mut Text, word: &[u8], amount: u32) -> Result<(), Memory> {
    text.extend(word)?;
    text.extend(Buffer::new().format(amount).as_bytes())
}

/// Appends a gap.
fn put_gap(text: &mut Text, gap: Gap) -> Result<(), Memory> {
    text.extend(b" gap ")?;
    write_ratio(gap.number, text)?;
    if gap.is_percent {
        text.extend(b"%")?;
    }
    Ok(())
}

/// Appends first values, `-` for each that isn't said.
fn put_values(text: &mut Text, values: &[Option<Frac>]) -> Result<(), Memory> {
    for value in values {
        text.extend(b" ")?;
        match value {
            Some(value) => write_ratio(*value, text)?,
            None => text.extend(b"-")?,
        }
    }
    Ok(())
}

impl Documents for Osol {
    type Said = Options;

    type Fault = OsolFault;

    fn decode(&self, alloc: Global, document: &[u8]) -> Result<Options, OsolFault> {
        decode(alloc, document)
    }

    fn refuse(&self, alloc: Global, fault: &OsolFault) -> Result<Text, Memory> {
        refusal_text(alloc, *fault)
    }

    fn tell(&self, alloc: Global, options: &Options) -> Result<Text, Memory> {
        let mut text = Text::new(alloc);
        put_amount(&mut text, b"nodes ", options.nodes)?;
        put_amount(&mut text, b" turns ", options.turns)?;
        if options.rounds > 0 {
            put_amount(&mut text, b" rounds ", options.rounds)?;
        }
        if options.names > 0 {
            put_amount(&mut text, b" names ", options.names)?;
        }
        if options.form > 0 {
            put_amount(&mut text, b" form ", options.form)?;
        }
        if options.bound > 0 {
            put_amount(&mut text, b" bound ", options.bound)?;
        }
        if let Some(gap) = options.gap {
            put_gap(&mut text, gap)?;
        }
        if let Some(seconds) = options.seconds {
            text.extend(b" seconds ")?;
            write_ratio(seconds, &mut text)?;
        }
        if let Some(first) = &options.first {
            text.extend(b" first")?;
            put_values(&mut text, first.as_slice())?;
        }
        if let Some(job) = &options.job {
            text.extend(b" job ")?;
            text.extend(job.as_slice())?;
        }
        Ok(text)
    }

    fn encode(&self, alloc: Global, options: &Options) -> Result<Text, Memory> {
        encode(alloc, options)
    }
}

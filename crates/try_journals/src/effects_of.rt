//! Effects as texts.

use cases::number_of;
use effects::{Document, Effect};
use job_journal::NotStored;

/// The effect that these words say.
pub fn effect_of(text: &[u8]) -> Option<Effect<'_>> {
    let mut words = text.split(|b| *b == b' ');
    let kind = words.next()?;
    let first = words.next().unwrap_or(b"");
    let second = words.next().unwrap_or(b"");
    let third = words.next().unwrap_or(b"");
    let number = number_of(first);
    match kind {
        b"issue" => Some(Effect::Issue),
        b"send" => Some(Effect::Send {
            number,
            osil: second,
            osol: third,
        }),
        b"enter" => Some(Effect::Enter {
            osil: first,
            osol: second,
        }),
        b"finish" => Some(Effect::Finish {
            number,
            document: Document::Kept { text: second },
        }),
        b"lose" => Some(Effect::Finish {
            number,
            document: Document::Missing,
        }),
        b"kill" => Some(Effect::Killed { number }),
        b"mark" => Some(Effect::Marked { number }),
        b"drop" => Some(Effect::GivenUp { number }),
        b"begin" => Some(Effect::Begin { first: number }),
        _ => None,
    }
}

/// What an effect's put answers.
pub fn answer_of(stored: Result<(), NotStored>) -> &'static [u8] {
    match stored {
        Ok(()) => b"stored ",
        Err(NotStored::Disk) => b"disk ",
        Err(NotStored::Broken) => b"broken ",
        Err(NotStored::Long) => b"long ",
    }
}

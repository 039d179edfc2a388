//! The words that the program is started with, and the usage that is written where they are no command.
//!
//! [`read_words`] says what the words ask for ([`Asked`]): `session [--journal FILE]`, `check OSIL OSRL`, `solve OSIL [--options OSOL] [--result OSRL] [--seconds N] [--halt FILE] [--safe]`,
//! `generate N`, `compact OLD NEW`, `call NAME HOST PORT [--osil F] [--osol F] [--ospl F]`, or
//! `serve HOST PORT [--workers W] [--servers S] [--connections C] [--patience SECONDS] [--first N] [--journal FILE]`. They are read by `clap`, and
//! what it makes of them is stated exactly (`specs/Words.antt`). [`CallWords`] and [`ServeWords`] are those of `call` and `serve`.
//! The laws say which words are a command's ([`commands_have_their_words`]), and that its numbers are within their ends.
#![tactic(auto)]

mod program;
mod words;

pub use words::{
    Asked, CallWords, ServeWords, commands_have_their_words, numbers_are_within_their_ends,
    read_words, write_usage,
};

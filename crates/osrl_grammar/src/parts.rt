//! The words of a certificate's items, and what is wrong with one.

use certificate::Node;
use osrl_writing::Worded;

/// The kinds of nodes, and what begins a level. Each has a word.
#[derive(Clone, Copy, PartialEq, Eq)]
pub(crate) enum NodeWord {
    Split,
    Zero,
    Clash,
    Farkas,
    Bound,
    Grid,
    FarkasRows,
    BoundRows,
    GridRows,
    Level,
}

/// An item of a tree: a node, or the number of the level whose nodes follow.
#[derive(Drop)]
pub(crate) enum TreeItem {
    Node(Node),
    Level(u32),
}

/// The kinds of rounds. Each has a word.
#[derive(Clone, Copy, PartialEq, Eq)]
pub(crate) enum RoundWord {
    Whole,
    OfRows,
}

/// The kinds of causes. Each has a word.
#[derive(Clone, Copy, PartialEq, Eq)]
pub(crate) enum CauseWord {
    Killed,
    NodeLimit,
    TurnLimit,
    Gap,
    TimeLimit,
    Wide,
    Length,
    Memory,
}

/// What is wrong with an item: it isn't of its shape or begins a level that may not stand there, a text in it isn't a
/// number, or a number is too great. Of several the first of these is told.
#[derive(Clone, Copy, PartialEq, Eq)]
pub(crate) enum Misread {
    NoShape,
    NoNumber,
    TooGreat,
}

/// An item that isn't read: what is wrong with it, and its number.
#[derive(Clone, Copy, PartialEq, Eq)]
pub(crate) struct BadItem {
    pub misread: Misread,
    pub number: u64,
}

impl Worded for NodeWord {
    ghost use Rattle.osrl_grammar.specs.Items.{node_word};

    ghost text = { node_word };

    fn word(self) -> &'static [u8] {
        match self {
            NodeWord::Split => b"split",
            NodeWord::Zero => b"zero",
            NodeWord::Clash => b"clash",
            NodeWord::Farkas => b"farkas",
            NodeWord::Bound => b"bound",
            NodeWord::Grid => b"grid",
            NodeWord::FarkasRows => b"farkasRows",
            NodeWord::BoundRows => b"boundRows",
            NodeWord::GridRows => b"gridRows",
            NodeWord::Level => b"level",
        }
    }
}

impl Worded for RoundWord {
    ghost use Rattle.osrl_grammar.specs.Items.{round_word};

    ghost text = { round_word };

    fn word(self) -> &'static [u8] {
        match self {
            RoundWord::Whole => b"round",
            RoundWord::OfRows => b"roundRows",
        }
    }
}

impl Worded for CauseWord {
    ghost use Rattle.osrl_grammar.specs.Items.{cause_word};

    ghost text = { cause_word };

    fn word(self) -> &'static [u8] {
        match self {
            CauseWord::Killed => b"killed",
            CauseWord::NodeLimit => b"nodeLimit",
            CauseWord::TurnLimit => b"turnLimit",
            CauseWord::Gap => b"gap",
            CauseWord::TimeLimit => b"timeLimit",
            CauseWord::Wide => b"wide",
            CauseWord::Length => b"length",
            CauseWord::Memory => b"memory",
        }
    }
}

//! The items of a certificate's parts.

ghost use Rattle.std.specs.Prelude.{◌≡◌, ◌↔◌, ◌++◌, ◌∷◌, [], ℕ, List, Some, IsTrue, IsFalse, false, IfOk, MatchOption, codes};
ghost use Rattle.std.specs.List.{AllZip};
ghost use Rattle.tag_tests.specs.Fields.{FieldsRead};
ghost use Rattle.osrl_writing.specs.declared.parts.Part.TheVariants as parts;
ghost use Rattle.osrl_grammar.specs.declared.parts.NodeWord as kinds;
ghost use Rattle.osrl_grammar.specs.declared.parts.NodeWord.TheVariants as heads;
ghost use Rattle.osrl_grammar.specs.declared.parts.RoundWord.TheVariants as turns;
ghost use Rattle.osrl_grammar.specs.Words.{worded};
ghost use Rattle.osrl_grammar.specs.Numbers.{Index, Exact, Field, IsBad, IsTooGreat};
ghost use Rattle.osrl_grammar.specs.Pieces.{more, pieces};
ghost use Rattle.osrl_grammar.specs.Items as items;
ghost use Rattle.osrl_grammar.specs.Items.{ReadsTexts, pair_fields, mults_fields, grid_fields};
ghost use Rattle.osrl_grammar.specs.Values.{IsMult, IsMultOf, IsOne, IsOneFraction, SaysSteps, IsPlace, IsSaidBehind, node_head, SaysNode, tree_head, SaysTree, IsTreeItem, round_head, SaysRound, IsRound, IsLevelBut, cause_head, SaysCause, IsCause};
ghost use Rattle.osrl_grammar.specs.Stepping.{ReadMults, gridded};

use crate::numbers::{read_exact, read_index, read_turn, read_whole};
use crate::parts::{CauseWord, Misread, NodeWord, RoundWord, TreeItem};
use crate::pieces::{first_piece, one_piece, parted, three_pieces, two_pieces};
use crate::words::with_word;
use certificate::{Cause, Mult, Mults, Node, Place, Round, Step};
use fraction::Frac;
use os_io::Memory;
use osrl_writing::Part;
use std::alloc::Global;
use tag_tests::{Unread, both};

/// What is wrong with the numbers of an item, as it is told of the item.
pub(crate) fn misread(unread: Unread) -> Misread
    ensures { result ≡ items.misread_of unread }
{
    match unread {
        Unread::NotNumber => Misread::NoNumber,
        Unread::Wide => Misread::TooGreat,
    }
}

/// A column and its multiplier.
fn read_mult(column: &[u8], factor: &[u8]) -> Result<Mult, Unread>
    ensures { FieldsRead IsBad IsTooGreat (pair_fields (record { column = column.now; factor = factor.now })) result (IsMultOf (Some (record { column = column.now; factor = factor.now }))) }
{
    match both(read_index(column), read_exact(factor)) {
        Ok((col, value)) => Ok(Mult { col, value }),
        Err(unread) => Err(unread),
    }
}

/// Adds one multiplier more, where all before it were read.
fn push_read(
    mults: &mut Mults,
    so_far: Result<(), Unread>,
    mult: Result<Mult, Unread>,
) -> Result<Result<(), Unread>, Memory>
    ensures { (done : List (List ℕ)) (piece : List ℕ) (fs gs : List Field) → ReadMults done fs mults.old so_far → FieldsRead IsBad IsTooGreat gs mult (IsMult piece) → IfOk result (ReadMults (done ++ piece ∷ []) (fs ++ gs) mults.new) }
{
    match both(so_far, mult) {
        Ok((_, mult)) => {
            mults.push(mult)?;
            Ok(Ok(()))
        }
        Err(unread) => Ok(Err(unread)),
    }
}

/// Multipliers, one a piece.
fn read_mults(alloc: Global, pairs: Option<&[u8]>) -> Result<Result<Mults, Misread>, Memory>
    ensures { IfOk result (λ r. ReadsTexts (mults_fields (more pairs.entry)) r (AllZip IsMult (more pairs.entry))) }
{
    let mut mults = Mults::new(alloc);
    let mut so_far = Ok(());
    let mut rest = pairs;
    while let Some(text) = rest {
        let (piece, behind) = first_piece(text);
        let Some((column, factor)) = parted(piece) else {
            return Ok(Err(Misread::NoShape));
        };
        so_far = push_read(&mut mults, so_far, read_mult(column, factor))?;
        rest = behind;
    }
    match so_far {
        Ok(()) => Ok(Ok(mults)),
        Err(unread) => Ok(Err(misread(unread))),
    }
}

/// A column, or a limit, that stands alone.
fn read_one(rest: Option<&[u8]>) -> Result<u32, Misread>
    ensures { ReadsTexts (items.one_field Index (more rest.entry)) result (IsOne (more rest.entry)) }
{
    let Some(text) = one_piece(rest) else {
        return Err(Misread::NoShape);
    };
    match read_index(text) {
        Ok(n) => Ok(n),
        Err(unread) => Err(misread(unread)),
    }
}

/// A time that stands alone, in seconds.
fn read_time(rest: Option<&[u8]>) -> Result<Frac, Misread>
    ensures { ReadsTexts (items.one_field Exact (more rest.entry)) result (IsOneFraction (more rest.entry)) }
{
    let Some(text) = one_piece(rest) else {
        return Err(Misread::NoShape);
    };
    match read_exact(text) {
        Ok(seconds) => Ok(seconds),
        Err(unread) => Err(misread(unread)),
    }
}

/// A split behind its word.
fn read_split(rest: Option<&[u8]>) -> Result<Node, Misread>
    ensures { ReadsTexts (items.node_behind heads.Split (more rest.entry)) result (IsSaidBehind node_head SaysNode heads.Split (more rest.entry)) }
{
    let Some((column, bound)) = two_pieces(rest) else {
        return Err(Misread::NoShape);
    };
    match both(read_index(column), read_whole(bound)) {
        Ok((col, k)) => Ok(Node::Split { col, k }),
        Err(unread) => Err(misread(unread)),
    }
}

/// A variable that is 0 or between its ends, behind its word.
fn read_zero(rest: Option<&[u8]>) -> Result<Node, Misread>
    ensures { ReadsTexts (items.node_behind heads.Zero (more rest.entry)) result (IsSaidBehind node_head SaysNode heads.Zero (more rest.entry)) }
{
    match read_one(rest) {
        Ok(col) => Ok(Node::Zero { col }),
        Err(misread) => Err(misread),
    }
}

/// A clash behind its word.
fn read_clash(rest: Option<&[u8]>) -> Result<Node, Misread>
    ensures { ReadsTexts (items.node_behind heads.Clash (more rest.entry)) result (IsSaidBehind node_head SaysNode heads.Clash (more rest.entry)) }
{
    match read_one(rest) {
        Ok(col) => Ok(Node::Clash { col }),
        Err(misread) => Err(misread),
    }
}

/// Multipliers by which no point is feasible.
fn farkas(mults: Result<Mults, Misread>) -> Result<Node, Misread>
    ensures { (ps : List (List ℕ)) → ReadsTexts (mults_fields ps) mults (AllZip IsMult ps) → ReadsTexts (mults_fields ps) result (IsSaidBehind node_head SaysNode heads.Farkas ps) }
{
    match mults {
        Ok(mults) => Ok(Node::Farkas(mults)),
        Err(misread) => Err(misread),
    }
}

/// Multipliers by which no point is better.
fn bound(mults: Result<Mults, Misread>) -> Result<Node, Misread>
    ensures { (ps : List (List ℕ)) → ReadsTexts (mults_fields ps) mults (AllZip IsMult ps) → ReadsTexts (mults_fields ps) result (IsSaidBehind node_head SaysNode heads.Bound ps) }
{
    match mults {
        Ok(mults) => Ok(Node::Bound(mults)),
        Err(misread) => Err(misread),
    }
}

/// The same of rows alone.
fn farkas_rows(mults: Result<Mults, Misread>) -> Result<Node, Misread>
    ensures { (ps : List (List ℕ)) → ReadsTexts (mults_fields ps) mults (AllZip IsMult ps) → ReadsTexts (mults_fields ps) result (IsSaidBehind node_head SaysNode heads.FarkasRows ps) }
{
    match mults {
        Ok(mults) => Ok(Node::FarkasRows(mults)),
        Err(misread) => Err(misread),
    }
}

/// Multipliers of rows alone, by which no point is better.
fn bound_rows(mults: Result<Mults, Misread>) -> Result<Node, Misread>
    ensures { (ps : List (List ℕ)) → ReadsTexts (mults_fields ps) mults (AllZip IsMult ps) → ReadsTexts (mults_fields ps) result (IsSaidBehind node_head SaysNode heads.BoundRows ps) }
{
    match mults {
        Ok(mults) => Ok(Node::BoundRows(mults)),
        Err(misread) => Err(misread),
    }
}

/// What is wrong with a step and multipliers, of which the latter are misread.
fn wrong_with(step: Result<Frac, Unread>, mults: Misread) -> Misread
    ensures { result ≡ items.wrong_with mults step }
{
    match mults {
        Misread::TooGreat => match step {
            Err(Unread::NotNumber) => Misread::NoNumber,
            _ => Misread::TooGreat,
        },
        _ => mults,
    }
}

/// A step and multipliers, or what is wrong with them.
fn gridded(
    step: Result<Frac, Unread>,
    mults: Result<Mults, Misread>,
) -> Result<(Frac, Mults), Misread>
    ensures { result ≡ gridded mults step }
{
    match mults {
        Ok(mults) => match step {
            Ok(step) => Ok((step, mults)),
            Err(unread) => Err(misread(unread)),
        },
        Err(wrong) => Err(wrong_with(step, wrong)),
    }
}

/// A step, and then multipliers, one a piece.
fn read_steps(alloc: Global, rest: Option<&[u8]>) -> Result<Result<(Frac, Mults), Misread>, Memory>
    ensures { IfOk result (λ r. ReadsTexts (grid_fields (more rest.entry)) r (SaysSteps (more rest.entry))) }
{
    let Some(text) = rest else {
        return Ok(Err(Misread::NoShape));
    };
    let (step, behind) = first_piece(text);
    let mults = read_mults(alloc, behind)?;
    Ok(gridded(read_exact(step), mults))
}

/// Multipliers by which no point is better, on a grid with this step.
fn grid(leaf: Result<(Frac, Mults), Misread>) -> Result<Node, Misread>
    ensures { (ps : List (List ℕ)) → ReadsTexts (grid_fields ps) leaf (SaysSteps ps) → ReadsTexts (grid_fields ps) result (IsSaidBehind node_head SaysNode heads.Grid ps) }
{
    match leaf {
        Ok((step, mults)) => Ok(Node::Grid { step, mults }),
        Err(misread) => Err(misread),
    }
}

/// The same of rows alone.
fn grid_rows(leaf: Result<(Frac, Mults), Misread>) -> Result<Node, Misread>
    ensures { (ps : List (List ℕ)) → ReadsTexts (grid_fields ps) leaf (SaysSteps ps) → ReadsTexts (grid_fields ps) result (IsSaidBehind node_head SaysNode heads.GridRows ps) }
{
    match leaf {
        Ok((step, mults)) => Ok(Node::GridRows { step, mults }),
        Err(misread) => Err(misread),
    }
}

/// The number of a level behind its word.
fn read_level(rest: Option<&[u8]>) -> Result<TreeItem, Misread>
    ensures { ReadsTexts (items.node_behind heads.Level (more rest.entry)) result (IsSaidBehind tree_head SaysTree heads.Level (more rest.entry)) }
{
    match read_one(rest) {
        Ok(level) => Ok(TreeItem::Level(level)),
        Err(misread) => Err(misread),
    }
}

/// A node as an item of a tree.
fn as_item(node: Result<Node, Misread>) -> Result<TreeItem, Misread>
    ensures { (w : kinds.NodeWord) (ps : List (List ℕ)) → ReadsTexts (items.node_behind w ps) node (IsSaidBehind node_head SaysNode w ps) → ReadsTexts (items.node_behind w ps) result (IsSaidBehind tree_head SaysTree w ps) }
{
    match node {
        Ok(node) => Ok(TreeItem::Node(node)),
        Err(misread) => Err(misread),
    }
}

/// An item of a tree behind its word.
fn tree_item_of(
    alloc: Global,
    word: NodeWord,
    rest: Option<&[u8]>,
) -> Result<Result<TreeItem, Misread>, Memory>
    ensures { IfOk result (λ r. ReadsTexts (items.node_behind word (more rest.entry)) r (IsSaidBehind tree_head SaysTree word (more rest.entry))) }
{
    match word {
        NodeWord::Split => Ok(as_item(read_split(rest))),
        NodeWord::Zero => Ok(as_item(read_zero(rest))),
        NodeWord::Clash => Ok(as_item(read_clash(rest))),
        NodeWord::Farkas => Ok(as_item(farkas(read_mults(alloc, rest)?))),
        NodeWord::Bound => Ok(as_item(bound(read_mults(alloc, rest)?))),
        NodeWord::Grid => Ok(as_item(grid(read_steps(alloc, rest)?))),
        NodeWord::FarkasRows => Ok(as_item(farkas_rows(read_mults(alloc, rest)?))),
        NodeWord::BoundRows => Ok(as_item(bound_rows(read_mults(alloc, rest)?))),
        NodeWord::GridRows => Ok(as_item(grid_rows(read_steps(alloc, rest)?))),
        NodeWord::Level => Ok(read_level(rest)),
    }
}

/// The words of nodes, and of what begins a level.
const NODE_WORDS: [NodeWord; 10] = [
    NodeWord::Split,
    NodeWord::Zero,
    NodeWord::Clash,
    NodeWord::Farkas,
    NodeWord::Bound,
    NodeWord::Grid,
    NodeWord::FarkasRows,
    NodeWord::BoundRows,
    NodeWord::GridRows,
    NodeWord::Level,
];

/// What has this word, if something has.
fn node_word(word: &[u8]) -> Option<NodeWord>
    ensures { result ≡ worded items.node_word items.all_node_words word.now }
{
    with_word(word, &NODE_WORDS)
}

/// The node that an item is, or the level that it begins.
pub(crate) fn read_tree_item(
    alloc: Global,
    text: &[u8],
) -> Result<Result<TreeItem, Misread>, Memory>
    ensures { IfOk result (λ r. ReadsTexts (items.item_fields parts.Tree text.now) r (IsTreeItem text.now)) }
{
    let (word, rest) = first_piece(text);
    match node_word(word) {
        Some(word) => tree_item_of(alloc, word, rest),
        None => Ok(Err(Misread::NoShape)),
    }
}

/// Whether an item has the first letter of the word of a level. Most items of a tree don't, and aren't cut for it.
fn may_begin_level(text: &[u8]) -> bool
    ensures { IsFalse result → items.begins_level (pieces text.now) ≡ false }
{
    if text.is_empty() {
        return false;
    }
    text[0] == b'l'
}

/// Whether an item begins with the word of a level.
fn begins_level(text: &[u8]) -> bool
    ensures { result ≡ items.begins_level (pieces text.now) }
{
    if !may_begin_level(text) {
        return false;
    }
    let (word, _) = first_piece(text);
    word == b"level".as_slice()
}

/// Whether an item of a part is one of a tree that begins so.
pub(crate) fn is_level(part: Part, text: &[u8]) -> bool
    ensures { result ≡ items.is_level part text.now }
{
    match part {
        Part::Tree => begins_level(text),
        _ => false,
    }
}

/// The text in the place of a level's number, if an item has the shape of one that begins a level.
fn level_text(text: &[u8]) -> Option<&[u8]>
    ensures { MatchOption result ((k : List ℕ) → pieces text.now ≡ codes "level" ∷ k ∷ [] → ⊥) (λ k. pieces text.now ≡ codes "level" ∷ k.now ∷ []) }
{
    if !begins_level(text) {
        return None;
    }
    let (_, rest) = first_piece(text);
    one_piece(rest)
}

/// Whether an item begins a level whose number is written, and isn't this one.
pub(crate) fn is_level_but(text: &[u8], level: u32) -> bool
    ensures { IsTrue result ↔ IsLevelBut level (pieces text.now) }
{
    let Some(number) = level_text(text) else {
        return false;
    };
    match read_index(number) {
        Ok(n) => n != level,
        Err(Unread::Wide) => true,
        Err(Unread::NotNumber) => false,
    }
}

/// Multipliers as a round.
fn whole_round(mults: Result<Mults, Misread>) -> Result<Round, Misread>
    ensures { (ps : List (List ℕ)) → ReadsTexts (mults_fields ps) mults (AllZip IsMult ps) → ReadsTexts (mults_fields ps) result (IsSaidBehind round_head SaysRound turns.Whole ps) }
{
    match mults {
        Ok(mults) => Ok(Round::Whole(mults)),
        Err(misread) => Err(misread),
    }
}

/// Multipliers of rows as a round.
fn row_round(mults: Result<Mults, Misread>) -> Result<Round, Misread>
    ensures { (ps : List (List ℕ)) → ReadsTexts (mults_fields ps) mults (AllZip IsMult ps) → ReadsTexts (mults_fields ps) result (IsSaidBehind round_head SaysRound turns.OfRows ps) }
{
    match mults {
        Ok(mults) => Ok(Round::OfRows(mults)),
        Err(misread) => Err(misread),
    }
}

/// A round behind its word.
fn round_of(
    alloc: Global,
    word: RoundWord,
    rest: Option<&[u8]>,
) -> Result<Result<Round, Misread>, Memory>
    ensures { IfOk result (λ r. ReadsTexts (items.round_behind word (more rest.entry)) r (IsSaidBehind round_head SaysRound word (more rest.entry))) }
{
    let mults = read_mults(alloc, rest)?;
    match word {
        RoundWord::Whole => Ok(whole_round(mults)),
        RoundWord::OfRows => Ok(row_round(mults)),
    }
}

/// The words of rounds.
const ROUND_WORDS: [RoundWord; 2] = [RoundWord::Whole, RoundWord::OfRows];

/// The kind of round of this word, if there is one.
fn round_word(word: &[u8]) -> Option<RoundWord>
    ensures { result ≡ worded items.round_word items.all_round_words word.now }
{
    with_word(word, &ROUND_WORDS)
}

/// The round that an item says.
pub(crate) fn read_round(alloc: Global, text: &[u8]) -> Result<Result<Round, Misread>, Memory>
    ensures { IfOk result (λ r. ReadsTexts (items.item_fields parts.Rounds text.now) r (IsRound text.now)) }
{
    let (word, rest) = first_piece(text);
    match round_word(word) {
        Some(word) => round_of(alloc, word, rest),
        None => Ok(Err(Misread::NoShape)),
    }
}

/// All steps.
const STEPS: [Step; 7] = [
    Step::Values,
    Step::Ratio,
    Step::Pivot,
    Step::Point,
    Step::Ray,
    Step::Round,
    Step::Check,
];

/// The step of this word, if there is one.
fn step_of(word: &[u8]) -> Option<Step>
    ensures { result ≡ worded items.step_text items.all_steps word.now }
{
    with_word(word, &STEPS)
}

/// The place of a number that was too wide.
fn read_place(rest: Option<&[u8]>) -> Result<Place, Misread>
    ensures { ReadsTexts (items.place_fields (more rest.entry)) result (IsPlace (more rest.entry)) }
{
    let Some((node, turn, word)) = three_pieces(rest) else {
        return Err(Misread::NoShape);
    };
    let Some(step) = step_of(word) else {
        return Err(Misread::NoShape);
    };
    match both(read_index(node), read_turn(turn)) {
        Ok((node, turn)) => Ok(Place { node, turn, step }),
        Err(unread) => Err(misread(unread)),
    }
}

/// This cause, where nothing stands behind its word.
fn alone(rest: Option<&[u8]>, cause: Cause) -> Result<Cause, Misread>
    ensures { ReadsTexts (items.no_field (more rest.entry)) result (λ c. (c ≡ cause) × (more rest.entry ≡ [])) }
{
    match rest {
        None => Ok(cause),
        Some(_) => Err(Misread::NoShape),
    }
}

/// A cause behind its word.
fn cause_of(word: CauseWord, rest: Option<&[u8]>) -> Result<Cause, Misread>
    ensures { ReadsTexts (items.cause_behind word (more rest.entry)) result (IsSaidBehind cause_head SaysCause word (more rest.entry)) }
{
    match word {
        CauseWord::Killed => alone(rest, Cause::Killed),
        CauseWord::Gap => alone(rest, Cause::Gap),
        CauseWord::Length => alone(rest, Cause::Length),
        CauseWord::Memory => alone(rest, Cause::Memory),
        CauseWord::NodeLimit => match read_one(rest) {
            Ok(n) => Ok(Cause::NodeLimit(n)),
            Err(misread) => Err(misread),
        },
        CauseWord::TurnLimit => match read_one(rest) {
            Ok(n) => Ok(Cause::TurnLimit(n)),
            Err(misread) => Err(misread),
        },
        CauseWord::TimeLimit => match read_time(rest) {
            Ok(seconds) => Ok(Cause::TimeLimit(seconds)),
            Err(misread) => Err(misread),
        },
        CauseWord::Wide => match read_place(rest) {
            Ok(place) => Ok(Cause::Wide(place)),
            Err(misread) => Err(misread),
        },
    }
}

/// The words of causes.
const CAUSE_WORDS: [CauseWord; 8] = [
    CauseWord::Killed,
    CauseWord::NodeLimit,
    CauseWord::TurnLimit,
    CauseWord::Gap,
    CauseWord::TimeLimit,
    CauseWord::Wide,
    CauseWord::Length,
    CauseWord::Memory,
];

/// The kind of cause of this word, if there is one.
fn cause_word(word: &[u8]) -> Option<CauseWord>
    ensures { result ≡ worded items.cause_word items.all_cause_words word.now }
{
    with_word(word, &CAUSE_WORDS)
}

/// The cause that an item is.
pub(crate) fn read_cause(text: &[u8]) -> Result<Cause, Misread>
    ensures { ReadsTexts (items.item_fields parts.Cause text.now) result (IsCause text.now) }
{
    let (word, rest) = first_piece(text);
    match cause_word(word) {
        Some(word) => cause_of(word, rest),
        None => Err(Misread::NoShape),
    }
}

//! Reads what answers a call.

ghost use Rattle.std.specs.Prelude.{◌≡◌, ◌⊎◌, IfOk, IfErr};
ghost use Rattle.tree_grammar.specs.Elements.{Element, events};
ghost use Rattle.doc_tree.specs.declared.fault.TreeFault.TheVariants as trees;
ghost use Rattle.document_tags.specs.OneChild.{IsOnly};
ghost use Rattle.soap_calls.specs.Replies.{IsAnswerIn, IsReplyText, AreOfReply, NoReplyDocument};
ghost use Rattle.soap_calls.specs.Refusals.{ReplyFails};

use crate::answering::read_answer;
use crate::fault::{Answer, NotReply};
use doc_tree::{TreeFault, read};
use document_tags::Spot;
use element_tree::Tree;
use os_io::{MOST_REPLY, Memory};
use std::alloc::Global;

/// The tree of a reply's document, or that there is none.
fn read_bytes(alloc: Global, bytes: &[u8]) -> Result<Tree, TreeFault>
    ensures ok { IfOk result (AreOfReply bytes.now) }
    ensures err { IfErr result (λ f. (f ≡ trees.Memory) ⊎ NoReplyDocument bytes.now) }
{
    read(alloc, bytes, MOST_REPLY)
}

/// The answer in a tree, if there is one.
fn read_tree(alloc: Global, name: &[u8], tree: &Tree) -> Result<Option<Answer>, Memory>
    ensures { (e : Element) → tree.now ≡ events e → IfOk result (IsOnly (IsAnswerIn name.now e)) }
{
    match Spot::root(tree) {
        Some(root) => read_answer(alloc, name, root),
        None => Ok(None),
    }
}

/// What answers the call of this name, as the body of a response: a document of at most 25,165,824 bytes and of a depth of
/// at most 32.
///
/// [`NotReply::Form`] exactly where the bytes are none, or no envelope with one body that has one element in it, which is
/// the call's response or a fault.
pub fn read_reply(alloc: Global, name: &[u8], bytes: &[u8]) -> Result<Answer, NotReply>
    ensures ok { IfOk result (IsReplyText name.now bytes.now) }
    ensures err { IfErr result (ReplyFails name.now bytes.now) }
{
    match read_bytes(alloc, bytes) {
        Ok(tree) => match read_tree(alloc, name, &tree)? {
            Some(answer) => Ok(answer),
            None => Err(NotReply::Form),
        },
        Err(TreeFault::Memory) => Err(NotReply::Memory),
        Err(_) => Err(NotReply::Form),
    }
}

//! What holds of every conversation.
ghost use Rattle.os_server.specs.OneReading.{Requests, Bodies};
ghost use Rattle.os_server.specs.Laws.{ConversationsAreKept, BytesAreCutOneWay, RepliesDecide};

use crate::server::Server;
use document_tags::tree_faults_have_one_text;
use http_link::{
    cut_input_holds_no_request, ended_input_holds_no_request, one_head_comes_first,
    one_request_comes_first,
};
use job_runs::finishes_are_kept;
use job_table::Verdicts;
use soap_calls::{bytes_have_one_refusal, bytes_say_one_call, calls_are_not_refused};

/// Law: where a conversation's moves are those of the whole history from some moment on, every finish among them is kept, where its effect
/// is stored.
pub fn conversations_are_kept<V: Verdicts, S: Server<V>>()
    ensures { ConversationsAreKept S.ran S.wakes V.right }
{
    finishes_are_kept::<V, S>();
}

/// Law: bytes are requests in one way.
fn requests_are_read_one_way()
    ensures { Requests }
{
    one_head_comes_first();
    one_request_comes_first();
    cut_input_holds_no_request();
    ended_input_holds_no_request();
}

/// Law: a body is a call, with its options and its process, in one way, or is refused in one.
fn bodies_are_read_one_way()
    ensures { Bodies }
{
    bytes_say_one_call();
    bytes_have_one_refusal();
    calls_are_not_refused();
    osol_grammar::document_says_one();
    osol_grammar::document_has_one_refusal();
    osol_grammar::options_are_not_refused();
    ospl_grammar::document_has_one_refusal();
    ospl_grammar::process_is_not_refused();
    tree_faults_have_one_text();
}

/// Law: without a fault, and with memory, the bytes to come alone decide how they are cut into requests, and how the conversation
/// ends.
pub fn bytes_are_cut_one_way<V: Verdicts, S: Server<V>>()
    ensures { BytesAreCutOneWay S.ran S.wakes }
{
    requests_are_read_one_way();
    bodies_are_read_one_way();
}

/// Law: without a fault, and with memory, the bytes to come and the table's replies to the moves decide the bytes written: two
/// conversations over the same bytes whose moves had the same replies, one after another, wrote the same.
pub fn bytes_and_replies_decide_the_answers<V: Verdicts, S: Server<V>>()
    ensures { RepliesDecide S.ran S.wakes }
{
    requests_are_read_one_way();
    bodies_are_read_one_way();
}

//! What bytes say to a call, once and as a server writes them, and what the command tells of it.

ghost use Rattle.std.specs.Prelude.{◌≡◌, ◌≤◌, ◌++◌, ℕ, List, Result, Ok, Err, true, length, codes};
ghost use Rattle.tree_grammar.specs.Characters.{IsXmlText};
ghost use Rattle.http_link.specs.declared.refusal.Refusal as refusals;
ghost use Rattle.http_link.specs.Checks.{most_body};
ghost use Rattle.http_link.specs.Requests.{IsRequest};
ghost use Rattle.http_link.specs.Outgoing.{request_text};
ghost use Rattle.http_link.specs.Responses.{answer_text, fault_answer_text, refusal_bytes};
ghost use Rattle.os_io.specs.Limits.{most_reply};
ghost use Rattle.http_link.specs.Replies.{code_of};
ghost use Rattle.six_calls.specs.declared.call.CallKind as kinds;
ghost use Rattle.soap_calls.specs.declared.call.SoapCall as given;
ghost use Rattle.six_calls.specs.Names.{kind_text};
ghost use Rattle.soap_calls.specs.Calls.{IsCallText};
ghost use Rattle.soap_calls.specs.Replies.{MayReturn};
ghost use Rattle.soap_calls.specs.Writing.{call_text, reply_text, fault_text};
ghost use Rattle.soap_calls.specs.Back.{AreTexts};
ghost use Rattle.os_client.specs.declared.fault.CallFault as faults;
ghost use Rattle.os_client.specs.declared.fault.CallFault.TheVariants.{Refused, Http};
ghost use Rattle.os_client.specs.Answers.{SaysToCall};
ghost use Rattle.httparse.specs.Grammar.{ResponseHead, IsResponseHead, status_code};
ghost use Rattle.os_client.specs.Outputs.{returned_status, fault_line, http_line, three_digits};
ghost use Rattle.os_client.specs.Runs.{CallRun, CallEnds};
ghost use Rattle.os_client.specs.Laws.{GivesFirst, Prints};

use http_link::{
    answers_are_read_back, bytes_are_one_reply, one_reply_comes_first, refusals_are_read_back,
    requests_are_read_back,
};
use soap_calls::{
    bytes_say_one_answer, calls_are_read_back, faults_are_read_back, returns_are_read_back,
};

/// Law: bytes say one thing to a call.
pub fn bytes_have_one_answer()
    ensures { (name bytes : List ℕ) (r s : Result (List ℕ) faults.CallFault) → SaysToCall name bytes r → SaysToCall name bytes s → r ≡ s }
{
    bytes_are_one_reply();
    bytes_say_one_answer();
}

/// Law: what is written for a call is one request, whose body is the envelope of that call. The texts of its parts are to
/// be characters of XML, and the envelope within the limit of a request's body.
pub fn requests_are_calls()
    ensures request { (c : given.SoapCall) → length (call_text c) ≤ most_body → IsRequest (request_text (call_text c)) true (call_text c) }
    ensures call { (c : given.SoapCall) → AreTexts c → length (call_text c) ≤ most_body → IsCallText (call_text c) c }
{
    requests_are_read_back();
    calls_are_read_back();
}

/// Law: what a server writes to a call says what it means: the text that is returned, the fault, with `soap:` before its
/// code, or the status of a refusal. Texts are to be characters of XML, and within the limit of a response's body; what
/// `send` returns is to be `true` or `false`.
pub fn written_answers_are_heard()
    ensures returned { (k : kinds.CallKind) (text : List ℕ) → IsXmlText text → MayReturn (kind_text k) text → length (reply_text (kind_text k) text) ≤ most_reply
        → SaysToCall (kind_text k) (answer_text (reply_text (kind_text k) text)) (Ok text) }
    ensures fault { (name code text : List ℕ) → IsXmlText code → IsXmlText text → length (fault_text code text) ≤ most_reply
        → SaysToCall name (fault_answer_text (fault_text code text)) (Err (Refused (codes "soap:" ++ code) text)) }
    ensures refused { (name : List ℕ) (refusal : refusals.Refusal) → SaysToCall name (refusal_bytes refusal) (Err (Http (code_of refusal))) }
{
    answers_are_read_back();
    refusals_are_read_back();
    returns_are_read_back();
    faults_are_read_back();
}

/// Law: the three digits that are told of a response's status are those of its head (RFC 9112, section 4).
pub fn statuses_are_told_as_they_came()
    ensures { (h : ResponseHead) → IsResponseHead h → three_digits (status_code h) ≡ h.digits }
{}

/// Law: what a server writes to a call is told as it meant it, if nothing fails: the text that it returns as it is, a fault
/// with `soap:` before its code, and a refusal's status. Texts are to be characters of XML and within the limit of a
/// response's body, and what `send` returns `true` or `false`.
pub fn written_answers_are_told()
    ensures returned { (status : ℕ) (run : CallRun) (text : List ℕ) → IsXmlText text → MayReturn (kind_text run.kind) text → length (reply_text (kind_text run.kind) text) ≤ most_reply
        → GivesFirst run (answer_text (reply_text (kind_text run.kind) text)) → CallEnds status run → Prints (returned_status run.kind text) text status run }
    ensures fault { (status : ℕ) (run : CallRun) (code text : List ℕ) → IsXmlText code → IsXmlText text → length (fault_text code text) ≤ most_reply
        → GivesFirst run (fault_answer_text (fault_text code text)) → CallEnds status run → Prints 1 (fault_line (codes "soap:" ++ code) text) status run }
    ensures refused { (status : ℕ) (run : CallRun) (refusal : refusals.Refusal) → GivesFirst run (refusal_bytes refusal) → CallEnds status run → Prints 1 (http_line (code_of refusal)) status run }
{
    answers_are_read_back();
    refusals_are_read_back();
    one_reply_comes_first();
    bytes_have_one_answer();
    written_answers_are_heard();
}

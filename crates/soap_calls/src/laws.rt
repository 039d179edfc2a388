//! What the definitions say together: of calls and answers, and the texts that say them.

ghost use Rattle.std.specs.Prelude.{◌≡◌, ◌≢◌, ◌++◌, ℕ, ◌≤◌, List, Result, Ok, Err, IfOk, IfErr, length, codes};
ghost use Rattle.tree_grammar.specs.Characters.{IsXmlText};
ghost use Rattle.document_tags.specs.Texts.{document_limit};
ghost use Rattle.os_io.specs.Limits.{most_reply};
ghost use Rattle.six_calls.specs.declared.call.CallKind as kinds;
ghost use Rattle.soap_calls.specs.declared.call.SoapCall as given;
ghost use Rattle.soap_calls.specs.declared.fault.SoapFault as refused;
ghost use Rattle.soap_calls.specs.declared.fault.SoapFault.TheVariants as faults;
ghost use Rattle.soap_calls.specs.declared.fault.Answer as given_back;
ghost use Rattle.soap_calls.specs.declared.fault.Answer.TheVariants as answers;
ghost use Rattle.soap_calls.specs.declared.fault.NotReply as unread;
ghost use Rattle.soap_calls.specs.declared.fault.NotReply.TheVariants as lost;
ghost use Rattle.six_calls.specs.Names.{kind_text};
ghost use Rattle.soap_calls.specs.Calls.{IsCallText};
ghost use Rattle.soap_calls.specs.Replies.{MayReturn, IsReplyText};
ghost use Rattle.soap_calls.specs.Refusals.{CallFails, ReplyFails};
ghost use Rattle.soap_calls.specs.Writing.{call_text, reply_text, fault_text};
ghost use Rattle.soap_calls.specs.Back.{AreTexts};

/// Law: bytes are the envelope of one call at most.
pub fn bytes_say_one_call()
    ensures { (bytes : List ℕ) (c d : given.SoapCall) → IsCallText bytes c → IsCallText bytes d → c ≡ d }
{}

/// Law: bytes are refused as a call in one way at most, but for want of memory.
pub fn bytes_have_one_refusal()
    ensures { (bytes : List ℕ) (f g : refused.SoapFault) → f ≢ faults.Memory → g ≢ faults.Memory → CallFails bytes f → CallFails bytes g → f ≡ g }
{}

/// Law: bytes that are the envelope of a call aren't refused, but for want of memory.
pub fn calls_are_not_refused()
    ensures { (bytes : List ℕ) (c : given.SoapCall) (f : refused.SoapFault) → IsCallText bytes c → CallFails bytes f → f ≡ faults.Memory }
{}

/// Law: bytes answer a call by one answer at most.
pub fn bytes_say_one_answer()
    ensures { (name bytes : List ℕ) (a b : given_back.Answer) → IsReplyText name bytes a → IsReplyText name bytes b → a ≡ b }
{}

/// Law: a text that bytes return to a call is one that the call may return: to `send` it is `true` or `false`.
pub fn returned_texts_may_be_returned()
    ensures { (name bytes text : List ℕ) → IsReplyText name bytes (answers.Return text) → MayReturn name text }
{}

/// Law: what [`read_call`](crate::read_call) answers of the text that [`write_call`](crate::write_call) writes of a call, by
/// its contract, is that call, but for want of memory; its texts are to be characters of XML, empty where the call doesn't have
/// the part, and the envelope within the limit of a request's body.
pub fn calls_are_read_back()
    ensures call { (c : given.SoapCall) → AreTexts c → length (call_text c) ≤ document_limit → IsCallText (call_text c) c }
    ensures read { (c : given.SoapCall) (r : Result given.SoapCall refused.SoapFault) → AreTexts c → length (call_text c) ≤ document_limit
        → IfOk r (IsCallText (call_text c)) → IfErr r (CallFails (call_text c)) → r ≢ Err faults.Memory → r ≡ Ok c }
{}

/// Law: what [`read_reply`](crate::read_reply) answers of the text that [`write_reply`](crate::write_reply) writes, by its
/// contract, is that text returned, but for want of memory; it is to be of characters of XML, of a call of `send` one of
/// `true` and `false`, and the reply within the limit of a response's body.
pub fn returns_are_read_back()
    ensures says { (k : kinds.CallKind) (text : List ℕ) → IsXmlText text → MayReturn (kind_text k) text → length (reply_text (kind_text k) text) ≤ most_reply
        → IsReplyText (kind_text k) (reply_text (kind_text k) text) (answers.Return text) }
    ensures read { (k : kinds.CallKind) (text : List ℕ) (r : Result given_back.Answer unread.NotReply) → IsXmlText text → MayReturn (kind_text k) text → length (reply_text (kind_text k) text) ≤ most_reply
        → IfOk r (IsReplyText (kind_text k) (reply_text (kind_text k) text)) → IfErr r (ReplyFails (kind_text k) (reply_text (kind_text k) text)) → r ≢ Err lost.Memory → r ≡ Ok (answers.Return text) }
{}

/// Law: what [`read_reply`](crate::read_reply) answers of the text that [`write_fault`](crate::write_fault) writes, by its
/// contract, is that fault, whatever the call, but for want of memory; its texts are to be characters of XML, and the text
/// within the limit of a response's body.
pub fn faults_are_read_back()
    ensures says { (name code text : List ℕ) → IsXmlText code → IsXmlText text → length (fault_text code text) ≤ most_reply
        → IsReplyText name (fault_text code text) (answers.Fault (codes "soap:" ++ code) text) }
    ensures read { (name code text : List ℕ) (r : Result given_back.Answer unread.NotReply) → IsXmlText code → IsXmlText text → length (fault_text code text) ≤ most_reply
        → IfOk r (IsReplyText name (fault_text code text)) → IfErr r (ReplyFails name (fault_text code text)) → r ≢ Err lost.Memory → r ≡ Ok (answers.Fault (codes "soap:" ++ code) text) }
{}

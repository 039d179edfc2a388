//! What the bytes that came say.

ghost use Rattle.std.specs.Prelude.{◌≡◌, ◌⊎◌, ◌↔◌, ℕ, List, Err, IsTrue};
ghost use Rattle.http_link.specs.Replies.{IsReply, Replies};
ghost use Rattle.soap_calls.specs.declared.fault.Answer as answers;
ghost use Rattle.soap_calls.specs.Replies.{IsReplyText};
ghost use Rattle.os_client.specs.declared.fault.CallFault.TheVariants.{Memory};
ghost use Rattle.os_client.specs.Answers.{status_of, IsNoReply, SaysToCall};

use crate::fault::CallFault;
use http_link::{Came, bytes_are_one_reply};
use os_io::Text;
use soap_calls::{Answer, NotReply, bytes_say_one_answer, read_reply};
use std::alloc::Global;

/// Law: a response with 200 or 500 is no reply where no answer in its body has its status.
fn unanswered_is_no_reply()
    ensures { (name bytes body : List ℕ) (status : ℕ) → IsReply bytes status body → (status ≡ 200) ⊎ (status ≡ 500)
        → ((a : answers.Answer) → IsReplyText name body a → status ≡ status_of a → ⊥) → IsNoReply name bytes }
{
    bytes_are_one_reply();
}

/// Whether a response of this status has an answer in its body.
fn has_answer(status: u16) -> bool
    ensures { IsTrue result ↔ (status ≡ 200) ⊎ (status ≡ 500) }
{
    status == 200 || status == 500
}

/// What the bytes that came say to the call of this name.
pub(crate) fn reading(alloc: Global, name: &[u8], came: Came) -> Result<Text, CallFault>
    requires { Replies came.bytes came.reply }
    ensures { (result ≡ Err Memory) ⊎ SaysToCall name.now came.bytes result }
{
    unanswered_is_no_reply();
    bytes_say_one_answer();
    let Came { bytes, reply } = came;
    let Some(response) = reply else {
        return Err(CallFault::NoReply { bytes });
    };
    let status = response.status;
    if !has_answer(status) {
        return Err(CallFault::Http { status });
    }
    match read_reply(alloc, name, response.body.as_slice()) {
        Ok(Answer::Return(text)) => {
            if status == 200 {
                Ok(text)
            } else {
                Err(CallFault::NoReply { bytes })
            }
        }
        Ok(Answer::Fault { code, text }) => {
            if status == 500 {
                Err(CallFault::Refused { code, text })
            } else {
                Err(CallFault::NoReply { bytes })
            }
        }
        Err(NotReply::Memory) => Err(CallFault::Memory),
        Err(NotReply::Form) => Err(CallFault::NoReply { bytes }),
    }
}

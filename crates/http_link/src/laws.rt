//! What the bytes to come hold at their front.

ghost use Rattle.std.specs.Prelude.{◌≡◌, ◌≤◌, ◌⊎◌, ◌++◌, [], ℕ, Bool, true, List, Result, Err, length};
ghost use Rattle.http_link.specs.declared.checks.Accepted.{Accepted};
ghost use Rattle.http_link.specs.Checks.{most_body, Head};
ghost use Rattle.http_link.specs.Outgoing.{request_text};
ghost use Rattle.http_link.specs.Pieces.{TakesPieces};
ghost use Rattle.http_link.specs.Requests.{IsRequest, IsBegun, IsHeadPart, IsCut, EndedBetween};
ghost use Rattle.http_link.specs.Responses.{answer_text, fault_answer_text, refusal_bytes};
ghost use Rattle.os_io.specs.Limits.{most_reply};
ghost use Rattle.http_link.specs.Replies.{code_of, IsReply, IsReadWhole, IsReplyBegun, IsReplyPart, EndsReading};
ghost use Rattle.http_link.specs.declared.refusal.Refusal.{Refusal};

use os_io::Body;

/// Law: bytes begin with one head at most, and one thing comes of it: what it says, or a refusal.
pub fn one_head_comes_first()
    ensures bytes { (head other rest more : List ℕ) (outcome again : Result Accepted Refusal) → Head head outcome → Head other again → head ++ rest ≡ other ++ more → head ≡ other }
    ensures outcome { (head other rest more : List ℕ) (outcome again : Result Accepted Refusal) → Head head outcome → Head other again → head ++ rest ≡ other ++ more → outcome ≡ again }
{}

/// Law: bytes begin with one request at most, of one body, which asks to close or not, and then with no head that is refused.
pub fn one_request_comes_first()
    ensures bytes { (request other rest more body again : List ℕ) (close shut : Bool) → IsRequest request close body → IsRequest other shut again → request ++ rest ≡ other ++ more → request ≡ other }
    ensures body { (request other rest more body again : List ℕ) (close shut : Bool) → IsRequest request close body → IsRequest other shut again → request ++ rest ≡ other ++ more → body ≡ again }
    ensures close { (request other rest more body again : List ℕ) (close shut : Bool) → IsRequest request close body → IsRequest other shut again → request ++ rest ≡ other ++ more → close ≡ shut }
    ensures refused { (request head rest more body : List ℕ) (close : Bool) (refusal : Refusal) → IsRequest request close body → Head head (Err refusal) → request ++ rest ≡ head ++ more → ⊥ }
{}

/// Law: bytes that have only begun with a request begin with no whole one, and with no head that is refused.
pub fn begun_request_is_not_whole()
    ensures request { (bytes request rest body : List ℕ) (close : Bool) → IsBegun bytes → IsRequest request close body → bytes ≡ request ++ rest → ⊥ }
    ensures refused { (bytes head rest : List ℕ) (refusal : Refusal) → IsBegun bytes → Head head (Err refusal) → bytes ≡ head ++ rest → ⊥ }
{}

/// Law: a part of a head, or all of it, is a first part of the request, or of the refused head, that the bytes begin with; and so is
/// what has only begun.
pub fn part_is_of_the_first_request()
    ensures request { (part request rest more body : List ℕ) (close : Bool) → IsHeadPart part ⊎ IsBegun part → IsRequest request close body → part ++ rest ≡ request ++ more → (behind : List ℕ) × (request ≡ part ++ behind) × (rest ≡ behind ++ more) }
    ensures refused { (part head rest more : List ℕ) (refusal : Refusal) → IsHeadPart part ⊎ IsBegun part → Head head (Err refusal) → part ++ rest ≡ head ++ more → (behind : List ℕ) × (head ≡ part ++ behind) × (rest ≡ behind ++ more) }
{}

/// Law: one who took pieces took their bytes.
pub fn pieces_are_their_bytes<B: Body>()
    ensures { (old new : B) (bytes : List ℕ) → TakesPieces B.took old new bytes → B.took old new bytes }
{}

/// Law: input that is cut begins with no request and with no head that is refused, and has not ended between requests.
pub fn cut_input_holds_no_request()
    ensures request { (bytes request rest body : List ℕ) (close : Bool) → IsCut bytes → IsRequest request close body → bytes ≡ request ++ rest → ⊥ }
    ensures refused { (bytes head rest : List ℕ) (refusal : Refusal) → IsCut bytes → Head head (Err refusal) → bytes ≡ head ++ rest → ⊥ }
    ensures ended { (bytes : List ℕ) → IsCut bytes → EndedBetween bytes → ⊥ }
{}

/// Law: input that ended between requests begins with no request and with no head that is refused.
pub fn ended_input_holds_no_request()
    ensures request { (bytes request rest body : List ℕ) (close : Bool) → EndedBetween bytes → IsRequest request close body → bytes ≡ request ++ rest → ⊥ }
    ensures refused { (bytes head rest : List ℕ) (refusal : Refusal) → EndedBetween bytes → Head head (Err refusal) → bytes ≡ head ++ rest → ⊥ }
{}

/// Law: the bytes that come decide which of them a client reads: those after which nothing is read, or all.
pub fn one_reply_comes_first()
    ensures { (came other rest more : List ℕ) → EndsReading came (rest ≡ []) → EndsReading other (more ≡ []) → came ++ rest ≡ other ++ more → came ≡ other }
{}

/// Law: bytes behind which a client reads no more, and bytes behind which it reads on, are a first part of those that it reads, or all
/// of them.
pub fn what_came_is_a_part()
    ensures done { (bytes : List ℕ) → IsReadWhole bytes → IsReplyPart bytes }
    ensures begun { (bytes : List ℕ) → IsReplyBegun bytes → IsReplyPart bytes }
{}

/// Law: a part is a first part of those that a client reads of the bytes that come, or all of them.
pub fn part_is_of_the_first_reply()
    ensures { (part came rest more : List ℕ) → IsReplyPart part → EndsReading came (more ≡ []) → part ++ rest ≡ came ++ more → (behind : List ℕ) × (came ≡ part ++ behind) × (rest ≡ behind ++ more) }
{}

/// Law: bytes are one reply at most: of one status, and of one body.
pub fn bytes_are_one_reply()
    ensures { (bytes body other : List ℕ) (status code : ℕ) → IsReply bytes status body → IsReply bytes code other → (status ≡ code) × (body ≡ other) }
{}

/// Law: what [`write_answer`](crate::write_answer) writes is a whole reply with 200 and that body, and what
/// [`write_fault_answer`](crate::write_fault_answer) writes is one with 500, where the body is within the limit of a client.
pub fn answers_are_read_back()
    ensures answer { (body : List ℕ) → length body ≤ most_reply → IsReply (answer_text body) 200 body × IsReadWhole (answer_text body) }
    ensures fault { (body : List ℕ) → length body ≤ most_reply → IsReply (fault_answer_text body) 500 body × IsReadWhole (fault_answer_text body) }
{}

/// Law: what [`write_refusal`](crate::write_refusal) writes is a whole reply with its status.
pub fn refusals_are_read_back()
    ensures { (refusal : Refusal) → IsReply (refusal_bytes refusal) (code_of refusal) [] × IsReadWhole (refusal_bytes refusal) }
{}

/// Law: what [`write_request`](crate::write_request) writes is a request with that body, behind which the connection is to
/// close, where the body is within the limit of a server.
pub fn requests_are_read_back()
    ensures { (body : List ℕ) → length body ≤ most_body → IsRequest (request_text body) true body }
{}

//! What the definitions promise of each other. These functions do nothing: their clauses are laws.
ghost use Rattle.std.specs.Prelude.{◌≡◌, ◌<◌, ◌^◌, ◌++◌, ℕ, Bool, true, IsTrue, List, [], Option, Some, None, length};
ghost use Rattle.std.proofs.Common.{inl, inr};
ghost use Rattle.httparse.specs.Grammar.{AllPass, RequestHead, ResponseHead, is_value_byte};
ghost use Rattle.dap_http.specs.Carried.{Carries, said};
ghost use Rattle.dap_http.specs.Chunks.{IsWhole};
ghost use Rattle.dap_http.specs.Delivered.{BreaksOff, Delivers, HasCoding};
ghost use Rattle.dap_http.specs.Frames.{chunked, framed};
ghost use Rattle.dap_http.specs.Reading.{GivesFinal};
ghost use Rattle.dap_http.specs.Replies.{HasFinal, coding_in};
ghost use Rattle.dap_http.specs.Requests.{FirstRequest, HasNoRequest, IsBadRequest, IsGone, IsTooLong, Requests};
ghost use Rattle.dap_http.specs.Texts.{IsReplyStatus, head_text};
ghost use Rattle.dap_http.specs.declared.coding.Coding.{Coding};
ghost use Rattle.reply_faults.specs.declared.bad.Bad.{Bad};
ghost use Rattle.reply_faults.specs.declared.bad.BadField.{BadField};

/// An input has at most one first request.
pub fn one_request()
    ensures { (input rest behind : List ℕ) (head other : RequestHead) → FirstRequest input head rest → FirstRequest input other behind
        → (head ≡ other) × (rest ≡ behind) }
{}

/// The first request stays when bytes follow.
pub fn request_stays()
    ensures { (input rest more : List ℕ) (head : RequestHead) → FirstRequest input head rest → FirstRequest (input ++ more) head (rest ++ more) }
{}

/// Bytes that are refused, and those that end before a head does, hold no request; nor do the refused
/// ones with more behind them.
pub fn no_request()
    ensures bad { (bytes more : List ℕ) → IsBadRequest bytes → HasNoRequest (bytes ++ more) }
    ensures too_long { (bytes more : List ℕ) → IsTooLong bytes → HasNoRequest (bytes ++ more) }
    ensures gone { (bytes : List ℕ) → IsGone bytes → HasNoRequest bytes }
{}

/// Bytes that are refused stay so, whatever follows.
pub fn refusal_stays()
    ensures bad { (bytes more : List ℕ) → IsBadRequest bytes → IsBadRequest (bytes ++ more) }
    ensures too_long { (bytes more : List ℕ) → IsTooLong bytes → IsTooLong (bytes ++ more) }
{}

/// An input has one list of requests.
pub fn one_list()
    ensures { (k : ℕ) (input left behind : List ℕ) (heads others : List RequestHead) → Requests k input heads left → Requests k input others behind
        → (heads ≡ others) × (left ≡ behind) }
{}

/// A body that is sent in chunks is a whole coded body (RFC 9112, section 7.1), and carries that body.
pub fn framed_whole()
    ensures { (body : List ℕ) → IsWhole (chunked body) body }
{}

/// A whole coded body carries one body.
pub fn one_body()
    ensures { (bytes body other : List ℕ) → IsWhole bytes body → IsWhole bytes other → body ≡ other }
{}

/// A head that is sent is a final head, behind which stands what follows it, and says how the length of
/// its body is told.
pub fn head_is_final()
    ensures { (status : ℕ) (description : List ℕ) (len : Option ℕ) (in_chunks close : Bool) (rest : List ℕ) → IsReplyStatus status
        → AllPass is_value_byte description → ((n : ℕ) → len ≡ Some n → n < 10 ^ 18)
        → (head : ResponseHead) × HasFinal (head_text status description len in_chunks close ++ rest) head rest × (coding_in head ≡ inr (said len in_chunks)) }
{}

/// A reply is a head and the body, framed as the head says. It carries that body.
pub fn reply_carries()
    ensures data { (status : ℕ) (description body : List ℕ) (in_chunks close : Bool) → IsReplyStatus status → AllPass is_value_byte description
        → Carries (head_text status description None in_chunks close ++ framed in_chunks body) body }
    ensures text { (status : ℕ) (description body : List ℕ) (in_chunks close : Bool) → IsReplyStatus status → AllPass is_value_byte description
        → length body < 10 ^ 18 → Carries (head_text status description (Some (length body)) in_chunks close ++ body) body }
{}

/// A reply has one body, or it breaks off. Where its final head says how the body is coded, it breaks
/// off in one way.
pub fn one_delivery()
    ensures whole { (reply body other rest left : List ℕ) (ended : Bool) → Delivers reply ended body rest → Delivers reply ended other left
        → (body ≡ other) × (rest ≡ left) }
    ensures broken { (reply body other rest : List ℕ) (ended : Bool) (bad : BadField) → Delivers reply ended body rest → BreaksOff reply ended other bad → ⊥ }
    ensures first { (reply behind body other : List ℕ) (ended : Bool) (coding : Coding) (bad wrong : BadField) → HasCoding reply coding behind
        → BreaksOff reply ended body bad → BreaksOff reply ended other wrong → (body ≡ other) × (bad ≡ wrong) }
{}

/// The body of a reply, and how it breaks off, stay where bytes follow; none do behind its end.
pub fn delivery_stays()
    ensures whole { (reply more body rest : List ℕ) (ended : Bool) → (IsTrue ended → more ≡ []) → Delivers reply ended body rest
        → Delivers (reply ++ more) true body (rest ++ more) }
    ensures broken { (reply more body : List ℕ) (ended : Bool) (bad : BadField) → (IsTrue ended → more ≡ []) → BreaksOff reply ended body bad
        → BreaksOff (reply ++ more) true body bad }
{}

/// Where the final head says wrongly how the body is coded (another coding, or a length that is none), the
/// reply breaks off there before its body, with that kind and in no other way, whatever follows.
pub fn head_decides()
    ensures breaks { (reply behind more : List ℕ) (ended : Bool) (kind : Bad) → GivesFinal reply behind (inl kind)
        → BreaksOff (reply ++ more) ended [] (record { kind = kind; place = 0 }) }
    ensures only { (reply behind body : List ℕ) (ended : Bool) (kind : Bad) (bad : BadField) → GivesFinal reply behind (inl kind)
        → BreaksOff reply ended body bad → (body ≡ []) × (bad ≡ record { kind = kind; place = 0 }) }
    ensures nothing { (reply behind body rest : List ℕ) (ended : Bool) (kind : Bad) → GivesFinal reply behind (inl kind) → Delivers reply ended body rest → ⊥ }
{}

//! What both ends promise of one another (DAP 2.0, DODS). In come the server's definitions of a target's
//! result and of its reply, and the client's of a verdict; out go laws that join them, each the contract
//! of a function that does nothing. `specs/Ends` and `specs/Again` state them.
#![tactic(auto)]

ghost use Rattle.both_ends.specs.Again.{SavedIsServed, WrittenIsServedAgain};
ghost use Rattle.both_ends.specs.Ends.{AllAreGood, ReplyDelivers, ReplyIsJudged, ResultIsGood, ResultIsTooLong, ServedIsGood};

/// The data response that a target is answered with, of fewer than 2^40 bytes, is a good body, with the
/// dataset and the values that the constraint leaves of the stored file.
pub fn result_is_good()
    ensures law { ResultIsGood }
{}

/// One of 2^40 bytes or more is refused by the client as too long.
pub fn result_is_too_long()
    ensures law { ResultIsTooLong }
{}

/// The reply to GET that carries a data response delivers it whole; in chunks, before whatever stands
/// behind it.
pub fn reply_delivers()
    ensures law { ReplyDelivers }
{}

/// The verdict on the reply to GET is the verdict on the data response that it carries.
pub fn reply_is_judged()
    ensures law { ReplyIsJudged }
{}

/// Each reply to GET that carries a data response of fewer than 2^40 bytes is good where it stands in what
/// a connection has put, and the next one begins where it ends.
pub fn served_is_good()
    ensures law { ServedIsGood }
{}

/// The same of the replies to all requests of an input, where no fault came and memory was had.
pub fn all_are_good()
    ensures law { AllAreGood }
{}

/// A saved data response that is asked for without a constraint is served as its dataset and its values.
pub fn saved_is_served()
    ensures law { SavedIsServed }
{}

/// A data response that a target is answered with, saved under any name, gives its values back.
pub fn written_is_served_again()
    ensures law { WrittenIsServedAgain }
{}

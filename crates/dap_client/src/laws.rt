//! Laws of verdicts, apart from any run of a reader.

ghost use Rattle.std.specs.Prelude.{ℕ, List, ◌⊎◌};
ghost use Rattle.dap_errors.specs.Reading.{ErrorOf, IsBad, IsCut};
ghost use Rattle.dap_errors.specs.declared.object.ErrorObject.{ErrorObject};
ghost use Rattle.dap_client.specs.GoodParts.{EachHasGoodPart, StopsInGoodPart};
ghost use Rattle.dap_client.specs.Replies.{OneReplyVerdict};
ghost use Rattle.dap_client.specs.Verdict.{GoodIsBody, OneVerdict};

/// Of whatever form a body is, one verdict at most is on its bytes.
pub fn bytes_have_one_verdict()
    ensures { OneVerdict }
{}

/// The good data responses are the bodies (DAP 2.0, DODS).
pub fn good_is_body()
    ensures { GoodIsBody }
{}

/// Each text is an Error object (DAP 2.0, Error objects), bad at a place, or cut.
pub fn each_text_is_judged()
    ensures { (text : List ℕ) → ((error : ErrorObject) × ErrorOf text error) ⊎ ((place : ℕ) × IsBad text place) ⊎ IsCut text }
{}

/// A reply has one verdict at most, where its final head tells how the body is coded.
pub fn one_reply_verdict()
    ensures { OneReplyVerdict }
{}

/// What a client that stops may have put of the bytes that it took is what may be put of those before the first
/// thing that is wrong: `StopsWithin` of the clauses on a fault names the same texts.
pub fn stops_in_good_part()
    ensures { StopsInGoodPart }
{}

/// All bytes have a part before the first thing that is wrong with them.
pub fn each_has_good_part()
    ensures { EachHasGoodPart }
{}

//! What a body is that stands in memory (DAP 2.0, DODS and Error objects). No trees are made of its values.

ghost use Rattle.std.specs.Prelude.{◌≡◌, ◌<◌, ◌≤◌, length, true};
ghost use Rattle.dap_types.specs.Limits.{most_written};
ghost use Rattle.error_word.specs.Saying as saying;
ghost use Rattle.netcdf_writer.specs.inner.Judged.{IsJudged};

use dap_errors::{ErrorObject, ErrorRefusal, read_error};
use error_word::says_error;
use std::alloc::Global;
use xdr_decode::{AllRefusal, Bad, BadField, Checked, check_all};

/// What a body is.
#[derive(Drop)]
pub enum Judged {
    /// A data response.
    Good(Checked),
    /// An Error object.
    ServerError(ErrorObject),
    /// What is wrong with it first, and where.
    Bad(BadField),
    Memory,
}

fn bad(kind: Bad, place: u64) -> Judged
    ensures { result ≡ Judged.Bad (record { kind = kind; place = place }) }
{
    Judged::Bad(BadField { kind, place })
}

/// What a body is whose first word is `Error`.
fn judge_object(alloc: Global, body: &[u8]) -> Judged
    requires few { length body.now ≤ most_written }
    requires error { saying.says_error body.now ≡ true }
    ensures { IsJudged body.now result }
{
    match read_error(alloc, body) {
        Ok(object) => Judged::ServerError(object),
        Err(ErrorRefusal::Bad { place }) => bad(Bad::BadError, place),
        Err(ErrorRefusal::Cut) => bad(Bad::Cut, body.len() as u64),
        Err(ErrorRefusal::Memory) => Judged::Memory,
    }
}

/// What a body is, of no more bytes than are saved.
pub fn judge_body(alloc: Global, body: &[u8]) -> Judged
    requires { length body.now ≤ most_written }
    ensures { IsJudged body.now result }
{
    if says_error(body) {
        return judge_object(alloc, body);
    }
    match check_all(alloc, body) {
        Ok(checked) => Judged::Good(checked),
        Err(AllRefusal::Refused(field)) => Judged::Bad(field),
        Err(AllRefusal::Memory) => Judged::Memory,
    }
}

//! What the bytes of a data response are to the one who reads them, and what may be shown of a part.
ghost use Rattle.dap_model.specs.Partly.{NothingWithoutHead, PartIsOfLines};
ghost use Rattle.dap_model.specs.Reading.{ConstrainedIsRead, OneBody, OneHead, SentIsRead, TooLargeByLimits};

/// Bytes have one head, and it is that of one dataset.
pub fn one_head()
    ensures law { OneHead }
{}

/// Bytes are the body of one dataset and one list of values.
pub fn one_body()
    ensures law { OneBody }
{}

/// A dataset is not too large exactly where its text and its members keep the limits.
pub fn too_large_by_limits()
    ensures law { TooLargeByLimits }
{}

/// What is sent of a dataset that is not too large is read back.
pub fn sent_is_read()
    ensures law { SentIsRead }
{}

/// What is sent of what a constraint leaves is read back, where that is not too large.
pub fn constrained_is_read()
    ensures law { ConstrainedIsRead }
{}

/// Where a read or a put failed, a front is shown of what is shown of a refused body.
pub fn part_is_of_lines()
    ensures law { PartIsOfLines }
{}

/// Only of a body with a good `Data:` line something is shown.
pub fn nothing_without_head()
    ensures law { NothingWithoutHead }
{}

use saved_source::SavedBody;
use xdr_encode::Body;

/// The body of a data response.
#[derive(Drop)]
pub enum DataBody {
    /// It reads its file as it goes out, or has the values of a table.
    OfFile(Body),
    /// It has the values of a saved response.
    Saved(SavedBody),
}

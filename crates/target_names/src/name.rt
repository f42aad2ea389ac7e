ghost use Rattle.std.specs.Prelude.{◌≡◌};
ghost use Rattle.std.specs.List.{list_all, slice_split};
ghost use Rattle.target_names.specs.Names.{is_name, is_name_byte, is_segment, is_slash};

/// The bytes of a name.
const MOST_NAME: usize = 255;

/// Whether these bytes are a name that a target may have.
#[tactic(auto, unfolding(crate::specs::Names::is_name))]
pub fn is_name(name: &[u8]) -> bool
    ensures { result ≡ is_name name.now }
{
    !name.is_empty() && name.len() <= MOST_NAME && are_segments(name)
}

fn are_segments(name: &[u8]) -> bool
    ensures { result ≡ list_all is_segment (slice_split is_slash name.now) }
{
    name.split(|b| *b == b'/').all(|part| is_segment(part))
}

fn is_segment(part: &[u8]) -> bool
    ensures { result ≡ is_segment part.now }
{
    match part {
        [] => false,
        [first, ..] => !(*first == b'.') && are_name_bytes(part),
    }
}

fn are_name_bytes(bytes: &[u8]) -> bool
    ensures { result ≡ list_all is_name_byte bytes.now }
{
    bytes.iter().all(|b| is_name_byte(*b))
}

fn is_name_byte(b: u8) -> bool
    ensures { result ≡ is_name_byte b }
{
    b.is_ascii_alphanumeric() || b'_' == b || b'.' == b || b'+' == b || b'-' == b
}

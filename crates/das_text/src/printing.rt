ghost use Rattle.std.specs.Prelude.{◌≡◌, ◌*◌, ◌<◌, ◌≤◌, ◌^◌, ◌++◌, codes, IfOk, MatchResult, OnOk};
ghost use Rattle.std.specs.List.{flat_map};
ghost use Rattle.dap_model.specs.Dds.{line};
ghost use Rattle.das_text.specs.Das.{attribute_text, das, entry_text, entries_text, later_value, values_text, word_text};
ghost use Rattle.das_text.specs.View.{attributes_view, entry_view, entries_view};

use crate::{Attribute, Attributes, Entry, Word};
use dap_types::{Bytes, Id, Memory};
use std::alloc::Global;
use text_lines::{put, put_line, put_spaces, type_word};
use viable::push_escaped;

/// Nothing is printed at this depth: the text of an entry there has more than 2^47 bytes, so memory
/// for it is wanted. Attributes that are read or checked nest at most 16 deep.
const TOO_DEEP: u32 = 1 << 23;

/// Fails at that depth and below it, and nowhere else.
fn check_depth(depth: u32) -> Result<(), Memory>
    ensures { MatchResult result (λ _. depth < 2 ^ 23) (λ _. 2 ^ 23 ≤ depth) }
{
    if depth >= TOO_DEEP {
        return Err(Memory);
    }
    Ok(())
}

/// The DAS of the attributes (DAP 2.0, Dataset Attribute Structure, in this project's layout). Fails
/// where memory is wanted.
#[tactic(auto, unfolding(crate::specs::Das::das))]
pub fn print(alloc: Global, attributes: &Attributes) -> Result<Bytes, Memory>
    ensures text { IfOk result (λ text. text ≡ das (attributes_view attributes.now)) }
{
    let mut out = Vec::new(alloc);
    put_line(&mut out, 0, b"Attributes {")?;
    put_entries(&mut out, 1, attributes.containers.items())?;
    put_line(&mut out, 0, b"}")?;
    Ok(Bytes::from_vec(out))
}

fn put_word(out: &mut Vec<u8>, word: &Word) -> Result<(), Memory>
    ensures { OnOk result (out.new.items ≡ out.old.items ++ word_text word.now) }
{
    match word {
        Word::Plain(bytes) => put(out, bytes.bytes()),
        Word::Quoted(text) => {
            put(out, b"\"")?;
            push_escaped(out, text.bytes())?;
            put(out, b"\"")
        }
    }
}

/// Appends the values behind the first one.
fn put_later_values(out: &mut Vec<u8>, words: &[Word]) -> Result<(), Memory>
    ensures { OnOk result (out.new.items ≡ out.old.items ++ flat_map later_value words.now) }
{
    for word in words {
        put(out, b", ")?;
        put_word(out, word)?;
    }
    Ok(())
}

fn put_values(out: &mut Vec<u8>, words: &[Word]) -> Result<(), Memory>
    ensures { OnOk result (out.new.items ≡ out.old.items ++ values_text words.now) }
{
    match words {
        [] => Ok(()),
        [first, later @ ..] => {
            put(out, b" ")?;
            put_word(out, first)?;
            put_later_values(out, later)
        }
    }
}

/// Appends the line of an attribute.
#[tactic(auto, unfolding(dap_model::specs::Dds::line, crate::specs::Das::attribute_text))]
fn put_attribute(out: &mut Vec<u8>, depth: u32, attribute: &Attribute) -> Result<(), Memory>
    requires { depth < 2 ^ 24 }
    ensures { OnOk result (out.new.items ≡ out.old.items ++ attribute_text depth attribute.now) }
{
    put_spaces(out, 4 * depth)?;
    put(out, type_word(attribute.base))?;
    put(out, b" ")?;
    put(out, attribute.name.bytes())?;
    put_values(out, attribute.values.items())?;
    put(out, b";\n")
}

/// Appends the first line of a container.
#[tactic(auto, unfolding(dap_model::specs::Dds::line))]
fn put_opening(out: &mut Vec<u8>, depth: u32, name: &Id) -> Result<(), Memory>
    requires { depth < 2 ^ 24 }
    ensures { OnOk result (out.new.items ≡ out.old.items ++ line (4 * depth) (name.now ++ codes " {")) }
{
    put_spaces(out, 4 * depth)?;
    put(out, name.bytes())?;
    put(out, b" {\n")
}

#[cycle(printing)]
#[tactic(auto, using(crate::proofs::Views::views, crate::proofs::Views::walks))]
fn put_entries(out: &mut Vec<u8>, depth: u32, entries: &[Entry]) -> Result<(), Memory>
    ensures { OnOk result (out.new.items
        ≡ out.old.items ++ entries_text depth (entries_view entries.now)) }
{
    for entry in entries {
        put_entry(out, depth, entry)?;
    }
    Ok(())
}

#[cycle(printing)]
#[tactic(auto, using(crate::proofs::Views::views, crate::proofs::Views::walks))]
fn put_entry(out: &mut Vec<u8>, depth: u32, entry: &Entry) -> Result<(), Memory>
    ensures { OnOk result (out.new.items
        ≡ out.old.items ++ entry_text depth (entry_view entry.now)) }
{
    check_depth(depth)?;
    match entry {
        Entry::Attr(attribute) => put_attribute(out, depth, attribute),
        Entry::Container(name, entries) => {
            put_opening(out, depth, name)?;
            put_entries(out, depth + 1, entries.items())?;
            put_line(out, 4 * depth, b"}")?;
            Ok(())
        }
    }
}

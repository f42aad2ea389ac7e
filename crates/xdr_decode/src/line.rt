ghost use Rattle.std.specs.Prelude.{◌≡◌, ◌/◌, ◌%◌, ◌^◌, ◌<◌, ◌∷◌, ◌++◌, [], codes, map, slice_get};
ghost use Rattle.std.specs.Option.{option_map_or};
ghost use Rattle.dap_model.specs.Shown.{index_text};
ghost use Rattle.dap_outside.specs.Causes.{HasCause};
ghost use Rattle.dap_types.specs.View.{members_view};
ghost use Rattle.std.specs.Fmt.{decimal};
ghost use Rattle.xdr_fields.specs.Wants.{index_texts};
ghost use Rattle.dap_outside.specs.Buffered.{Puts};
ghost use Rattle.xdr_decode.specs.inner.Lines.{array_text, cell_text, column_text, path_text, shown_token, stage_text, token_text};

use crate::field::Token;
use crate::path::array_at;
use crate::place::{Stage, elements};
use crate::value_text::{put_double, put_number, put_whole, put_word};
use dap_outside::{Buffer, Failed, Sink};
use dap_types::{ArrayDecl, Column, Decl, Dim, Id};

/// Puts an index and a bracket.
fn put_closed<O: Sink>(buffer: &mut Buffer, out: &mut O, index: u64) -> Result<(), Failed>
    ensures puts { Puts (O.written out.old) buffer.old.bytes.items (O.written out.new) buffer.new.bytes.items result (decimal index ++ codes "]") }
    ensures cause { HasCause (O.put_faults out.old) (O.put_faults out.new) result }
    ensures beside { O.beside_writing out.new ≡ O.beside_writing out.old }
{
    put_number(buffer, out, index)?;
    buffer.put(out, b"]")
}

/// Puts an index in brackets.
fn put_index<O: Sink>(buffer: &mut Buffer, out: &mut O, index: u64) -> Result<(), Failed>
    ensures puts { Puts (O.written out.old) buffer.old.bytes.items (O.written out.new) buffer.new.bytes.items result (index_text index) }
    ensures cause { HasCause (O.put_faults out.old) (O.put_faults out.new) result }
    ensures beside { O.beside_writing out.new ≡ O.beside_writing out.old }
{
    buffer.put(out, b"[")?;
    put_closed(buffer, out, index)
}

/// The index of an element, where so many elements have each.
fn index_of(number: u32, count: u64) -> u64
    ensures { result ≡ number / count }
{
    if count == 0 {
        return 0;
    }
    u64::from(number) / count
}

/// The number of an element among those with its index.
fn number_in(number: u32, count: u64) -> u32
    ensures { result ≡ number % count }
{
    if count == 0 {
        return number;
    }
    (u64::from(number) % count) as u32
}

/// Puts the indexes of an element of an array by its number, in row-major order.
fn put_indexes<O: Sink>(
    buffer: &mut Buffer,
    out: &mut O,
    dims: &[Dim],
    number: u32,
) -> Result<(), Failed>
    ensures puts { Puts (O.written out.old) buffer.old.bytes.items (O.written out.new) buffer.new.bytes.items result (index_texts (map (λ dim. dim.size) dims.now) number) }
    ensures cause { HasCause (O.put_faults out.old) (O.put_faults out.new) result }
    ensures beside { O.beside_writing out.new ≡ O.beside_writing out.old }
{
    if dims.is_empty() {
        return Ok(());
    }
    let count = elements(&dims[1..]);
    put_index(buffer, out, index_of(number, count))?;
    put_indexes(buffer, out, &dims[1..], number_in(number, count))
}

/// Puts the indexes of the element that comes.
fn put_stage<O: Sink>(
    buffer: &mut Buffer,
    out: &mut O,
    dims: &[Dim],
    stage: Stage,
) -> Result<(), Failed>
    ensures puts { Puts (O.written out.old) buffer.old.bytes.items (O.written out.new) buffer.new.bytes.items result (stage_text (map (λ dim. dim.size) dims.now) stage) }
    ensures cause { HasCause (O.put_faults out.old) (O.put_faults out.new) result }
    ensures beside { O.beside_writing out.new ≡ O.beside_writing out.old }
{
    match stage {
        Stage::Elements(at, _) => put_indexes(buffer, out, dims, at),
        _ => Ok(()),
    }
}

/// Puts the name of an array and the indexes of the element that comes.
fn put_element<O: Sink>(
    buffer: &mut Buffer,
    out: &mut O,
    decl: &ArrayDecl,
    stage: Stage,
) -> Result<(), Failed>
    ensures puts { Puts (O.written out.old) buffer.old.bytes.items (O.written out.new) buffer.new.bytes.items result (array_text stage decl.now) }
    ensures cause { HasCause (O.put_faults out.old) (O.put_faults out.new) result }
    ensures beside { O.beside_writing out.new ≡ O.beside_writing out.old }
{
    buffer.put(out, decl.name.bytes())?;
    put_stage(buffer, out, decl.dims.items(), stage)
}

/// The same for the array of a Grid with a number.
fn put_map<O: Sink>(
    buffer: &mut Buffer,
    out: &mut O,
    array: &ArrayDecl,
    maps: &[ArrayDecl],
    at: u32,
    stage: Stage,
) -> Result<(), Failed>
    ensures puts { Puts (O.written out.old) buffer.old.bytes.items (O.written out.new) buffer.new.bytes.items result (option_map_or (array_text stage) (slice_get (array.now ∷ maps.now) at) []) }
    ensures cause { HasCause (O.put_faults out.old) (O.put_faults out.new) result }
    ensures beside { O.beside_writing out.new ≡ O.beside_writing out.old }
{
    match array_at(array, maps, at) {
        Some(decl) => put_element(buffer, out, decl, stage),
        None => Ok(()),
    }
}

/// Puts a name above others.
fn put_above<O: Sink>(buffer: &mut Buffer, out: &mut O, name: &Id) -> Result<(), Failed>
    ensures puts { Puts (O.written out.old) buffer.old.bytes.items (O.written out.new) buffer.new.bytes.items result (name.now ++ codes ".") }
    ensures cause { HasCause (O.put_faults out.old) (O.put_faults out.new) result }
    ensures beside { O.beside_writing out.new ≡ O.beside_writing out.old }
{
    buffer.put(out, name.bytes())?;
    buffer.put(out, b".")
}

/// Puts the name of a column by its number.
fn put_column<O: Sink>(
    buffer: &mut Buffer,
    out: &mut O,
    columns: &[Column],
    at: usize,
) -> Result<(), Failed>
    ensures puts { Puts (O.written out.old) buffer.old.bytes.items (O.written out.new) buffer.new.bytes.items result (column_text columns.now at) }
    ensures cause { HasCause (O.put_faults out.old) (O.put_faults out.new) result }
    ensures beside { O.beside_writing out.new ≡ O.beside_writing out.old }
{
    match columns.get(at) {
        Some(column) => buffer.put(out, column.name.bytes()),
        None => Ok(()),
    }
}

/// Puts it behind a point.
fn put_below<O: Sink>(
    buffer: &mut Buffer,
    out: &mut O,
    columns: &[Column],
    at: usize,
) -> Result<(), Failed>
    ensures puts { Puts (O.written out.old) buffer.old.bytes.items (O.written out.new) buffer.new.bytes.items result (codes "." ++ column_text columns.now at) }
    ensures cause { HasCause (O.put_faults out.old) (O.put_faults out.new) result }
    ensures beside { O.beside_writing out.new ≡ O.beside_writing out.old }
{
    buffer.put(out, b".")?;
    put_column(buffer, out, columns, at)
}

/// Puts the row and the column of the cell that comes.
fn put_cell<O: Sink>(
    buffer: &mut Buffer,
    out: &mut O,
    columns: &[Column],
    stage: Stage,
) -> Result<(), Failed>
    ensures puts { Puts (O.written out.old) buffer.old.bytes.items (O.written out.new) buffer.new.bytes.items result (cell_text columns.now stage) }
    ensures cause { HasCause (O.put_faults out.old) (O.put_faults out.new) result }
    ensures beside { O.beside_writing out.new ≡ O.beside_writing out.old }
{
    match stage {
        Stage::Cells(row, at) => {
            put_index(buffer, out, row)?;
            put_below(buffer, out, columns, at)
        }
        _ => Ok(()),
    }
}

/// Puts the path of the element that comes.
pub fn put_path<O: Sink>(
    buffer: &mut Buffer,
    out: &mut O,
    decls: &[Decl],
    path: &[u32],
    stage: Stage,
) -> Result<(), Failed>
    ensures puts { Puts (O.written out.old) buffer.old.bytes.items (O.written out.new) buffer.new.bytes.items result (path_text (members_view decls.now) path.now stage) }
    ensures cause { HasCause (O.put_faults out.old) (O.put_faults out.new) result }
    ensures beside { O.beside_writing out.new ≡ O.beside_writing out.old }
{
    if path.is_empty() {
        return Ok(());
    }
    let at = path[0] as usize;
    if at >= decls.len() {
        return Ok(());
    }
    match &decls[at] {
        Decl::Base(column) => buffer.put(out, column.name.bytes()),
        Decl::Array(decl) => put_element(buffer, out, decl, stage),
        Decl::Structure(name, parts) => {
            if path.len() < 2 {
                return Ok(());
            }
            put_above(buffer, out, name)?;
            put_path(buffer, out, parts.items(), &path[1..], stage)
        }
        Decl::Grid(name, array, maps) => {
            if path.len() < 2 {
                return Ok(());
            }
            put_above(buffer, out, name)?;
            put_map(buffer, out, array, maps.items(), path[1], stage)
        }
        Decl::Sequence(name, columns) => {
            buffer.put(out, name.bytes())?;
            put_cell(buffer, out, columns.items(), stage)
        }
    }
}

/// Puts the value that a token is.
fn put_shown<O: Sink>(buffer: &mut Buffer, out: &mut O, token: Token) -> Result<(), Failed>
    ensures puts { Puts (O.written out.old) buffer.old.bytes.items (O.written out.new) buffer.new.bytes.items result (shown_token token) }
    ensures cause { HasCause (O.put_faults out.old) (O.put_faults out.new) result }
    ensures beside { O.beside_writing out.new ≡ O.beside_writing out.old }
{
    match token {
        Token::Whole(whole) => put_whole(buffer, out, whole),
        Token::Bits32(bits) => put_word(buffer, out, bits),
        Token::Bits64(bits) => put_double(buffer, out, bits),
        _ => Ok(()),
    }
}

/// Puts it and the end of the line.
fn put_ended<O: Sink>(buffer: &mut Buffer, out: &mut O, token: Token) -> Result<(), Failed>
    ensures puts { Puts (O.written out.old) buffer.old.bytes.items (O.written out.new) buffer.new.bytes.items result (shown_token token ++ codes "\n") }
    ensures cause { HasCause (O.put_faults out.old) (O.put_faults out.new) result }
    ensures beside { O.beside_writing out.new ≡ O.beside_writing out.old }
{
    put_shown(buffer, out, token)?;
    buffer.put(out, b"\n")
}

/// Puts it behind a sign of equality.
fn put_line<O: Sink>(buffer: &mut Buffer, out: &mut O, token: Token) -> Result<(), Failed>
    ensures puts { Puts (O.written out.old) buffer.old.bytes.items (O.written out.new) buffer.new.bytes.items result (codes " = " ++ (shown_token token ++ codes "\n")) }
    ensures cause { HasCause (O.put_faults out.old) (O.put_faults out.new) result }
    ensures beside { O.beside_writing out.new ≡ O.beside_writing out.old }
{
    buffer.put(out, b" = ")?;
    put_ended(buffer, out, token)
}

/// Puts what is shown of a token, behind the path of its element.
pub fn put_value<O: Sink>(buffer: &mut Buffer, out: &mut O, token: Token) -> Result<(), Failed>
    ensures puts { Puts (O.written out.old) buffer.old.bytes.items (O.written out.new) buffer.new.bytes.items result (token_text token) }
    ensures cause { HasCause (O.put_faults out.old) (O.put_faults out.new) result }
    ensures beside { O.beside_writing out.new ≡ O.beside_writing out.old }
{
    match token {
        Token::Size(_) => buffer.put(out, b" = \""),
        _ => put_line(buffer, out, token),
    }
}

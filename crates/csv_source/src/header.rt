ghost use Rattle.std.specs.Prelude.{◌≡◌, ◌≤◌, IfOk, MatchOption, true, false, length};
ghost use Rattle.dap_types.specs.Limits.{most_columns};
ghost use Rattle.csv.specs.Records.{fields_of};
ghost use Rattle.csv_source.specs.Header.{all_types, column_name, column_of, columns_of, repeated, type_mark, typed, typed_by};
ghost use Rattle.csv_source.specs.Names.{has_suffix, before_suffix};
ghost use Rattle.dap_types.specs.Names.{file_id};

use csv::ByteRecord;
use dap_types::{BaseType, Column, Id, List, Memory};
use std::alloc::Global;
use std::collections::BTreeMap;

/// The columns that the fields of a header name.
pub(crate) fn header_columns(alloc: Global, header: &ByteRecord) -> Result<List<Column>, Memory>
    ensures { IfOk result (λ columns. columns ≡ columns_of (fields_of header.now)) }
{
    let mut columns = List::new(alloc);
    'fields: for i in 0..header.len() {
        if let Some(field) = header.get(i) {
            columns.push(field_column(alloc, i as u64 + 1, field)?)?;
        }
    }
    Ok(columns)
}

#[tactic(auto, unfolding(crate::specs::Header::column_of))]
fn field_column(alloc: Global, number: u64, field: &[u8]) -> Result<Column, Memory>
    ensures { IfOk result (λ column. column ≡ column_of number field.now) }
{
    let (name, base) = typed(field);
    Ok(Column {
        name: column_id(alloc, number, name)?,
        base,
    })
}

#[tactic(auto, unfolding(crate::specs::Header::column_name))]
fn column_id(alloc: Global, number: u64, name: &[u8]) -> Result<Id, Memory>
    ensures { IfOk result (λ id. id ≡ file_id (column_name number name.now)) }
{
    if name.is_empty() {
        let name = format!(in alloc; "column{number}")?;
        Id::of_file(alloc, name.as_bytes())
    } else {
        Id::of_file(alloc, name)
    }
}

/// `:` and the word for a type.
fn type_mark(base: BaseType) -> &'static [u8]
    ensures { result.now ≡ type_mark base }
{
    match base {
        BaseType::Byte => b":Byte",
        BaseType::Int16 => b":Int16",
        BaseType::UInt16 => b":UInt16",
        BaseType::Int32 => b":Int32",
        BaseType::UInt32 => b":UInt32",
        BaseType::Float32 => b":Float32",
        BaseType::Float64 => b":Float64",
        BaseType::Text => b":String",
        BaseType::Url => b":Url",
    }
}

fn typed(field: &[u8]) -> (&[u8], BaseType)
    ensures { (result.0.now, result.1) ≡ typed field.now }
{
    let types = [
        BaseType::Byte,
        BaseType::Int16,
        BaseType::UInt16,
        BaseType::Int32,
        BaseType::UInt32,
        BaseType::Float32,
        BaseType::Float64,
        BaseType::Text,
        BaseType::Url,
    ];
    typed_by(&types, field)
}

fn typed_by<'a>(bases: &[BaseType], field: &'a [u8]) -> (&'a [u8], BaseType)
    ensures { (result.0.now, result.1) ≡ typed_by bases.now field.now }
{
    for base in bases {
        if let Some(name) = field.strip_suffix(type_mark(*base)) {
            return (name, *base);
        }
    }
    (field, BaseType::Text)
}

/// The number of the first column with the name of an earlier one. Names are kept in order, so that
/// crafted ones cost no more than others.
pub(crate) fn first_repeated(alloc: Global, columns: &[Column]) -> Result<Option<u32>, Memory>
    requires { length columns.now ≤ most_columns }
    ensures { IfOk result (λ number. number ≡ repeated columns.now) }
{
    let mut names = BTreeMap::new(alloc);
    for (i, column) in columns.iter().enumerate() {
        let number = i as u32 + 1;
        let earlier: Option<u32> = names.insert(column.name.bytes(), number)?;
        if earlier.is_some() {
            return Ok(Some(number));
        }
    }
    Ok(None)
}

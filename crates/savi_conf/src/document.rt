//! What stands at the keys of a table of TOML.
ghost use Rattle.std.specs.Prelude.{◌≡◌, IfOk, map, option_and_then, option_copied, option_map};
ghost use Rattle.savi_conf.specs.Documents.{integer_at, integers_among, integers_at, tables_among, tables_at, tables_of, text_at};
ghost use Rattle.toml.specs.Data.{as_array, get_member};
ghost use Rattle.toml.specs.View.{array_view, items_view, table_view, view};

use std::alloc::{AllocError, Global};
use toml::{Table, Value};

// What stands at a key. O(log n) in the keys of the table.
pub(crate) fn value_at<'a>(table: &'a Table, key: &str) -> Option<&'a Value>
    ensures { option_map (λ v. view v.now) result ≡ get_member key.now (table_view table.now) }
{
    table.get(key)
}

// The text at a key, where there is one.
pub(crate) fn text_at<'a>(table: &'a Table, key: &str) -> Option<&'a str>
    ensures { option_copied result ≡ text_at key.now (table_view table.now) }
{
    match value_at(table, key) {
        Some(value) => value.as_str(),
        None => None,
    }
}

// The integer at a key, where there is one.
pub(crate) fn integer_at(table: &Table, key: &str) -> Option<i64>
    ensures { result ≡ integer_at key.now (table_view table.now) }
{
    match value_at(table, key) {
        Some(value) => value.as_integer(),
        None => None,
    }
}

// The integers of the array at a key, in order, where there is one.
pub(crate) fn integers_at(
    alloc: Global,
    table: &Table,
    key: &str,
) -> Result<Option<Vec<i64>>, AllocError>
    ensures { IfOk result (λ numbers. option_map (λ v. v.items) numbers ≡ integers_at key.now (table_view table.now)) }
{
    match value_at(table, key) {
        Some(value) => integers_of(alloc, value),
        None => Ok(None),
    }
}

// The integers of a value that is an array, in order.
fn integers_of(alloc: Global, value: &Value) -> Result<Option<Vec<i64>>, AllocError>
    ensures { IfOk result (λ numbers. option_map (λ v. v.items) numbers ≡ option_map integers_among (as_array (view value.now))) }
{
    match value.as_array() {
        Some(values) => Ok(Some(integers_among(alloc, values.as_slice())?)),
        None => Ok(None),
    }
}

// Those of some values that are integers, in order.
fn integers_among(alloc: Global, values: &[Value]) -> Result<Vec<i64>, AllocError>
    ensures { IfOk result (λ v. v.items ≡ integers_among (items_view values.now)) }
{
    let mut integers = Vec::new(alloc);
    for value in values {
        if let Some(number) = value.as_integer() {
            integers.push(number)?;
        }
    }
    Ok(integers)
}

// The tables at a key, in order.
pub(crate) fn tables_at<'a>(
    alloc: Global,
    table: &'a Table,
    key: &str,
) -> Result<Vec<&'a Table>, AllocError>
    ensures { IfOk result (λ v. map (λ t. table_view t.now) v.items ≡ tables_at key.now (table_view table.now)) }
{
    match value_at(table, key) {
        Some(value) => tables_of(alloc, value),
        None => Ok(Vec::new(alloc)),
    }
}

// The tables that a value holds, in order: those of an array, or the one that it is.
fn tables_of(alloc: Global, value: &Value) -> Result<Vec<&Table>, AllocError>
    ensures { IfOk result (λ v. map (λ t. table_view t.now) v.items ≡ tables_of (view value.now)) }
{
    if let Some(values) = value.as_array() {
        return tables_among(alloc, values.as_slice());
    }
    let mut tables = Vec::new(alloc);
    if let Some(table) = value.as_table() {
        tables.push(table)?;
    }
    Ok(tables)
}

// Those of some values that are tables, in order.
fn tables_among(alloc: Global, values: &[Value]) -> Result<Vec<&Table>, AllocError>
    ensures { IfOk result (λ v. map (λ t. table_view t.now) v.items ≡ tables_among (items_view values.now)) }
{
    let mut tables = Vec::new(alloc);
    for value in values {
        if let Some(inner) = value.as_table() {
            tables.push(inner)?;
        }
    }
    Ok(tables)
}

// Numbers and rows of an entry.
ghost use Rattle.std.specs.Prelude.{◌≡◌, IfOk, map, option_map};
ghost use Rattle.serde_json.specs.View.{view};
ghost use Rattle.host_table.specs.Entries.{each, items_in, number_in, numbers_in, row_in, rows_in, values_in, other_in};

use pt_base::Listed;
use pt_tree::{Numbers, Row, Rows};
use serde_json::Value;
use std::alloc::{AllocError, Global};

// The items of a list.
fn items(value: &Value) -> Option<&[Value]>
    ensures { option_map (λ vs. map view vs.now) result ≡ items_in (view value.now) }
{
    match value.as_array() {
        Some(list) => Some(list.as_slice()),
        None => None,
    }
}

// A whole number that was spelled without a fraction or an exponent.
fn number(value: &Value) -> Option<i128>
    ensures { result ≡ number_in (view value.now) }
{
    match value.as_i64() {
        Some(number) => Some(number as i128),
        None => match value.as_u64() {
            Some(number) => Some(number as i128),
            None => None,
        },
    }
}

// A list of numbers.
fn numbers(alloc: Global, value: &Value) -> Result<Option<Numbers>, AllocError>
    ensures { IfOk result (λ o. o ≡ numbers_in (view value.now)) }
{
    let Some(list) = items(value) else {
        return Ok(None);
    };
    let mut numbers = Vec::with_capacity(alloc, list.len())?;
    for item in list {
        let Some(number) = number(item) else {
            return Ok(None);
        };
        numbers.push(number)?;
    }
    Ok(Some(Listed::new(numbers)))
}

// A row: a list of its arguments and its result.
fn row(alloc: Global, value: &Value) -> Result<Option<Row>, AllocError>
    ensures { IfOk result (λ o. o ≡ row_in (view value.now)) }
{
    let Some([args, answer]) = items(value) else {
        return Ok(None);
    };
    let Some(args) = numbers(alloc, args)? else {
        return Ok(None);
    };
    let Some(result) = number(answer) else {
        return Ok(None);
    };
    Ok(Some(Row { args, result }))
}

/// The rows of an entry.
pub(crate) fn rows(alloc: Global, entry: &Value) -> Result<Option<Rows>, AllocError>
    ensures { IfOk result (λ o. o ≡ rows_in (view entry.now)) }
{
    let Some(list) = entry.get("rows").and_then(items) else {
        return Ok(None);
    };
    let Some(rows) = each_row(alloc, list)? else {
        return Ok(None);
    };
    Ok(Some(Rows::new(alloc, rows)?))
}

// The rows of a list.
fn each_row(alloc: Global, list: &[Value]) -> Result<Option<Vec<Row>>, AllocError>
    ensures { IfOk result (λ o. option_map (λ rows. rows.items) o ≡ each row_in (map view list.now)) }
{
    let mut rows = Vec::with_capacity(alloc, list.len())?;
    for value in list {
        let Some(row) = row(alloc, value)? else {
            return Ok(None);
        };
        rows.push(row)?;
    }
    Ok(Some(rows))
}

/// The values of an entry.
pub(crate) fn values(alloc: Global, entry: &Value) -> Result<Option<Numbers>, AllocError>
    ensures { IfOk result (λ o. o ≡ values_in (view entry.now)) }
{
    match entry.get("values") {
        Some(list) => numbers(alloc, list),
        None => Ok(None),
    }
}

/// The number of an entry that answers where no other does.
pub(crate) fn other(entry: &Value) -> Option<i128>
    ensures { result ≡ other_in (view entry.now) }
{
    entry.get("else").and_then(number)
}

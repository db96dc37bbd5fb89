// Whether a model fits a host.
ghost use Rattle.std.specs.Prelude.{◌≡◌, ◌==◌, length};
ghost use Rattle.std.specs.List.{list_all};
ghost use Rattle.pt_int.specs.Conversion.{is_in_range};
ghost use Rattle.host_models.specs.Fitting.{gives_int, has_right_params, is_in_param, is_in_result, are_in_params, is_row_in_range, has_numbers_in_range, has_short_name, fits};

use crate::mixed::is_mixed;
use pt_base::IntType;
use pt_int::in_range;
use pt_tree::{HostModel, Param, ParamKind, Row, Signature};

// A name may have this many bytes.
const LONGEST_NAME: usize = 1_048_576;

/// Whether the model may stand for a host of this signature: its kind is one for the host's
/// result, parameters and marks, its rows have as many arguments as the host has parameters, its
/// numbers are of the parameters' and the result's types, and a line's name is short.
pub fn fits(model: &HostModel, s: &Signature) -> bool
    ensures { result ≡ fits model.now s.now }
{
    has_right_params(s, model) && has_numbers_in_range(s, model) && has_short_name(model)
}

// Whether a line's name is short.
fn has_short_name(model: &HostModel) -> bool
    ensures { result ≡ has_short_name model.now }
{
    match model {
        HostModel::Line { name } => name.as_slice().len() <= LONGEST_NAME,
        HostModel::Table { .. }
        | HostModel::Feed { .. }
        | HostModel::Input { .. }
        | HostModel::Bytes => true,
    }
}

/// Whether the kind of the model is one for the host's result, parameters and marks, and its rows
/// have as many arguments as the host has parameters.
pub fn has_right_params(s: &Signature, model: &HostModel) -> bool
    ensures { result ≡ has_right_params s.now model.now }
{
    match model {
        HostModel::Table { rows, .. } => {
            s.result.is_some() && have_length(rows.as_slice(), s.params.as_slice().len())
        }
        HostModel::Feed { .. } => s.result.is_some() && !is_mixed(s),
        HostModel::Input { .. } => gives_int(s) && s.params.as_slice().is_empty() && !is_mixed(s),
        HostModel::Bytes | HostModel::Line { .. } => s.result.is_none() && !is_mixed(s),
    }
}

// Whether the result is of type int.
fn gives_int(s: &Signature) -> bool
    ensures { result ≡ gives_int s.now.result }
{
    match s.result {
        Some(t) => t == IntType::Int,
        None => false,
    }
}

// Whether each row has so many arguments.
fn have_length(rows: &[Row], count: usize) -> bool
    ensures { result ≡ list_all (λ row. length row.args == count) rows.now }
{
    rows.iter().all(|row| row.args.as_slice().len() == count)
}

/// Whether each number of the model is one of its parameter's or the result's type.
pub fn has_numbers_in_range(s: &Signature, model: &HostModel) -> bool
    ensures { result ≡ has_numbers_in_range s.now model.now }
{
    match model {
        HostModel::Table { rows, other } => {
            are_rows_in_range(s, rows.as_slice()) && is_in_result(s.result, *other)
        }
        HostModel::Feed { values, other, .. } => {
            are_in_result(s.result, values.as_slice()) && is_in_result(s.result, *other)
        }
        HostModel::Input { .. } | HostModel::Bytes | HostModel::Line { .. } => true,
    }
}

// Whether each number of each row is one of its type.
fn are_rows_in_range(s: &Signature, rows: &[Row]) -> bool
    ensures { result ≡ list_all (is_row_in_range s.now) rows.now }
{
    rows.iter().all(|row| is_row_in_range(s, row))
}

fn is_row_in_range(s: &Signature, row: &Row) -> bool
    ensures { result ≡ is_row_in_range s.now row.now }
{
    are_in_params(s.params.as_slice(), row.args.as_slice()) && is_in_result(s.result, row.result)
}

// Whether each argument is a number of its parameter's type.
fn are_in_params(params: &[Param], args: &[i128]) -> bool
    ensures { result ≡ are_in_params params.now args.now }
{
    let mut rest = params;
    let mut left = args;
    while let [param, after @ ..] = rest {
        let [arg, further @ ..] = left else {
            return true;
        };
        if !is_in_param(param.kind, *arg) {
            return false;
        }
        rest = after;
        left = further;
    }
    true
}

// Whether the number is one of the parameter's type, which a pointer has none of.
fn is_in_param(kind: ParamKind, v: i128) -> bool
    ensures { result ≡ is_in_param kind v }
{
    match kind {
        ParamKind::Int(t) => is_of(t, v),
        ParamKind::Ptr { .. } => false,
    }
}

// Whether each number is one of the result's type.
fn are_in_result(t: Option<IntType>, values: &[i128]) -> bool
    ensures { result ≡ list_all (is_in_result t) values.now }
{
    values.iter().all(|value| is_in_result(t, *value))
}

// Whether the number is one of the result's type, which void has none of.
fn is_in_result(t: Option<IntType>, v: i128) -> bool
    ensures { result ≡ is_in_result t v }
{
    t.is_some_and(|t| is_of(t, v))
}

// Whether the number is one of the type.
fn is_of(t: IntType, v: i128) -> bool
    ensures { result ≡ is_in_range t v }
{
    in_range(t, v)
}

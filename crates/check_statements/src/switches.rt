// The controlling expressions and the labels of switches (C99 6.8.1, 6.8.4.2).
ghost use Rattle.std.specs.Prelude.{◌≡◌, ◌++◌, IfOk, OnOk};
ghost use Rattle.pt_int.specs.Conversion.{conv};
ghost use Rattle.check_statements.specs.Constants.{number_of as number};
ghost use Rattle.pt_tree.specs.StatementTree.{view_label};
ghost use Rattle.pt_tree.specs.ExpressionTree.{view_expr};
ghost use Rattle.check_expressions.specs.EnvOf.{env_of};
ghost use Rattle.check_statements.specs.Seen.{seen_of};
ghost use Rattle.check_statements.specs.Gives.{GivesChosen, GivesLabelled, progress_of, state_of};
ghost use Rattle.check_statements.specs.Labels as is;
ghost use Rattle.check_statements.specs.Statements.{switched};

use crate::constants::{Number, number_of};
use crate::outermost::place;
use crate::seen::SeenLabels;
use crate::walk::Walk;
use check_declarations::{FaultKind, Findings, TypeFault, note_if};
use check_expressions::{Names, expression, span_of};
use pt_base::{IntType, Span};
use pt_int::{convert, promote};
use pt_tree::{Expr, Label};
use std::alloc::{AllocError, Global};
use type_rules::Type;
use typed_tree::{ExprId, TypedLabel};

/// How the cases of a switch are compared.
#[derive(Clone, Copy)]
pub struct Kind {
    /// The type to which their values are converted.
    pub ty: IntType,
    /// They are compared; else the controlling expression is no integer.
    pub compared: bool,
}

/// A controlling expression: its number, and how the cases are compared.
#[derive(Clone, Copy)]
pub(crate) struct Controlling {
    pub id: ExprId,
    pub kind: Kind,
}

/// The controlling expression of a switch: an integer.
pub(crate) fn control(
    alloc: Global,
    names: &Names,
    walk: &mut Walk,
    e: &Expr,
) -> Result<Controlling, AllocError>
    ensures { GivesChosen result (progress_of names.now walk.old) (progress_of names.now walk.new) (switched (state_of names.now walk.old) (view_expr e.now)) }
{
    let operand = expression(alloc, names, &mut walk.findings, e)?;
    let ty = operand.value().ty;
    let faults = &mut walk.findings.faults;
    note_if(faults, is_no_integer(ty), FaultKind::WrongType, span_of(e))?;
    let id = place(&mut walk.exprs, operand.into_tree(alloc, span_of(e))?)?;
    Ok(Controlling {
        id,
        kind: kind_of(ty),
    })
}

fn kind_of(ty: Type) -> Kind
    ensures { result ≡ is.kind_of ty }
{
    match ty {
        Type::Int(t) => Kind {
            ty: promote(t),
            compared: true,
        },
        Type::Bad | Type::Void | Type::Struct(_) | Type::Array { .. } | Type::Pointer { .. } => {
            Kind {
                ty: IntType::Int,
                compared: false,
            }
        }
    }
}

fn is_no_integer(ty: Type) -> bool
    ensures { result ≡ is.is_no_integer ty }
{
    match ty {
        Type::Bad | Type::Int(_) => false,
        Type::Void | Type::Struct(_) | Type::Array { .. } | Type::Pointer { .. } => true,
    }
}

/// A label of a switch, behind those that were seen.
pub(crate) fn labelled(
    alloc: Global,
    names: &Names,
    findings: &mut Findings,
    kind: Kind,
    seen: &mut SeenLabels,
    label: &Label,
) -> Result<TypedLabel, AllocError>
    ensures { GivesLabelled result findings.old findings.new (seen_of seen.new) (is.labelled (env_of names.now) kind findings.old.structs (seen_of seen.old) (view_label label.now)) }
{
    match label {
        Label::Case(span, e) => case(alloc, names, findings, kind, seen, *span, e),
        Label::Default(span) => {
            let faults = &mut findings.faults;
            let at = default_word(*span);
            note_if(faults, seen.has_default, FaultKind::Redeclared, at)?;
            seen.has_default = true;
            Ok(TypedLabel::Default(*span))
        }
    }
}

/// The word `default`, with which a label begins.
fn default_word(span: Span) -> Span
    ensures { result ≡ is.default_word span }
{
    Span {
        from: span.from,
        to: span.from.saturating_add(7),
    }
}

/// A case, whose value is a constant, negated or not.
fn case(
    alloc: Global,
    names: &Names,
    findings: &mut Findings,
    kind: Kind,
    seen: &mut SeenLabels,
    span: Span,
    e: &Expr,
) -> Result<TypedLabel, AllocError>
    ensures { GivesLabelled result findings.old findings.new (seen_of seen.new) (is.case_by (env_of names.now) kind findings.old.structs (seen_of seen.old) span (view_expr e.now) (number (view_expr e.now))) }
{
    match number_of(e) {
        Some(number) => {
            let faults = &mut findings.faults;
            let value = number_case(faults, kind, seen, span_of(e), number)?;
            Ok(TypedLabel::Case(span, value))
        }
        None => {
            let _ = expression(alloc, names, findings, e)?;
            note_if(
                &mut findings.faults,
                true,
                FaultKind::OutOfProfile,
                span_of(e),
            )?;
            Ok(TypedLabel::Case(span, 0))
        }
    }
}

/// The value of a case of this number; the second one of a value is a fault, where cases are compared.
fn number_case(
    faults: &mut Vec<TypeFault>,
    kind: Kind,
    seen: &mut SeenLabels,
    at: Span,
    number: Number,
) -> Result<i128, AllocError>
    ensures value { IfOk result (λ v. v ≡ conv kind.ty number.value) }
    ensures seen { OnOk result (seen_of seen.new ≡ is.case_seen kind (seen_of seen.old) (conv kind.ty number.value)) }
    ensures faults { OnOk result (faults.new.items ≡ faults.old.items ++ is.case_faults kind (seen_of seen.old) at (conv kind.ty number.value)) }
{
    let value = convert(number.value, kind.ty);
    if kind.compared {
        let is_new = seen.add_case(value)?;
        note_if(faults, !is_new, FaultKind::Redeclared, at)?;
    }
    Ok(value)
}

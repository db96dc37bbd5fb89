// What a switch does before its sections (C99 6.8.4.2).
ghost use Rattle.std.specs.Prelude.{◌≡◌, ◌+◌, [], map, IfOk, OnOk};
ghost use Rattle.typed_tree.specs.StatementTree.{view_section, section_trees};
ghost use Rattle.pt_core.specs.CodeTree.{view_expr, view_stmt};
ghost use Rattle.source_meaning.specs.Statements as meaning;
ghost use Rattle.lowering.specs.StatementParts.{run_from};
ghost use Rattle.lowering.specs.Output.{output_of, added};
ghost use Rattle.lowering.specs.Statements as is;

use crate::flow::number;
use crate::output::{Lowering, local, temp};
use pt_base::{IntType, Span, VarId};
use pt_core::{Expr, Stmt};
use pt_int::BinOp;
use std::alloc::{AllocError, Global};
use typed_tree::{TypedLabel, TypedSection};

/// Where a switch stands, the promoted type of its value, and the temporaries that hold the value
/// and the number of the chosen section.
#[derive(Clone, Copy)]
pub struct Choosing {
    pub span: Span,
    pub ty: IntType,
    pub value: VarId,
    pub chosen: VarId,
}

/// The number of the section that is run where no case is: that of `default`, else the number
/// behind all.
pub fn otherwise(sections: &[TypedSection]) -> usize
    ensures { result ≡ is.otherwise_of (section_trees (map view_section sections.now)) }
{
    match default_place(sections) {
        Some(m) => m,
        None => sections.len(),
    }
}

// the number of the first section whose label is `default`
fn default_place(sections: &[TypedSection]) -> Option<usize>
    ensures { result ≡ meaning.section_with meaning.is_default (section_trees (map view_section sections.now)) }
{
    for (m, section) in sections.iter().enumerate() {
        if is_default(section.label) {
            return Some(m);
        }
    }
    None
}

// whether a label is `default`
fn is_default(label: TypedLabel) -> bool
    ensures { result ≡ meaning.is_default label }
{
    match label {
        TypedLabel::Case(_, _) => false,
        TypedLabel::Default(_) => true,
    }
}

/// The cases of sections: where the value is equal, the section with that number is chosen.
pub fn choose_sections(
    alloc: Global,
    choosing: Choosing,
    sections: &[TypedSection],
    lowering: &mut Lowering,
) -> Result<(), AllocError>
    requires { choosing.chosen.0 ≡ choosing.value.0 + 1 }
    ensures { OnOk result (output_of lowering.new ≡ added (output_of lowering.old) (is.cases_from choosing.span choosing.ty choosing.value.0 0 (section_trees (map view_section sections.now))) []) }
{
    for (m, section) in sections.iter().enumerate() {
        choose_section(alloc, choosing, m, &section.label, lowering)?;
    }
    Ok(())
}

// the case of a section with this number
fn choose_section(
    alloc: Global,
    choosing: Choosing,
    m: usize,
    label: &TypedLabel,
    lowering: &mut Lowering,
) -> Result<(), AllocError>
    requires { choosing.chosen.0 ≡ choosing.value.0 + 1 }
    ensures { OnOk result (output_of lowering.new ≡ added (output_of lowering.old) (is.case_of choosing.span choosing.ty choosing.value.0 m label.now) []) }
{
    let TypedLabel::Case(_, value) = label else {
        return Ok(());
    };
    let ty = choosing.ty;
    let case = Expr::Const { ty, value: *value };
    let is_equal = Expr::binary(
        alloc,
        BinOp::Eq,
        ty,
        temp(alloc, choosing.value),
        case,
        choosing.span,
    )?;
    let mut choose = Vec::new(alloc);
    choose.push(Stmt::Assign {
        place: local(alloc, choosing.chosen),
        value: number(m),
    })?;
    lowering.add(Stmt::choose(is_equal, choose, Vec::new(alloc)))
}

/// A section with this number, which is run where the chosen one is it or one before it.
pub fn section_of(
    alloc: Global,
    choosing: Choosing,
    m: usize,
    body: Vec<Stmt>,
    lowering: &mut Lowering,
) -> Result<(), AllocError>
    ensures { OnOk result (output_of lowering.new ≡ added (output_of lowering.old) (run_from choosing.span choosing.chosen.0 m (map view_stmt body.items)) []) }
{
    let is_reached = Expr::binary(
        alloc,
        BinOp::Le,
        IntType::Int,
        temp(alloc, choosing.chosen),
        number(m),
        choosing.span,
    )?;
    lowering.add(Stmt::choose(is_reached, body, Vec::new(alloc)))
}

// Programs with their types: what is declared and evaluated, marked where it stands.
use crate::faults::{fault_line, fault_marks};
use crate::marks::{Mark, marked};
use anyhow::Result;
use case_rows::{int_name, push_bytes, spelled};
use front_end::read_program;
use pt_base::{FnId, IntType, Span};
use pt_tree::{Elem, Param, ParamKind, Signature};
use std::alloc::{AllocError, Global};
use typed_tree::{Form, Role, Typed, TypedExpr, TypedFn, TypedGlobal, Var, VarTy};

/// A global with more cells than these is told by their number.
const FEW: usize = 8;

/// The text of the row with each object, function and outermost expression marked, and its structs
/// behind it; or its faults.
///
/// # Errors
///
/// A row that spells no text, and want of memory.
pub fn typed(alloc: Global, row: &str) -> Result<String> {
    let text = spelled(alloc, row)?;
    let program = match read_program(alloc, text.as_bytes()) {
        Ok(program) => program,
        Err(error) => {
            let faults = fault_line(alloc, &fault_marks(alloc, error)?)?;
            return Ok(format!(in alloc; "typed {row} => {faults}")?);
        }
    };
    let mut marks = Vec::new(alloc);
    for global in program.globals.as_slice() {
        marks.push(global_mark(alloc, &program, global)?)?;
    }
    for (number, function) in program.functions.iter().enumerate() {
        add_function(alloc, &program, function, &mut marks)?;
        let f = FnId(u32::try_from(number)?);
        add_parts(alloc, &program, f, &mut marks)?;
    }
    let marked = marked(alloc, text.as_bytes(), marks)?;
    let mut told = format!(in alloc; "typed {marked}")?;
    push_structs(&mut told, &program)?;
    Ok(told)
}

fn push_structs(told: &mut String, program: &Typed) -> Result<(), AllocError> {
    for structure in program.structs.as_slice() {
        told.push_str("\n  struct ")?;
        push_bytes(told, structure.name.as_slice())?;
        let mut before = ":";
        for field in structure.fields.as_slice() {
            told.push_str(before)?;
            told.push_str(if field.marked { " priv " } else { " " })?;
            push_type(told, program, field.ty)?;
            told.push(' ')?;
            push_bytes(told, field.name.as_slice())?;
            before = ",";
        }
    }
    Ok(())
}

fn global_mark(alloc: Global, program: &Typed, global: &TypedGlobal) -> Result<Mark, AllocError> {
    let mut name = String::new(alloc);
    if global.fixed {
        name.push_str("const ")?;
    }
    push_object(&mut name, program, &global.var)?;
    let cells = global.cells.as_slice();
    if cells.len() > FEW {
        write!(name, " of {} cells", cells.len())?;
    } else {
        name.push_str(" =")?;
        for cell in cells {
            write!(name, " {cell}")?;
        }
    }
    Ok(Mark {
        span: global.var.span,
        name,
    })
}

// The marks of a function's name and of its variables.
fn add_function(
    alloc: Global,
    program: &Typed,
    function: &TypedFn,
    marks: &mut Vec<Mark>,
) -> Result<(), AllocError> {
    let mut name = String::new(alloc);
    push_signature(&mut name, program, &function.signature)?;
    marks.push(Mark {
        span: function.name,
        name,
    })?;
    if function.body.is_some() {
        for variable in function.vars.as_slice() {
            let mut name = String::new(alloc);
            push_object(&mut name, program, variable)?;
            marks.push(Mark {
                span: variable.span,
                name,
            })?;
        }
    }
    Ok(())
}

// The marks of the outermost expressions of a function, and of the objects that they change.
fn add_parts(
    alloc: Global,
    program: &Typed,
    f: FnId,
    marks: &mut Vec<Mark>,
) -> Result<(), AllocError> {
    let parts = program.parts(alloc, f)?;
    for part in &parts {
        let Some(expr) = program.exprs.get(part.expr.0 as usize) else {
            continue;
        };
        let mut name = String::from_str(
            alloc,
            match part.role {
                Role::Value => "",
                Role::Condition => "condition ",
                Role::Init(_) => "initial ",
                Role::Returned => "returned ",
            },
        )?;
        match expr.ty {
            Some(ty) => push_type(&mut name, program, ty)?,
            None => name.push_str("void")?,
        }
        marks.push(Mark {
            span: expr.span,
            name,
        })?;
        if let Some(span) = changed(expr) {
            marks.push(Mark {
                span,
                name: String::from_str(alloc, "changed")?,
            })?;
        }
    }
    Ok(())
}

// Where the object that the expression changes by an operator stands.
fn changed(expr: &TypedExpr) -> Option<Span> {
    match &expr.form {
        Form::Step { at, .. } | Form::Compound { at, .. } => Some(*at),
        _ => None,
    }
}

fn push_signature(
    name: &mut String,
    program: &Typed,
    signature: &Signature,
) -> Result<(), AllocError> {
    if signature.host {
        name.push_str("host ")?;
    }
    if signature.privileged {
        name.push_str("priv ")?;
    }
    if signature.declassify {
        name.push_str("declassify ")?;
    }
    match signature.result {
        Some(ty) => name.push_str(int_name(ty))?,
        None => name.push_str("void")?,
    }
    name.push('(')?;
    for (place, param) in signature.params.as_slice().iter().enumerate() {
        if place > 0 {
            name.push_str(", ")?;
        }
        push_param(name, program, param)?;
    }
    name.push(')')
}

fn push_param(name: &mut String, program: &Typed, param: &Param) -> Result<(), AllocError> {
    if param.marked {
        name.push_str("priv ")?;
    }
    if param.declassify {
        name.push_str("declassify ")?;
    }
    match param.kind {
        ParamKind::Int(ty) => name.push_str(int_name(ty)),
        ParamKind::Ptr { elem, fixed } => push_type(name, program, VarTy::Pointer { elem, fixed }),
    }
}

fn push_object(name: &mut String, program: &Typed, object: &Var) -> Result<(), AllocError> {
    if object.marked {
        name.push_str("priv ")?;
    }
    if object.unpriv {
        name.push_str("unpriv ")?;
    }
    push_type(name, program, object.ty)
}

fn push_type(name: &mut String, program: &Typed, ty: VarTy) -> Result<(), AllocError> {
    match ty {
        VarTy::Int(ty) => push_elem(name, program, Elem::Int(ty)),
        VarTy::Struct(number) => push_elem(name, program, Elem::Struct(number)),
        VarTy::Array { elem, count } => {
            push_elem(name, program, elem)?;
            write!(name, " [{count}]")
        }
        VarTy::Pointer { elem, fixed } => {
            if fixed {
                name.push_str("const ")?;
            }
            push_elem(name, program, elem)?;
            name.push_str(" *")
        }
    }
}

fn push_elem(name: &mut String, program: &Typed, elem: Elem) -> Result<(), AllocError> {
    match elem {
        Elem::Int(ty) => name.push_str(int_name(ty)),
        Elem::Struct(number) => {
            name.push_str("struct")?;
            match program.structs.as_slice().get(number as usize) {
                Some(structure) => {
                    name.push(' ')?;
                    push_bytes(name, structure.name.as_slice())
                }
                None => Ok(()),
            }
        }
    }
}

// What stands behind an operand (C99 6.5.2). `s` is the span of all up to and with it, `at` that of all
// before it, whose own faults are there already.
ghost use Rattle.std.specs.Prelude.{◌≡◌, ◌++◌, ◌∷◌, [], IfOk, OnOk, length, map, nat_eq, option_copied, slice_get};
ghost use Rattle.check_declarations.specs.Faults.{fault_if};
ghost use Rattle.check_declarations.specs.declared.fault.FaultKind.TheVariants.{WrongType};
ghost use Rattle.pt_tree.specs.ExpressionTree as parsed;
ghost use Rattle.type_rules.specs.Conversions.{is_wrong, fit_rule};
ghost use Rattle.typed_tree.specs.ExpressionTree.{view_expr, view_root, view_step};
ghost use Rattle.check_expressions.specs.Conversions as to;
ghost use Rattle.check_expressions.specs.EnvOf.{env_of};
ghost use Rattle.check_expressions.specs.Gives.{GivesMade};
ghost use Rattle.check_expressions.specs.Operands.{value_of, value_tree};
ghost use Rattle.check_expressions.specs.Postfixes as is;
ghost use Rattle.check_expressions.specs.Views.{elaboration, known};

use crate::assignments::is_misfit;
use crate::conversions::as_type;
use crate::links::{link_type, note_rule};
use crate::meaning::{Callable, Meaning};
use crate::names::Names;
use crate::operand::{Elaborated, Operand, Placed, pointed_place, var_type};
use crate::prefixes::{points_to_const, refuse, refused, valued};
use check_declarations::{FaultKind, FoundField, Structs, TypeFault, field_named, note_if};
use pt_base::{FnId, Span};
use pt_tree::{Elem, Expr, Postfix, Word};
use std::alloc::{AllocError, Global};
use type_rules::{Rule, Type, elem_type, index_rule};
use typed_tree::{Form, LinkStep, Place, PlaceStep, TypedExpr, TypedLink};

/// A subscript (C99 6.5.2.1).
#[tactic(auto, unfolding(crate::specs::Postfixes::indexed, crate::specs::Postfixes::indexed_by))]
pub(crate) fn indexed(
    alloc: Global,
    s: Span,
    base: Placed,
    index: Placed,
    faults: &mut Vec<TypeFault>,
) -> Result<Operand, AllocError>
    ensures { GivesMade result faults.old.items faults.new.items (is.indexed s base.span (known base.operand) index.span (known index.operand)) }
{
    let rule = index_rule(base.operand.value(), index.operand.value());
    match rule {
        Rule::Wrong { .. } => {
            note_rule(faults, rule, base.span, index.span)?;
            Ok(Operand::faulty())
        }
        Rule::Move => {
            let ty = base.operand.value().ty;
            let tree = element_tree(alloc, s, base, index)?;
            Ok(pointee_known(ty, tree))
        }
        Rule::MoveBy => {
            let ty = index.operand.value().ty;
            let tree = index_tree(alloc, s, base, index)?;
            Ok(pointee_known(ty, tree))
        }
        Rule::Unknown
        | Rule::Arithmetic(_)
        | Rule::Comparison(_)
        | Rule::Shift(_)
        | Rule::Logical
        | Rule::Difference
        | Rule::ComparePointers => Ok(Operand::faulty()),
    }
}

/// What a pointer of this type points to.
fn pointee_known(ty: Type, tree: Elaborated) -> Operand
    ensures { known result ≡ is.pointee_known ty (elaboration tree) }
{
    Operand::designated(pointee(ty), points_to_const(ty), tree)
}

#[tactic(auto, unfolding(crate::specs::Postfixes::pointee))]
fn pointee(ty: Type) -> Type
    ensures { result ≡ is.pointee ty }
{
    match ty {
        Type::Pointer { elem, .. } => elem_type(elem),
        Type::Bad | Type::Void | Type::Int(_) | Type::Struct(_) | Type::Array { .. } => Type::Bad,
    }
}

/// An element of an array is a part of it; what else is subscripted is a moved pointer.
#[tactic(auto, unfolding(crate::specs::Postfixes::element_tree, crate::specs::Views::elaboration))]
fn element_tree(
    alloc: Global,
    s: Span,
    base: Placed,
    index: Placed,
) -> Result<Elaborated, AllocError>
    ensures { IfOk result (λ t. elaboration t ≡ is.element_tree base.operand.ty s base.span (known base.operand) (value_tree index.span (known index.operand))) }
{
    let index = index.operand.into_tree(alloc, index.span)?;
    match base.operand.ty {
        Type::Array { .. } => {
            let array = base.operand.into_elaborated().into_place(alloc)?;
            Ok(Elaborated::Item(array, base.span, index, s))
        }
        Type::Bad | Type::Void | Type::Int(_) | Type::Struct(_) | Type::Pointer { .. } => {
            let ty = base.operand.value().ty;
            let pointer = base.operand.into_tree(alloc, base.span)?;
            let step = LinkStep::Move { back: false };
            Ok(Elaborated::Moved(moved_tree(alloc, s, ty, step, pointer, index)?))
        }
    }
}

/// The same of a subscript whose index is the pointer.
#[tactic(auto, unfolding(crate::specs::Postfixes::index_tree, crate::specs::Views::elaboration))]
fn index_tree(alloc: Global, s: Span, base: Placed, index: Placed) -> Result<Elaborated, AllocError>
    ensures { IfOk result (λ t. elaboration t ≡ is.index_tree s base.span (known base.operand) index.span (known index.operand)) }
{
    let ty = index.operand.value().ty;
    let by = base.operand.into_tree(alloc, base.span)?;
    let pointer = index.operand.into_tree(alloc, index.span)?;
    Ok(Elaborated::Moved(moved_tree(alloc, s, ty, LinkStep::MoveBy, by, pointer)?))
}

/// One operand moved by the other.
#[tactic(auto, unfolding(crate::specs::Postfixes::moved_tree))]
fn moved_tree(
    alloc: Global,
    s: Span,
    ty: Type,
    step: LinkStep,
    first: TypedExpr,
    operand: TypedExpr,
) -> Result<TypedExpr, AllocError>
    ensures { IfOk result (λ x. view_expr x ≡ is.moved_tree s ty step (view_expr first) (view_expr operand)) }
{
    let mut links = Vec::with_capacity(alloc, 1)?;
    links.push(TypedLink {
        span: s,
        ty: link_type(ty),
        step,
        operand,
    })?;
    Ok(TypedExpr {
        span: s,
        ty: var_type(ty),
        form: Form::chain(alloc, first, links)?,
    })
}

/// `.` and a name (C99 6.5.2.3).
#[tactic(auto, unfolding(crate::specs::Postfixes::dotted, crate::specs::Postfixes::dotted_as))]
pub(crate) fn dotted(
    alloc: Global,
    structs: &Structs,
    word: &Word,
    operand: Placed,
    faults: &mut Vec<TypeFault>,
) -> Result<Operand, AllocError>
    ensures { GivesMade result faults.old.items faults.new.items (is.dotted structs.now word.now operand.span (known operand.operand)) }
{
    let Placed { span: at, operand } = operand;
    match operand.ty {
        Type::Bad => Ok(operand.forgotten()),
        Type::Struct(n) => {
            let field = field_named(structs, n, word.bytes.as_slice());
            let object = Whole {
                fixed: operand.fixed,
                designates: operand.designates,
            };
            let place = operand.into_elaborated().into_place(alloc)?;
            part_by(field, word, object, place, faults)
        }
        Type::Void | Type::Int(_) | Type::Array { .. } | Type::Pointer { .. } => {
            refuse(operand, faults, FaultKind::WrongType, at)
        }
    }
}

/// An object whose part is named.
#[derive(Clone, Copy)]
struct Whole {
    /// It is const.
    fixed: bool,
    /// It is an object, and not the value of an assignment.
    designates: bool,
}

/// A part of an object: it is const where the object or the field is, and an object where that is one.
#[tactic(auto, unfolding(crate::specs::Postfixes::part_by, crate::specs::Views::elaboration))]
fn part_by(
    field: Option<FoundField>,
    word: &Word,
    whole: Whole,
    mut place: Place,
    faults: &mut Vec<TypeFault>,
) -> Result<Operand, AllocError>
    ensures { GivesMade result faults.old.items faults.new.items (is.part_by field word.now whole.fixed whole.designates (view_root place.root) (map view_step place.steps.items)) }
{
    let Some(field) = field else {
        return refused(faults, FaultKind::UnknownName, word.span);
    };
    place.steps.reserve_exact(1)?;
    place.steps.push(PlaceStep::Field(field.number))?;
    Ok(Operand {
        ty: field.entry.ty,
        fixed: whole.fixed || field.entry.fixed,
        designates: whole.designates,
        null: false,
        tree: Elaborated::Place(place),
    })
}

/// `->` and a name (C99 6.5.2.3).
#[tactic(auto, unfolding(crate::specs::Postfixes::arrow, crate::specs::Postfixes::arrow_as))]
pub(crate) fn arrow(
    alloc: Global,
    structs: &Structs,
    s: Span,
    word: &Word,
    operand: Placed,
    faults: &mut Vec<TypeFault>,
) -> Result<Operand, AllocError>
    ensures { GivesMade result faults.old.items faults.new.items (is.arrow structs.now s word.now operand.span (known operand.operand)) }
{
    let Placed { span: at, operand } = operand;
    match operand.value().ty {
        Type::Bad => Ok(operand.forgotten()),
        Type::Pointer {
            elem: Elem::Struct(n),
            fixed,
        } => {
            let field = field_named(structs, n, word.bytes.as_slice());
            let pointer = operand.into_tree(alloc, at)?;
            let place = pointed_place(alloc, pointer, s)?;
            let object = Whole {
                fixed,
                designates: true,
            };
            part_by(field, word, object, place, faults)
        }
        Type::Pointer {
            elem: Elem::Int(_),
            ..
        } => refuse(operand, faults, FaultKind::WrongType, at),
        Type::Void | Type::Int(_) | Type::Struct(_) | Type::Array { .. } => {
            refuse(operand, faults, FaultKind::WrongType, at)
        }
    }
}

/// The function that is called, where a call stands directly behind its name.
#[tactic(auto, unfolding(crate::specs::Postfixes::function_called))]
pub(crate) fn function_called(names: &Names, e: &Expr, postfixes: &[Postfix]) -> Option<FnId>
    ensures { result ≡ is.function_called (env_of names.now) (parsed.view_expr e.now) (parsed.postfix_trees (map parsed.view_postfix postfixes.now)) }
{
    if is_called(postfixes) {
        function_named(names, e)
    } else {
        None
    }
}

#[tactic(auto, unfolding(crate::specs::Postfixes::is_called))]
fn is_called(postfixes: &[Postfix]) -> bool
    ensures { result ≡ is.is_called (parsed.postfix_trees (map parsed.view_postfix postfixes.now)) }
{
    match postfixes.first() {
        None => false,
        Some(postfix) => is_call(postfix),
    }
}

#[tactic(auto, unfolding(crate::specs::Postfixes::is_call))]
fn is_call(postfix: &Postfix) -> bool
    ensures { result ≡ is.is_call (parsed.view_postfix postfix.now) }
{
    match postfix {
        Postfix::Call(_, _) => true,
        Postfix::Index(_, _) => false,
        Postfix::Field(_, _) => false,
        Postfix::Arrow(_, _) => false,
        Postfix::Increment(_) => false,
        Postfix::Decrement(_) => false,
    }
}

/// The function that the expression names.
#[tactic(auto, unfolding(crate::specs::Postfixes::function_named))]
fn function_named(names: &Names, e: &Expr) -> Option<FnId>
    ensures { result ≡ is.function_named (env_of names.now) (parsed.view_expr e.now) }
{
    match e {
        Expr::Name(word) => function_meant(names.find(word.bytes.as_slice())),
        Expr::Constant(_) => None,
        Expr::Prefix(_, _, _) => None,
        Expr::Cast(_, _, _, _) => None,
        Expr::Postfix(_, _, _) => None,
        Expr::Chain(_, _, _) => None,
        Expr::Choice(_, _, _, _) => None,
        Expr::Assign(_, _, _, _) => None,
    }
}

#[tactic(auto, unfolding(crate::specs::Postfixes::function_meant))]
fn function_meant(meaning: Option<Meaning>) -> Option<FnId>
    ensures { result ≡ is.function_meant meaning }
{
    match meaning {
        Some(Meaning::Function(f)) => Some(f),
        Some(Meaning::Global(_)) => None,
        Some(Meaning::Local(_)) => None,
        None => None,
    }
}

/// The types that a call's arguments have to fit: those of a function that may be called.
#[tactic(auto, unfolding(crate::specs::Postfixes::params_for, crate::specs::Postfixes::params_of))]
pub(crate) fn params_for(names: &Names, callee: Option<FnId>) -> &[Type]
    ensures { result.now ≡ is.params_for (env_of names.now) callee }
{
    let Some(f) = callee else {
        return &[];
    };
    match names.function_at(f) {
        None => &[],
        Some(function) => function_params(function),
    }
}

/// The type of the parameter with this number, if there is one.
pub(crate) fn param_at(params: &[Type], number: usize) -> Option<Type>
    ensures { result ≡ slice_get params.now number }
{
    params.get(number).copied()
}

#[tactic(auto, unfolding(crate::specs::Postfixes::function_params))]
fn function_params(function: &Callable) -> &[Type]
    ensures { result.now ≡ is.function_params function.now }
{
    if is_main(function.name.as_slice()) {
        return &[];
    }
    function.params.as_slice()
}

#[tactic(auto, unfolding(crate::specs::Postfixes::is_main))]
fn is_main(name: &[u8]) -> bool
    ensures { result ≡ is.is_main name.now }
{
    name == b"main".as_slice()
}

/// An argument as a value of its parameter's type, where it has a parameter.
#[tactic(auto, unfolding(crate::specs::Postfixes::argument_tree, crate::specs::Postfixes::argument_faults))]
pub(crate) fn argument(
    alloc: Global,
    param: Option<Type>,
    at: Span,
    operand: Operand,
    faults: &mut Vec<TypeFault>,
) -> Result<TypedExpr, AllocError>
    ensures tree { IfOk result (λ x. view_expr x ≡ is.argument_tree param (value_of (known operand)) (value_tree at (known operand))) }
    ensures faults { OnOk result (faults.new.items ≡ faults.old.items ++ is.argument_faults param (value_of (known operand)) at) }
{
    match param {
        None => operand.into_tree(alloc, at),
        Some(ty) => fitted(alloc, ty, at, operand, faults),
    }
}

/// An expression as a value of the type, to which it is converted as by an assignment (C99 6.5.16.1).
/// One that doesn't fit is a fault at its span; its tree is any.
pub fn fitted(
    alloc: Global,
    ty: Type,
    at: Span,
    operand: Operand,
    faults: &mut Vec<TypeFault>,
) -> Result<TypedExpr, AllocError>
    ensures tree { IfOk result (λ x. view_expr x ≡ to.as_type ty (value_of (known operand)).null (value_tree at (known operand))) }
    ensures faults { OnOk result (faults.new.items ≡ faults.old.items ++ fault_if (is_wrong (fit_rule ty (value_of (known operand)))) WrongType at) }
{
    let value = operand.value();
    note_if(faults, is_misfit(ty, value), FaultKind::WrongType, at)?;
    let tree = operand.into_tree(alloc, at)?;
    as_type(alloc, ty, value.null, tree)
}

/// A call of a function, or of what else has this type, with these arguments.
#[tactic(auto, unfolding(crate::specs::Postfixes::called, crate::specs::Postfixes::called_function))]
pub(crate) fn called(
    names: &Names,
    callee: Option<FnId>,
    ty: Type,
    s: Span,
    trees: Vec<TypedExpr>,
    faults: &mut Vec<TypeFault>,
) -> Result<Operand, AllocError>
    ensures { GivesMade result faults.old.items faults.new.items (is.called (env_of names.now) callee ty s (map view_expr trees.items)) }
{
    let Some(f) = callee else {
        return called_other(ty, s, faults);
    };
    match names.function_at(f) {
        None => Ok(Operand::faulty()),
        Some(function) => called_function(function, s, f, trees, faults),
    }
}

/// A call of a function. With another number of arguments than parameters it has no type.
#[tactic(auto, unfolding(crate::specs::Postfixes::call_of))]
fn called_function(
    function: &Callable,
    s: Span,
    f: FnId,
    trees: Vec<TypedExpr>,
    faults: &mut Vec<TypeFault>,
) -> Result<Operand, AllocError>
    ensures { GivesMade result faults.old.items faults.new.items (is.call_of function.now s f (map view_expr trees.items)) }
{
    if is_main(function.name.as_slice()) {
        return refused(faults, FaultKind::OutOfProfile, s);
    }
    if !is_count(&trees, function.params.as_slice()) {
        return refused(faults, FaultKind::ArgCount, s);
    }
    Ok(valued(s, function.result, Form::call(f, trees)))
}

/// Whether there are as many arguments as parameters.
fn is_count(trees: &Vec<TypedExpr>, params: &[Type]) -> bool
    ensures { result ≡ nat_eq (length (map view_expr trees.now.items)) (length params.now) }
{
    trees.len() == params.len()
}

/// What is no function isn't called.
#[tactic(auto, unfolding(crate::specs::Postfixes::called_other))]
fn called_other(ty: Type, s: Span, faults: &mut Vec<TypeFault>) -> Result<Operand, AllocError>
    ensures { GivesMade result faults.old.items faults.new.items (is.called_other ty s) }
{
    match ty {
        Type::Bad => Ok(Operand::faulty()),
        Type::Void | Type::Int(_) | Type::Struct(_) | Type::Array { .. } | Type::Pointer { .. } => {
            refused(faults, FaultKind::WrongType, s)
        }
    }
}

// Expressions with their types.
ghost use Rattle.std.specs.Prelude.{◌≡◌, IfOk, map};
ghost use Rattle.typed_tree.specs.ExpressionTree.{read, decay, address, unary, convert, discard, chain, logical, choice, assign, compound, step, call, view_form, view_expr, view_link, view_operand, view_place, expr_trees, link_trees, operand_trees};

use crate::link::{LinkStep, LogicalOp, TypedLink, TypedOperand};
use crate::place::Place;
use crate::types::VarTy;
use pt_base::{FnId, Span};
use pt_int::UnOp;
use std::alloc::{AllocError, Global};

/// An expression (C99 6.5) with its type, each conversion being a form of its own. A span has the
/// first to past the last of its tokens; parentheses round an expression belong to what it stands
/// in.
#[cycle(expressions)]
pub struct TypedExpr {
    pub span: Span,
    /// The type of its value; None is void.
    pub ty: Option<VarTy>,
    pub form: Form,
}

impl Drop for TypedExpr {
    #[cycle(expressions)]
    fn drop(self) {
        let TypedExpr {
            span: _,
            ty: _,
            form: _form,
        } = self;
    }
}

/// What an expression does.
#[cycle(expressions)]
pub enum Form {
    /// A number in the range of the expression's type.
    Constant(i128),
    /// The null pointer.
    Null,
    /// The value of an object that is an integer, a pointer or a struct.
    Read(Place),
    /// An array as a pointer to its first element (C99 6.3.2.1p3).
    Decay(Place),
    /// `&` of an object (C99 6.5.3.2).
    Address(Place),
    /// An operator before an operand that has been converted.
    Unary(UnOp, Box<TypedExpr>),
    /// A conversion to the expression's type: of an integer to an integer type, or of a pointer to
    /// its own type or to one whose pointee is const. A conversion that isn't written has its
    /// operand's span.
    Convert(Box<TypedExpr>),
    /// A cast to void.
    Discard(Box<TypedExpr>),
    /// A first operand and at least one step behind it, each from the value so far.
    Chain(Box<TypedExpr>, Vec<TypedLink>),
    /// `&&` or `||` between a first operand and at least one more.
    Logical(LogicalOp, Box<TypedExpr>, Vec<TypedOperand>),
    /// `test ? yes : no`
    Choice(Box<TypedExpr>, Box<TypedExpr>, Box<TypedExpr>),
    /// An assignment of a value that has the place's type.
    Assign(Place, Box<TypedExpr>),
    /// A compound assignment: from the place's value a step with the operand gives a value, which
    /// is converted to the place's type. `at` is where the place alone stands.
    Compound {
        place: Place,
        at: Span,
        step: LinkStep,
        operand: Box<TypedExpr>,
    },
    /// `++`, or `--` where `back` holds, of an integer or a pointer. `postfix` gives the value
    /// before it. `at` is where the place alone stands.
    Step {
        place: Place,
        at: Span,
        back: bool,
        postfix: bool,
    },
    /// A call, with one argument for each parameter, converted to its type.
    Call(FnId, Vec<TypedExpr>),
}

impl Drop for Form {
    #[cycle(expressions)]
    fn drop(self) {
        match self {
            Form::Constant(_) => {}
            Form::Null => {}
            Form::Read(_inner) => {}
            Form::Decay(_inner) => {}
            Form::Address(_inner) => {}
            Form::Unary(_, _inner) => {}
            Form::Convert(_inner) => {}
            Form::Discard(_inner) => {}
            Form::Chain(_first, _second) => {}
            Form::Logical(_, _first, _second) => {}
            Form::Choice(_first, _second, _third) => {}
            Form::Assign(_first, _second) => {}
            Form::Compound {
                place: _place,
                at: _,
                step: _,
                operand: _operand,
            } => {}
            Form::Step {
                place: _place,
                at: _,
                back: _,
                postfix: _,
            } => {}
            Form::Call(_, _inner) => {}
        }
    }
}

impl Form {
    /// The value of an object.
    pub fn read(place: Place) -> Form
        ensures { view_form result ≡ read (view_place place) }
    {
        Form::Read(place)
    }

    /// An array as a pointer to its first element.
    pub fn decay(place: Place) -> Form
        ensures { view_form result ≡ decay (view_place place) }
    {
        Form::Decay(place)
    }

    /// `&` of an object.
    pub fn address(place: Place) -> Form
        ensures { view_form result ≡ address (view_place place) }
    {
        Form::Address(place)
    }

    /// An operator before its operand.
    pub fn unary(alloc: Global, op: UnOp, operand: TypedExpr) -> Result<Form, AllocError>
        ensures { IfOk result (λ f. view_form f ≡ unary op (view_expr operand)) }
    {
        Ok(Form::Unary(op, Box::new(alloc, operand)?))
    }

    /// A conversion of this operand.
    pub fn convert(alloc: Global, operand: TypedExpr) -> Result<Form, AllocError>
        ensures { IfOk result (λ f. view_form f ≡ convert (view_expr operand)) }
    {
        Ok(Form::Convert(Box::new(alloc, operand)?))
    }

    /// A cast of this operand to void.
    pub fn discard(alloc: Global, operand: TypedExpr) -> Result<Form, AllocError>
        ensures { IfOk result (λ f. view_form f ≡ discard (view_expr operand)) }
    {
        Ok(Form::Discard(Box::new(alloc, operand)?))
    }

    /// A first operand and the steps behind it.
    pub fn chain(alloc: Global, first: TypedExpr, links: Vec<TypedLink>) -> Result<Form, AllocError>
        ensures { IfOk result (λ f. view_form f ≡ chain (view_expr first) (link_trees (map view_link links.items))) }
    {
        Ok(Form::Chain(Box::new(alloc, first)?, links))
    }

    /// `&&` or `||` between a first operand and more.
    pub fn logical(
        alloc: Global,
        op: LogicalOp,
        first: TypedExpr,
        operands: Vec<TypedOperand>,
    ) -> Result<Form, AllocError>
        ensures { IfOk result (λ f. view_form f ≡ logical op (view_expr first) (operand_trees (map view_operand operands.items))) }
    {
        Ok(Form::Logical(op, Box::new(alloc, first)?, operands))
    }

    /// `test ? yes : no`
    pub fn choice(
        alloc: Global,
        test: TypedExpr,
        yes: TypedExpr,
        no: TypedExpr,
    ) -> Result<Form, AllocError>
        ensures { IfOk result (λ f. view_form f ≡ choice (view_expr test) (view_expr yes) (view_expr no)) }
    {
        Ok(Form::Choice(
            Box::new(alloc, test)?,
            Box::new(alloc, yes)?,
            Box::new(alloc, no)?,
        ))
    }

    /// An assignment of a value.
    pub fn assign(alloc: Global, place: Place, value: TypedExpr) -> Result<Form, AllocError>
        ensures { IfOk result (λ f. view_form f ≡ assign (view_place place) (view_expr value)) }
    {
        Ok(Form::Assign(place, Box::new(alloc, value)?))
    }

    /// A compound assignment to a place that stands at `at`.
    pub fn compound(
        alloc: Global,
        place: Place,
        at: Span,
        step: LinkStep,
        operand: TypedExpr,
    ) -> Result<Form, AllocError>
        ensures { IfOk result (λ f. view_form f ≡ compound (view_place place) at step (view_expr operand)) }
    {
        Ok(Form::Compound {
            place,
            at,
            step,
            operand: Box::new(alloc, operand)?,
        })
    }

    /// `++`, or `--` where `back` holds, behind its operand where `postfix` does, of a place that
    /// stands at `at`.
    pub fn step(place: Place, at: Span, back: bool, postfix: bool) -> Form
        ensures { view_form result ≡ step (view_place place) at back postfix }
    {
        Form::Step {
            place,
            at,
            back,
            postfix,
        }
    }

    /// A call with these arguments.
    pub fn call(callee: FnId, arguments: Vec<TypedExpr>) -> Form
        ensures { view_form result ≡ call callee (expr_trees (map view_expr arguments.items)) }
    {
        Form::Call(callee, arguments)
    }
}

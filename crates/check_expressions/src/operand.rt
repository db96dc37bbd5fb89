// What is known of an expression.
ghost use Rattle.std.specs.Prelude.{◌≡◌, ◌++◌, ◌∷◌, [], IfOk, map};
ghost use Rattle.typed_tree.specs.ExpressionTree.{view_expr, view_form, view_place, view_root, view_step, deref, item};
ghost use Rattle.check_expressions.specs.Operands as is;
ghost use Rattle.check_expressions.specs.Views.{elaboration, known};

use pt_base::Span;
use std::alloc::{AllocError, Global};
use type_rules::{Type, Value, value_type};
use typed_tree::{Form, Place, PlaceStep, Root, TypedExpr, VarTy};

/// What is known of an expression. An array isn't decayed here.
pub struct Operand {
    pub ty: Type,
    /// The object that it designates is const itself.
    pub fixed: bool,
    /// It designates an object (C99 6.3.2.1p1).
    pub designates: bool,
    /// It is an integer constant of value 0.
    pub null: bool,
    pub tree: Elaborated,
}

impl Drop for Operand {
    fn drop(self) {
        let Operand {
            ty: _,
            fixed: _,
            designates: _,
            null: _,
            tree: _,
        } = self;
    }
}

/// An operand with where it stands.
#[derive(Drop)]
pub(crate) struct Placed {
    pub span: Span,
    pub operand: Operand,
}

/// The typed tree of an expression, by what the expression is.
#[derive(Drop)]
pub enum Elaborated {
    /// A value.
    Value(TypedExpr),
    /// An object.
    Place(Place),
    /// What a pointer points to, under a `*` whose expression has the span.
    Pointed(TypedExpr, Span),
    /// What a moved pointer points to: an element by a pointer and an index. The expression has the
    /// moved pointer's span.
    Moved(TypedExpr),
    /// An element of an array: the array and its span, the index, and the span of the expression.
    Item(Place, Span, TypedExpr, Span),
}

impl Operand {
    /// A faulty expression; its uses have no fault of their own.
    #[tactic(auto, unfolding(crate::specs::Operands::var_type, crate::specs::Views::elaboration))]
    pub fn faulty() -> Operand
        ensures { known result ≡ is.faulty }
    {
        let nowhere = Span { from: 0, to: 0 };
        Operand::plain(
            Type::Bad,
            TypedExpr {
                span: nowhere,
                ty: None,
                form: Form::Constant(0),
            },
        )
    }

    /// A faulty expression in place of this one.
    pub(crate) fn forgotten(self) -> Operand
        ensures { known result ≡ is.faulty }
    {
        Operand::faulty()
    }

    /// A value that is no constant.
    #[tactic(auto, unfolding(crate::specs::Views::elaboration))]
    pub(crate) fn plain(ty: Type, tree: TypedExpr) -> Operand
        ensures { known result ≡ is.plain ty (view_expr tree) }
    {
        Operand {
            ty,
            fixed: false,
            designates: false,
            null: false,
            tree: Elaborated::Value(tree),
        }
    }

    /// An object.
    pub(crate) fn designated(ty: Type, fixed: bool, tree: Elaborated) -> Operand
        ensures { known result ≡ is.designated ty fixed (elaboration tree) }
    {
        Operand {
            ty,
            fixed,
            designates: true,
            null: false,
            tree,
        }
    }

    /// The expression as a value (C99 6.3.2.1p2 and p3).
    #[tactic(auto, unfolding(crate::specs::Operands::value_of))]
    pub fn value(&self) -> Value
        ensures { result ≡ is.value_of (known self.now) }
    {
        Value {
            ty: value_type(self.ty, self.fixed),
            null: self.null,
        }
    }

    /// The tree of the expression's value; the expression has this span.
    #[tactic(auto, unfolding(crate::specs::Operands::value_tree))]
    pub fn into_tree(self, alloc: Global, at: Span) -> Result<TypedExpr, AllocError>
        ensures { IfOk result (λ x. view_expr x ≡ is.value_tree at (known self)) }
    {
        let (ty, fixed) = (self.ty, self.fixed);
        self.into_elaborated().into_value(alloc, at, ty, fixed)
    }

    /// The expression's tree.
    pub(crate) fn into_elaborated(self) -> Elaborated
        ensures { result ≡ self.tree }
    {
        let Operand {
            ty: _,
            fixed: _,
            designates: _,
            null: _,
            tree,
        } = self;
        tree
    }
}

impl Elaborated {
    /// The tree of the value of an expression with this span, which designates an object of this
    /// type, const where `fixed` holds, or is a value.
    #[tactic(auto, unfolding(crate::specs::Operands::read_tree, crate::specs::Operands::root_of, crate::specs::Operands::steps_of, crate::specs::Views::elaboration))]
    fn into_value(
        self,
        alloc: Global,
        at: Span,
        ty: Type,
        fixed: bool,
    ) -> Result<TypedExpr, AllocError>
        ensures { IfOk result (λ x. view_expr x ≡ is.read_tree at ty fixed (elaboration self)) }
    {
        match self {
            Elaborated::Value(value) => Ok(value),
            Elaborated::Place(place) => Ok(read_object(at, ty, fixed, place)),
            Elaborated::Pointed(pointer, span) => {
                read_pointed(alloc, at, ty, fixed, pointer, span)
            }
            Elaborated::Moved(pointer) => {
                let span = pointer.span;
                read_pointed(alloc, at, ty, fixed, pointer, span)
            }
            Elaborated::Item(array, _, index, span) => {
                let place = item_place(array, index, span)?;
                Ok(read_object(at, ty, fixed, place))
            }
        }
    }

    /// The object as a place. Of a struct that is a value, as only an assignment gives one, it is the
    /// assigned object.
    #[tactic(auto, unfolding(crate::specs::Operands::root_of, crate::specs::Operands::steps_of, crate::specs::Views::elaboration))]
    pub(crate) fn into_place(self, alloc: Global) -> Result<Place, AllocError>
        ensures root { IfOk result (λ p. view_root p.root ≡ is.root_of (elaboration self)) }
        ensures steps { IfOk result (λ p. map view_step p.steps.items ≡ is.steps_of (elaboration self)) }
    {
        match self {
            Elaborated::Value(value) => Ok(Place {
                root: Root::assigned(alloc, value)?,
                steps: Vec::new(alloc),
            }),
            Elaborated::Place(place) => Ok(place),
            Elaborated::Pointed(pointer, span) => pointed_place(alloc, pointer, span),
            Elaborated::Moved(pointer) => {
                let span = pointer.span;
                pointed_place(alloc, pointer, span)
            }
            Elaborated::Item(array, _, index, span) => item_place(array, index, span),
        }
    }
}

/// What a pointer points to; the expression that designates it has the span.
pub(crate) fn pointed_place(
    alloc: Global,
    pointer: TypedExpr,
    span: Span,
) -> Result<Place, AllocError>
    ensures root { IfOk result (λ p. view_root p.root ≡ deref (view_expr pointer) span) }
    ensures steps { IfOk result (λ p. p.steps.items ≡ []) }
{
    Ok(Place {
        root: Root::deref(alloc, pointer, span)?,
        steps: Vec::new(alloc),
    })
}

/// The value of what a pointer points to; the expression that designates it has the span.
#[inline(never)]
#[tactic(auto, unfolding(crate::specs::Operands::read_tree, crate::specs::Operands::root_of, crate::specs::Operands::steps_of))]
fn read_pointed(
    alloc: Global,
    at: Span,
    ty: Type,
    fixed: bool,
    pointer: TypedExpr,
    span: Span,
) -> Result<TypedExpr, AllocError>
    ensures { IfOk result (λ x. view_expr x ≡ is.read_tree at ty fixed (is.pointed (view_expr pointer) span)) }
{
    let place = pointed_place(alloc, pointer, span)?;
    Ok(read_object(at, ty, fixed, place))
}

/// An element of an array; the expression that designates it has the span. Most places have few steps.
#[inline(never)]
fn item_place(mut array: Place, index: TypedExpr, span: Span) -> Result<Place, AllocError>
    ensures root { IfOk result (λ p. p.root ≡ array.root) }
    ensures steps { IfOk result (λ p. map view_step p.steps.items ≡ map view_step array.steps.items ++ item (view_expr index) span ∷ []) }
{
    array.steps.reserve_exact(1)?;
    array.steps.push(PlaceStep::item(index, span))?;
    Ok(array)
}

/// The value of an object. An array decays (C99 6.3.2.1p3).
fn read_object(at: Span, ty: Type, fixed: bool, place: Place) -> TypedExpr
    ensures { view_expr result ≡ is.read_object at ty fixed (view_place place) }
{
    TypedExpr {
        span: at,
        ty: var_type(value_type(ty, fixed)),
        form: read_form(ty, place),
    }
}

#[tactic(auto, unfolding(crate::specs::Operands::read_form))]
fn read_form(ty: Type, place: Place) -> Form
    ensures { view_form result ≡ is.read_form ty (view_place place) }
{
    match ty {
        Type::Array { .. } => Form::decay(place),
        Type::Bad | Type::Void | Type::Int(_) | Type::Struct(_) | Type::Pointer { .. } => {
            Form::read(place)
        }
    }
}

/// The type of a value in the typed tree: None is void, and also stands where a type is Bad.
#[tactic(auto, unfolding(crate::specs::Operands::var_type))]
pub(crate) fn var_type(ty: Type) -> Option<VarTy>
    ensures { result ≡ is.var_type ty }
{
    match ty {
        Type::Bad | Type::Void => None,
        Type::Int(t) => Some(VarTy::Int(t)),
        Type::Struct(n) => Some(VarTy::Struct(n)),
        Type::Array { elem, count } => Some(VarTy::Array { elem, count }),
        Type::Pointer { elem, fixed } => Some(VarTy::Pointer { elem, fixed }),
    }
}

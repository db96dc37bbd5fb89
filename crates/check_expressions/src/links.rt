// Chains of operators that group to the left (C99 6.5.5 to 6.5.14).
ghost use Rattle.std.specs.Prelude.{◌≡◌, ◌++◌, ◌∷◌, [], IfOk, OnOk, map};
ghost use Rattle.pt_tree.specs.ExpressionTree as parsed;
ghost use Rattle.typed_tree.specs.ExpressionTree.{view_expr, view_link, view_operand};
ghost use Rattle.check_expressions.specs.Gives.{GivesMade};
ghost use Rattle.check_expressions.specs.Links as is;
ghost use Rattle.check_expressions.specs.Views.{known, so_far};

use crate::conversions::{as_promoted, as_type, to_int};
use crate::operand::{Operand, var_type};
use crate::prefixes::refused;
use check_declarations::{FaultKind, TypeFault, note_if};
use pt_base::{IntType, Span};
use pt_int::BinOp;
use pt_tree::{BinaryOp, Link};
use std::alloc::{AllocError, Global};
use std::mem::replace;
use type_rules::{Rule, Type, Value, binary_rule, rule_type};
use typed_tree::{Form, LinkStep, LogicalOp, TypedExpr, TypedLink, TypedOperand, VarTy};

/// All of a chain so far: its value, where it stands, the tree of the first operand and the links.
pub(crate) struct SoFar {
    pub value: Value,
    pub span: Span,
    pub first: TypedExpr,
    pub links: Vec<TypedLink>,
}

/// How an operand is linked to all before it: the rule, the operator, and the span of all up to and
/// with it.
#[derive(Clone, Copy)]
pub(crate) struct Joint {
    pub rule: Rule,
    pub op: BinaryOp,
    pub span: Span,
}

/// A chain of so many links before its first one.
#[tactic(auto, unfolding(crate::specs::Links::begun))]
pub(crate) fn begun(
    alloc: Global,
    at: Span,
    operand: Operand,
    count: usize,
) -> Result<SoFar, AllocError>
    ensures { IfOk result (λ far. so_far far ≡ is.begun at (known operand)) }
{
    let value = operand.value();
    Ok(SoFar {
        value,
        span: at,
        first: operand.into_tree(alloc, at)?,
        links: Vec::with_capacity(alloc, count)?,
    })
}

impl Drop for SoFar {
    fn drop(self) {
        let SoFar {
            value: _,
            span: _,
            first: _,
            links: _,
        } = self;
    }
}

impl SoFar {
    /// The chain with a link more, whose operand has this value and tree.
    #[tactic(auto, unfolding(crate::specs::Links::linked))]
    pub(crate) fn linked(
        self,
        alloc: Global,
        joint: Joint,
        value: Value,
        tree: TypedExpr,
    ) -> Result<SoFar, AllocError>
        ensures { IfOk result (λ f. so_far f ≡ is.linked joint.rule joint.op joint.span (so_far self) value (view_expr tree)) }
    {
        let Joint { rule, op, span } = joint;
        let SoFar {
            value: left,
            span: _,
            first,
            links,
        } = self;
        let ty = rule_type(rule, left, value);
        let first = first_by(alloc, is_first(&links), rule, left, value, first)?;
        let operand = converted_by(alloc, rule, value, left, tree)?;
        let link = TypedLink {
            span,
            ty: link_type(ty),
            step: step_of(integer_op(op), rule),
            operand,
        };
        Ok(SoFar {
            value: Value { ty, null: false },
            span,
            first,
            links: with_link(links, link)?,
        })
    }

    /// The whole chain. One without a link, as the grammar never builds it, is wrong.
    #[tactic(auto, unfolding(crate::specs::Links::chained))]
    pub(crate) fn chained(
        self,
        alloc: Global,
        sort: Option<LogicalOp>,
        s: Span,
        faults: &mut Vec<TypeFault>,
    ) -> Result<Operand, AllocError>
        ensures { GivesMade result faults.old.items faults.new.items (is.chained sort s (so_far self)) }
    {
        let SoFar {
            value,
            span: _,
            first,
            links,
        } = self;
        if is_first(&links) {
            return refused(faults, FaultKind::WrongType, s);
        }
        let ty = value.ty;
        let tree = links_tree(alloc, sort, s, var_type(ty), first, links)?;
        Ok(Operand::plain(ty, tree))
    }
}

fn with_link(links: Vec<TypedLink>, link: TypedLink) -> Result<Vec<TypedLink>, AllocError>
    ensures { IfOk result (λ v. map view_link v.items ≡ map view_link links.items ++ view_link link ∷ []) }
{
    let mut links = links;
    links.push(link)?;
    Ok(links)
}

/// Whether no link stands before.
#[tactic(auto, unfolding(crate::specs::Links::has_none))]
fn is_first(links: &Vec<TypedLink>) -> bool
    ensures { result ≡ is.has_none (map view_link links.now.items) }
{
    links.is_empty()
}

/// The first operand, which its first link converts.
#[tactic(auto, unfolding(crate::specs::Links::first_by))]
fn first_by(
    alloc: Global,
    is_first: bool,
    rule: Rule,
    own: Value,
    other: Value,
    tree: TypedExpr,
) -> Result<TypedExpr, AllocError>
    ensures { IfOk result (λ x. view_expr x ≡ is.first_by is_first rule own other (view_expr tree)) }
{
    if is_first {
        return converted_by(alloc, rule, own, other, tree);
    }
    Ok(tree)
}

/// The tree of a chain with these links.
#[tactic(auto, unfolding(crate::specs::Links::links_tree))]
fn links_tree(
    alloc: Global,
    sort: Option<LogicalOp>,
    s: Span,
    ty: Option<VarTy>,
    first: TypedExpr,
    links: Vec<TypedLink>,
) -> Result<TypedExpr, AllocError>
    ensures { IfOk result (λ x. view_expr x ≡ is.links_tree sort s ty (view_expr first) (map view_link links.items)) }
{
    match sort {
        None => Ok(TypedExpr {
            span: s,
            ty,
            form: Form::chain(alloc, first, links)?,
        }),
        Some(op) => {
            let operands = operands(alloc, links)?;
            Ok(TypedExpr {
                span: s,
                ty,
                form: Form::logical(alloc, op, first, operands)?,
            })
        }
    }
}

/// Links as the operands of `&&` and `||`, which have no step.
#[tactic(auto, unfolding(crate::specs::Links::operand_of))]
fn operands(alloc: Global, links: Vec<TypedLink>) -> Result<Vec<TypedOperand>, AllocError>
    ensures { IfOk result (λ os. map view_operand os.items ≡ map is.operand_of (map view_link links.items)) }
{
    let mut operands = Vec::with_capacity(alloc, links.len())?;
    for mut link in links {
        let nothing = TypedExpr {
            span: link.span,
            ty: None,
            form: Form::Null,
        };
        operands.push(TypedOperand {
            span: link.span,
            operand: replace(&mut link.operand, nothing),
        })?;
    }
    Ok(operands)
}

/// What an operator makes of the value so far and an operand. The operators of a chain are of one
/// level; the grammar builds no others, and an operator among those of the other sort is wrong.
#[tactic(auto, unfolding(crate::specs::Links::link_rule))]
pub(crate) fn link_rule(is_logical: bool, op: BinaryOp, so_far: Value, value: Value) -> Rule
    ensures { result ≡ is.link_rule is_logical op so_far value }
{
    if is_logical == logical_of(op).is_some() {
        binary_rule(op, so_far, value)
    } else {
        Rule::Wrong {
            left: true,
            right: true,
        }
    }
}

/// The operands that a rule refuses.
#[tactic(auto, unfolding(crate::specs::Links::rule_faults))]
pub(crate) fn note_rule(
    faults: &mut Vec<TypeFault>,
    rule: Rule,
    at_left: Span,
    at_right: Span,
) -> Result<(), AllocError>
    ensures { OnOk result (faults.new.items ≡ faults.old.items ++ is.rule_faults rule at_left at_right) }
{
    match rule {
        Rule::Wrong { left, right } => {
            note_if(faults, left, FaultKind::WrongType, at_left)?;
            note_if(faults, right, FaultKind::WrongType, at_right)
        }
        Rule::Unknown
        | Rule::Arithmetic(_)
        | Rule::Comparison(_)
        | Rule::Shift(_)
        | Rule::Logical
        | Rule::Move
        | Rule::MoveBy
        | Rule::Difference
        | Rule::ComparePointers => Ok(()),
    }
}

/// The conversion of an operand, on either side, by the rule.
#[tactic(auto, unfolding(crate::specs::Links::converted_by))]
pub(crate) fn converted_by(
    alloc: Global,
    rule: Rule,
    own: Value,
    other: Value,
    tree: TypedExpr,
) -> Result<TypedExpr, AllocError>
    ensures { IfOk result (λ x. view_expr x ≡ is.converted_by rule own other (view_expr tree)) }
{
    match rule {
        Rule::Arithmetic(t) | Rule::Comparison(t) => to_int(alloc, t, tree),
        Rule::Shift(_) => as_promoted(alloc, own.ty, tree),
        Rule::ComparePointers => {
            if own.null {
                as_type(alloc, other.ty, true, tree)
            } else {
                Ok(tree)
            }
        }
        Rule::Unknown
        | Rule::Wrong { .. }
        | Rule::Logical
        | Rule::Move
        | Rule::MoveBy
        | Rule::Difference => Ok(tree),
    }
}

/// The step of a chain; that of a faulty link, or of `&&` and `||`, is any.
#[tactic(auto, unfolding(crate::specs::Links::step_of))]
pub(crate) fn step_of(op: BinOp, rule: Rule) -> LinkStep
    ensures { result ≡ is.step_of op rule }
{
    match rule {
        Rule::Arithmetic(t) | Rule::Comparison(t) => LinkStep::Arithmetic(op, t),
        Rule::Shift(_) => LinkStep::Shift {
            left: is_shift_left(op),
        },
        Rule::Move => LinkStep::Move {
            back: is_subtraction(op),
        },
        Rule::MoveBy => LinkStep::MoveBy,
        Rule::ComparePointers => LinkStep::Compare(op),
        Rule::Unknown | Rule::Wrong { .. } | Rule::Logical | Rule::Difference => {
            LinkStep::Difference
        }
    }
}

#[tactic(auto, unfolding(crate::specs::Links::is_shift_left))]
fn is_shift_left(op: BinOp) -> bool
    ensures { result ≡ is.is_shift_left op }
{
    matches!(op, BinOp::Shl)
}

#[tactic(auto, unfolding(crate::specs::Links::is_subtraction))]
fn is_subtraction(op: BinOp) -> bool
    ensures { result ≡ is.is_subtraction op }
{
    matches!(op, BinOp::Sub)
}

/// The type of a step's result; that of a faulty one is any.
#[tactic(auto, unfolding(crate::specs::Links::link_type))]
pub(crate) fn link_type(ty: Type) -> VarTy
    ensures { result ≡ is.link_type ty }
{
    var_type(ty).unwrap_or(VarTy::Int(IntType::Int))
}

/// The sort of a chain, by its first operator.
#[tactic(auto, unfolding(crate::specs::Links::sort_of))]
pub(crate) fn sort_of(links: &[Link]) -> Option<LogicalOp>
    ensures { result ≡ is.sort_of (parsed.link_trees (map parsed.view_link links.now)) }
{
    match links.first() {
        None => None,
        Some(link) => logical_of(link.op),
    }
}

/// `&&` and `||`
#[tactic(auto, unfolding(crate::specs::Links::logical_of))]
pub(crate) fn logical_of(op: BinaryOp) -> Option<LogicalOp>
    ensures { result ≡ is.logical_of op }
{
    match op {
        BinaryOp::LogicalOr => Some(LogicalOp::Or),
        BinaryOp::LogicalAnd => Some(LogicalOp::And),
        BinaryOp::BitOr
        | BinaryOp::BitXor
        | BinaryOp::BitAnd
        | BinaryOp::Equal
        | BinaryOp::NotEqual
        | BinaryOp::Less
        | BinaryOp::Greater
        | BinaryOp::LessEqual
        | BinaryOp::GreaterEqual
        | BinaryOp::ShiftLeft
        | BinaryOp::ShiftRight
        | BinaryOp::Add
        | BinaryOp::Subtract
        | BinaryOp::Multiply
        | BinaryOp::Divide
        | BinaryOp::Remainder => None,
    }
}

/// The operator of integers.
#[tactic(auto, unfolding(crate::specs::Links::integer_op))]
pub(crate) fn integer_op(op: BinaryOp) -> BinOp
    ensures { result ≡ is.integer_op op }
{
    match op {
        BinaryOp::LogicalOr | BinaryOp::BitOr => BinOp::Or,
        BinaryOp::LogicalAnd | BinaryOp::BitAnd => BinOp::And,
        BinaryOp::BitXor => BinOp::Xor,
        BinaryOp::Equal => BinOp::Eq,
        BinaryOp::NotEqual => BinOp::Ne,
        BinaryOp::Less => BinOp::Lt,
        BinaryOp::Greater => BinOp::Gt,
        BinaryOp::LessEqual => BinOp::Le,
        BinaryOp::GreaterEqual => BinOp::Ge,
        BinaryOp::ShiftLeft => BinOp::Shl,
        BinaryOp::ShiftRight => BinOp::Shr,
        BinaryOp::Add => BinOp::Add,
        BinaryOp::Subtract => BinOp::Sub,
        BinaryOp::Multiply => BinOp::Mul,
        BinaryOp::Divide => BinOp::Div,
        BinaryOp::Remainder => BinOp::Rem,
    }
}

// The types of expressions.
ghost use Rattle.std.specs.Prelude.{◌≡◌, IfOk, map};
ghost use Rattle.pt_tree.specs.ExpressionTree as parsed;
ghost use Rattle.pt_tree.specs.SpecifierTree.{view_specs};
ghost use Rattle.typed_tree.specs.ExpressionTree.{view_root};
ghost use Rattle.check_expressions.specs.EnvOf.{env_of};
ghost use Rattle.check_expressions.specs.Expressions as is;
ghost use Rattle.check_expressions.specs.Gives.{GivesArguments, GivesCastBase, GivesHead, GivesJudged, GivesLinked, GivesMade, GivesPlaced};
ghost use Rattle.check_expressions.specs.Operands as o;
ghost use Rattle.check_expressions.specs.Views.{known, so_far};

use crate::assignments::assigned;
use crate::choices::chosen;
use crate::links::{Joint, SoFar, begun, link_rule, note_rule, sort_of};
use crate::meaning::{Meaning, Object};
use crate::names::Names;
use crate::operand::{Elaborated, Operand, Placed};
use crate::postfixes::{
    argument, arrow, called, dotted, function_called, indexed, param_at, params_for,
};
use crate::prefixes::{Stepping, cast_to, prefixed, refused, stepped};
use check_declarations::{
    Carrier, FaultKind, Findings, TypeFault, judge_specifiers, note_attributes,
};
use pt_base::{FnId, Span};
use pt_tree::{Constant, Expr, Link, Postfix, Spec, Word};
use std::alloc::{AllocError, Global};
use type_rules::Type;
use typed_tree::{Form, Place, Root, TypedExpr, VarTy};

/// What is known of an expression, and its typed tree, which is there for a faulty one too, and is
/// then any tree. Its faults go to the end of those found. A cast may hold the body of a struct, which
/// is declared.
#[cycle(expressions)]
pub fn expression(
    alloc: Global,
    names: &Names,
    findings: &mut Findings,
    e: &Expr,
) -> Result<Operand, AllocError>
    ensures { GivesJudged result findings.old findings.new (is.judge (env_of names.now) findings.old.structs (parsed.view_expr e.now)) }
{
    match e {
        Expr::Name(word) => named(alloc, names, word, &mut findings.faults),
        Expr::Constant(constant) => literal(constant),
        _ => operation(alloc, names, findings, e),
    }
}

/// The same of any expression. A function pays at its entry for all its locals, so names and constants,
/// which most expressions are, have none of those that judged parts need.
#[cycle(expressions)]
#[inline(never)]
fn operation(
    alloc: Global,
    names: &Names,
    findings: &mut Findings,
    e: &Expr,
) -> Result<Operand, AllocError>
    ensures { GivesJudged result findings.old findings.new (is.judge (env_of names.now) findings.old.structs (parsed.view_expr e.now)) }
{
    match e {
        Expr::Name(word) => named(alloc, names, word, &mut findings.faults),
        Expr::Constant(constant) => literal(constant),
        Expr::Prefix(s, op, a) => {
            let operand = placed(alloc, names, findings, a)?;
            let faults = &mut findings.faults;
            prefixed(alloc, &findings.structs, *op, *s, operand, faults)
        }
        Expr::Cast(s, specs, pointer, a) => {
            let base = cast_base(alloc, findings, specs)?;
            let operand = placed(alloc, names, findings, a)?;
            cast_to(alloc, *pointer, base, *s, operand, &mut findings.faults)
        }
        Expr::Postfix(s, a, postfixes) => {
            let head = head_of(alloc, names, findings, a, postfixes)?;
            more_postfixes(alloc, names, findings, *s, head, postfixes)
        }
        Expr::Chain(s, a, links) => {
            let first = placed(alloc, names, findings, a)?;
            let start = begun(alloc, first.span, first.operand, links.len())?;
            let sort = sort_of(links);
            let whole = Whole {
                span: *s,
                is_logical: sort.is_some(),
            };
            let far = more_links(alloc, names, findings, whole, start, links)?;
            far.chained(alloc, sort, *s, &mut findings.faults)
        }
        Expr::Choice(s, a, b, c) => {
            let test = placed(alloc, names, findings, a)?;
            let first = placed(alloc, names, findings, b)?;
            let last = placed(alloc, names, findings, c)?;
            chosen(alloc, *s, test, first, last, &mut findings.faults)
        }
        Expr::Assign(s, op, a, b) => {
            let left = placed(alloc, names, findings, a)?;
            let right = placed(alloc, names, findings, b)?;
            let faults = &mut findings.faults;
            assigned(alloc, &findings.structs, *op, *s, left, right, faults)
        }
    }
}

/// An expression with where it stands.
#[cycle(expressions)]
fn placed(
    alloc: Global,
    names: &Names,
    findings: &mut Findings,
    e: &Expr,
) -> Result<Placed, AllocError>
    ensures { GivesPlaced result findings.old findings.new (env_of names.now) (parsed.view_expr e.now) }
{
    let operand = expression(alloc, names, findings, e)?;
    Ok(Placed {
        span: span_of(e),
        operand,
    })
}

/// A chain of operators as a whole.
#[derive(Clone, Copy)]
struct Whole {
    span: Span,
    /// Its operators are `&&` or `||`.
    is_logical: bool,
}

/// The links of a chain, behind all so far.
#[cycle(expressions)]
#[tactic(auto, unfolding(crate::specs::Expressions::judge_links))]
fn more_links(
    alloc: Global,
    names: &Names,
    findings: &mut Findings,
    whole: Whole,
    far: SoFar,
    links: &[Link],
) -> Result<SoFar, AllocError>
    ensures { GivesLinked result findings.old findings.new (is.judge_links (env_of names.now) findings.old.structs whole.span whole.is_logical (so_far far) (parsed.link_trees (map parsed.view_link links.now))) }
{
    let mut far = far;
    for link in links {
        far = one_link(alloc, names, findings, whole, far, link)?;
    }
    Ok(far)
}

/// A link of a chain, behind all so far.
#[cycle(expressions)]
#[tactic(auto, unfolding(crate::specs::Expressions::judge_link))]
fn one_link(
    alloc: Global,
    names: &Names,
    findings: &mut Findings,
    whole: Whole,
    far: SoFar,
    link: &Link,
) -> Result<SoFar, AllocError>
    ensures { GivesLinked result findings.old findings.new (is.judge_link (env_of names.now) findings.old.structs whole.span whole.is_logical (so_far far) (parsed.view_link link.now)) }
{
    let operand = expression(alloc, names, findings, &link.operand)?;
    let at = span_of(&link.operand);
    let value = operand.value();
    let rule = link_rule(whole.is_logical, link.op, far.value, value);
    note_rule(&mut findings.faults, rule, far.span, at)?;
    let tree = operand.into_tree(alloc, at)?;
    let span = joined(whole.span, link.span);
    let joint = Joint {
        rule,
        op: link.op,
        span,
    };
    let far = far.linked(alloc, joint, value, tree)?;
    Ok(far)
}

/// What stands before a postfix.
#[derive(Drop)]
struct Head {
    /// It is the name of this function, which is called.
    callee: Option<FnId>,
    operand: Placed,
}

/// What stands before these postfixes.
#[cycle(expressions)]
fn head_of(
    alloc: Global,
    names: &Names,
    findings: &mut Findings,
    a: &Expr,
    postfixes: &[Postfix],
) -> Result<Head, AllocError>
    ensures { GivesHead result findings.old findings.new (env_of names.now) (parsed.view_expr a.now) (parsed.postfix_trees (map parsed.view_postfix postfixes.now)) }
{
    match function_called(names, a, postfixes) {
        Some(f) => Ok(Head {
            callee: Some(f),
            operand: Placed {
                span: span_of(a),
                operand: Operand::faulty(),
            },
        }),
        None => {
            let operand = placed(alloc, names, findings, a)?;
            Ok(Head {
                callee: None,
                operand,
            })
        }
    }
}

/// The postfixes of an expression with the span `s`, behind its head.
#[cycle(expressions)]
#[tactic(auto, unfolding(crate::specs::Expressions::judge_postfixes))]
fn more_postfixes(
    alloc: Global,
    names: &Names,
    findings: &mut Findings,
    s: Span,
    head: Head,
    postfixes: &[Postfix],
) -> Result<Operand, AllocError>
    ensures { GivesJudged result findings.old findings.new (is.judge_postfixes (env_of names.now) findings.old.structs s head.callee head.operand.span (known head.operand.operand) (parsed.postfix_trees (map parsed.view_postfix postfixes.now))) }
{
    let mut head = head;
    for p in postfixes {
        let span = joined(s, postfix_span(p));
        let operand = one_postfix(alloc, names, findings, s, head, p)?;
        head = Head {
            callee: None,
            operand: Placed { span, operand },
        };
    }
    Ok(head.operand.operand)
}

/// One postfix.
#[cycle(expressions)]
fn one_postfix(
    alloc: Global,
    names: &Names,
    findings: &mut Findings,
    s: Span,
    head: Head,
    p: &Postfix,
) -> Result<Operand, AllocError>
    ensures { GivesJudged result findings.old findings.new (is.judge_postfix (env_of names.now) findings.old.structs s head.callee head.operand.span (known head.operand.operand) (parsed.view_postfix p.now)) }
{
    match p {
        Postfix::Index(span, a) => {
            let index = placed(alloc, names, findings, a)?;
            let s = joined(s, *span);
            indexed(alloc, s, head.operand, index, &mut findings.faults)
        }
        Postfix::Call(span, args) => {
            let params = params_for(names, head.callee);
            let trees = arguments(alloc, names, findings, params, args)?;
            let ty = head.operand.operand.ty;
            let s = joined(s, *span);
            called(names, head.callee, ty, s, trees, &mut findings.faults)
        }
        Postfix::Field(_, word) => {
            let faults = &mut findings.faults;
            dotted(alloc, &findings.structs, word, head.operand, faults)
        }
        Postfix::Arrow(span, word) => {
            let s = joined(s, *span);
            let faults = &mut findings.faults;
            arrow(alloc, &findings.structs, s, word, head.operand, faults)
        }
        Postfix::Increment(span) => {
            let s = joined(s, *span);
            let faults = &mut findings.faults;
            stepped(alloc, &findings.structs, s, INCREMENT, head.operand, faults)
        }
        Postfix::Decrement(span) => {
            let s = joined(s, *span);
            let faults = &mut findings.faults;
            stepped(alloc, &findings.structs, s, DECREMENT, head.operand, faults)
        }
    }
}

/// `++` behind its operand.
const INCREMENT: Stepping = Stepping {
    back: false,
    postfix: true,
};

/// `--` behind its operand.
const DECREMENT: Stepping = Stepping {
    back: true,
    postfix: true,
};

/// The arguments of a call, each as a value of its parameter's type.
#[cycle(expressions)]
#[tactic(auto, unfolding(crate::specs::Expressions::judge_arguments))]
fn arguments(
    alloc: Global,
    names: &Names,
    findings: &mut Findings,
    params: &[Type],
    args: &[Expr],
) -> Result<Vec<TypedExpr>, AllocError>
    ensures { GivesArguments result findings.old findings.new (is.judge_arguments (env_of names.now) findings.old.structs params.now 0 (parsed.expr_trees (map parsed.view_expr args.now))) }
{
    let mut trees = Vec::with_capacity(alloc, args.len())?;
    for (n, a) in args.iter().enumerate() {
        let operand = expression(alloc, names, findings, a)?;
        let param = param_at(params, n);
        let faults = &mut findings.faults;
        trees.push(argument(alloc, param, span_of(a), operand, faults)?)?;
    }
    Ok(trees)
}

/// A name that stands as an expression.
#[tactic(auto, unfolding(crate::specs::Expressions::named, crate::specs::Expressions::named_as))]
fn named(
    alloc: Global,
    names: &Names,
    word: &Word,
    faults: &mut Vec<TypeFault>,
) -> Result<Operand, AllocError>
    ensures { GivesMade result faults.old.items faults.new.items (is.named (env_of names.now) word.now) }
{
    match names.find(word.bytes.as_slice()) {
        None => refused(faults, FaultKind::UnknownName, word.span),
        Some(meaning) => meant(alloc, names, word.span, meaning, faults),
    }
}

/// What a name means as an expression. A function's name stands in calls alone.
#[tactic(auto, unfolding(crate::specs::Expressions::meant))]
fn meant(
    alloc: Global,
    names: &Names,
    s: Span,
    meaning: Meaning,
    faults: &mut Vec<TypeFault>,
) -> Result<Operand, AllocError>
    ensures { GivesMade result faults.old.items faults.new.items (is.meant (env_of names.now) s meaning) }
{
    match meaning {
        Meaning::Function(_) => refused(faults, FaultKind::OutOfProfile, s),
        Meaning::Global(g) => Ok(an_object(alloc, names.global_at(g), Root::Global(g))),
        Meaning::Local(v) => Ok(an_object(alloc, names.variable_at(v), Root::Local(v))),
    }
}

#[tactic(auto, unfolding(crate::specs::Views::elaboration))]
fn an_object(alloc: Global, object: Object, root: Root) -> Operand
    ensures { known result ≡ is.an_object object (view_root root) }
{
    let place = Place {
        root,
        steps: Vec::new(alloc),
    };
    Operand::designated(object.ty, object.fixed, Elaborated::Place(place))
}

/// A constant as an expression.
#[tactic(auto, unfolding(crate::specs::Expressions::literal, crate::specs::Views::elaboration))]
fn literal(constant: &Constant) -> Result<Operand, AllocError>
    ensures { IfOk result (λ operand. known operand ≡ is.literal constant.now) }
{
    let tree = TypedExpr {
        span: constant.span,
        ty: Some(VarTy::Int(constant.ty)),
        form: Form::Constant(constant.value),
    };
    Ok(Operand {
        ty: Type::Int(constant.ty),
        fixed: false,
        designates: false,
        null: constant.value == 0,
        tree: Elaborated::Value(tree),
    })
}

/// The base type of a cast's specifiers, which take no attributes.
#[tactic(auto, unfolding(crate::specs::Expressions::cast_specified))]
fn cast_base(alloc: Global, findings: &mut Findings, specs: &[Spec]) -> Result<Type, AllocError>
    ensures { GivesCastBase result findings.old findings.new (is.cast_specified findings.old.structs (view_specs specs.now)) }
{
    let given = judge_specifiers(alloc, findings, false, specs)?;
    let attributes = given.attributes.as_slice();
    note_attributes(&mut findings.faults, Carrier::Nothing, attributes)?;
    Ok(given.base)
}

/// Where an expression stands; parentheses round it belong to what it stands in.
#[tactic(auto, unfolding(crate::specs::Operands::span_of))]
pub fn span_of(e: &Expr) -> Span
    ensures { result ≡ o.span_of (parsed.view_expr e.now) }
{
    match e {
        Expr::Name(word) => word.span,
        Expr::Constant(constant) => constant.span,
        Expr::Prefix(s, _, _) => *s,
        Expr::Cast(s, _, _, _) => *s,
        Expr::Postfix(s, _, _) => *s,
        Expr::Chain(s, _, _) => *s,
        Expr::Choice(s, _, _, _) => *s,
        Expr::Assign(s, _, _, _) => *s,
    }
}

#[tactic(auto, unfolding(crate::specs::Expressions::postfix_span))]
fn postfix_span(postfix: &Postfix) -> Span
    ensures { result ≡ is.postfix_span (parsed.view_postfix postfix.now) }
{
    match postfix {
        Postfix::Index(s, _) => *s,
        Postfix::Call(s, _) => *s,
        Postfix::Field(s, _) => *s,
        Postfix::Arrow(s, _) => *s,
        Postfix::Increment(s) => *s,
        Postfix::Decrement(s) => *s,
    }
}

/// From the beginning of the first to the end of the second.
fn joined(first: Span, last: Span) -> Span
    ensures { result ≡ o.joined first last }
{
    Span {
        from: first.from,
        to: last.to,
    }
}

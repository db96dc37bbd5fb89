// The rules of a text.
ghost use Rattle.std.specs.Prelude.{◌≡◌, ◌≤◌, [], IfOk, length};
ghost use Rattle.pt_tree.specs.declared.signature.Signature.{Signature};
ghost use Rattle.policy.specs.Lines.{lines_of};
ghost use Rattle.policy.specs.Functions.{known};
ghost use Rattle.policy.specs.SpelledView.{view_spelled};
ghost use Rattle.policy.specs.LineReading.{checked_rule, resolved, line_rule, line_read, read_from, LineGives, TextGives};

use crate::error::{PolicyError, PolicyFault, PolicyFaultKind};
use crate::functions::Functions;
use crate::line::{first_line, is_passed_over};
use crate::plain::plain_ranges;
use crate::rule::Rule;
use crate::spelling::{SpelledRule, spelled_rule};
use crate::{RULE_LIMIT, TEXT_LIMIT};
use pt_base::{Bytes, FnId, Listed};
use pt_tree::Param;
use std::alloc::{AllocError, Global};

/// The rules of the text, or its first fault.
pub(crate) fn read_rules(
    alloc: Global,
    text: &[u8],
    functions: &Functions,
) -> Result<Vec<Rule>, PolicyError>
    requires { length text.now ≤ TEXT_LIMIT }
    ensures { TextGives result (read_from (known functions.now) [] 0 (lines_of text.now)) }
{
    let mut rules = Vec::new(alloc);
    let mut rest = text;
    let mut number: u32 = 0;
    while !rest.is_empty() {
        let (line, others) = first_line(rest);
        number += 1;
        read_line(alloc, line, number, functions, &mut rules)?;
        rest = others;
    }
    Ok(rules)
}

// Adds the rule of the line of this number, unless it is passed over.
fn read_line(
    alloc: Global,
    line: &[u8],
    number: u32,
    functions: &Functions,
    rules: &mut Vec<Rule>,
) -> Result<(), PolicyError>
    ensures { LineGives result rules.new.items (line_read (known functions.now) rules.old.items number line.now) }
{
    if is_passed_over(line) {
        return Ok(());
    }
    match line_rule(alloc, line, rules.len(), functions)? {
        Ok(rule) => rules.push(rule)?,
        Err(kind) => return Err(PolicyError::Fault(PolicyFault { kind, line: number })),
    }
    Ok(())
}

// The rule of a line, where so many rules stand before it.
fn line_rule(
    alloc: Global,
    line: &[u8],
    before: usize,
    functions: &Functions,
) -> Result<Result<Rule, PolicyFaultKind>, AllocError>
    ensures { IfOk result (λ r. r ≡ line_rule (known functions.now) before line.now) }
{
    let Some(spelled) = spelled_rule(alloc, line)? else {
        return Ok(Err(PolicyFaultKind::Syntax));
    };
    if before < RULE_LIMIT {
        resolved(alloc, &spelled, functions)
    } else {
        Ok(Err(PolicyFaultKind::TooLong))
    }
}

// The spelled rule over the functions.
fn resolved(
    alloc: Global,
    spelled: &SpelledRule,
    functions: &Functions,
) -> Result<Result<Rule, PolicyFaultKind>, AllocError>
    ensures { IfOk result (λ r. r ≡ resolved (known functions.now) (view_spelled spelled.now)) }
{
    let Some((function, params)) = functions.guarded(spelled.function) else {
        return Ok(Err(PolicyFaultKind::UnknownFunction));
    };
    checked_rule(alloc, spelled, function, params)
}

// The spelled rule over a function with these parameters.
fn checked_rule(
    alloc: Global,
    spelled: &SpelledRule,
    function: FnId,
    params: &[Param],
) -> Result<Result<Rule, PolicyFaultKind>, AllocError>
    ensures { IfOk result (λ r. r ≡ checked_rule params.now (view_spelled spelled.now) function.0) }
{
    let Some(ranges) = plain_ranges(alloc, params, &spelled.ranges)? else {
        return Ok(Err(PolicyFaultKind::UnseenArg));
    };
    Ok(Ok(Rule {
        from: Bytes::new(Vec::from_slice(alloc, spelled.from)?),
        function,
        ranges: Listed::new(ranges),
        most: spelled.most,
        to: Bytes::new(Vec::from_slice(alloc, spelled.to)?),
    }))
}

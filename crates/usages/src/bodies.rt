// All that the body of a function evaluates.
ghost use Rattle.std.specs.Prelude.{◌≡◌, IfOk, map};
ghost use Rattle.typed_tree.specs.TypedView.{view_typed};
ghost use Rattle.usages.specs.UsageView.{view_usage};
ghost use Rattle.usages.specs.Usages as is;

use crate::expressions::add_usages;
use crate::numbers::next_index;
use crate::usage::{How, Usage};
use pt_base::FnId;
use std::alloc::{AllocError, Global};
use typed_tree::{Role, Typed};

// what an outermost expression is used for; the item of a brace list has this number
fn how_of(role: Role, number: usize) -> How
    ensures { result ≡ is.how_of role number }
{
    match role {
        Role::Value => How::Kept,
        Role::Condition => How::Operated,
        Role::Init(var) => How::Begins(var, number),
        Role::Returned => How::Returned,
    }
}

// whether both initialise the same variable
fn is_next_item(before: Role, now: Role) -> bool
    ensures { result ≡ is.is_next_item before now }
{
    match (before, now) {
        (Role::Init(a), Role::Init(b)) => a.0 == b.0,
        _ => false,
    }
}

// the number of a part as an item of a brace list, by the number of the part before it
fn item_number(before: Role, number: usize, now: Role) -> Result<usize, AllocError>
    ensures { IfOk result (λ n. n ≡ is.item_number before number now) }
{
    if is_next_item(before, now) {
        next_index(number)
    } else {
        Ok(0)
    }
}

/// All expressions that the body of a function evaluates, in the order of evaluation, each with what
/// its value is used for; none of a host.
pub fn usages_in<'a>(alloc: Global, t: &'a Typed, f: FnId) -> Result<Vec<Usage<'a>>, AllocError>
    ensures { IfOk result (λ v. map view_usage v.items ≡ is.usages_in (view_typed t.now) f) }
{
    let mut all = Vec::new(alloc);
    let mut before = Role::Value;
    let mut number = 0;
    let parts = t.parts(alloc, f)?;
    let list = parts.as_slice();
    for part in list {
        number = item_number(before, number, part.role)?;
        add_usages(how_of(part.role, number), t.expr(part.expr), &mut all)?;
        before = part.role;
    }
    Ok(all)
}

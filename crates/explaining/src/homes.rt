// The functions in whose texts places stand.
ghost use Rattle.std.specs.Prelude.{◌≡◌, ◌++◌, ◌↔◌, None, IfOk, OnOk, is_some, map, suc};
ghost use Rattle.std.specs.List.{Contains};
ghost use Rattle.std.specs.List.Sorted.{IsNonDecreasingBy, IsStrictlySortedBy};
ghost use Rattle.typed_tree.specs.TypedView.{view_typed};
ghost use Rattle.typed_tree.specs.TypedTree.{view_function};
ghost use Rattle.explaining.specs.declared.homes.Home.{Home};
ghost use Rattle.explaining.specs.Homes as is;

use crate::holdings::push_function;
use pt_base::FnId;
use std::alloc::{AllocError, Global};
use typed_tree::{Typed, TypedFn};

/// A function with a body: where its name stands, and its number. Homes are ordered by both.
#[derive(Clone, Copy, PartialEq, Eq, PartialOrd, Ord)]
pub(crate) struct Home {
    pub at: u32,
    pub number: u32,
}

// adds a function, if it has a body
fn add_home(function: &TypedFn, number: u32, homes: &mut Vec<Home>) -> Result<(), AllocError>
    ensures { OnOk result (homes.new.items ≡ homes.old.items ++ is.home_if (is_some (view_function function.now).body) function.now.name.from number) }
{
    if function.body.is_some() {
        homes.push(Home {
            at: function.name.from,
            number,
        })?;
    }
    Ok(())
}

// the number behind one; want of memory where 32 bits don't hold it
fn next(number: u32) -> Result<u32, AllocError>
    ensures { IfOk result (λ n. n ≡ suc number) }
{
    match number.checked_add(1) {
        Some(next) => Ok(next),
        None => Err(AllocError),
    }
}

// those of these functions that have bodies, as they stand
fn homes_in(alloc: Global, functions: &[TypedFn]) -> Result<Vec<Home>, AllocError>
    ensures { IfOk result (λ v. v.items ≡ is.homes_from 0 (map view_function functions.now)) }
{
    let mut homes = Vec::new(alloc);
    let mut number: u32 = 0;
    for function in functions {
        add_home(function, number, &mut homes)?;
        number = next(number)?;
    }
    Ok(homes)
}

// puts them in order
fn arrange(homes: &mut Vec<Home>)
    ensures sorted { IsStrictlySortedBy is.home_cmp homes.new.items }
    ensures same { (x : Home) → Contains homes.new.items x ↔ Contains homes.old.items x }
{
    homes.sort_unstable();
    homes.dedup();
}

/// The functions that have bodies, by where their names stand.
pub(crate) fn homes_of(alloc: Global, t: &Typed) -> Result<Vec<Home>, AllocError>
    ensures { IfOk result (λ v. is.AreHomes (view_typed t.now) v.items) }
{
    let mut homes = homes_in(alloc, t.functions.as_slice())?;
    arrange(&mut homes);
    Ok(homes)
}

// how many of these names, which ascend, stand at the place or before it
fn begun(homes: &[Home], at: u32) -> usize
    requires { IsNonDecreasingBy (λ h. h.at) homes.now }
    ensures { is.last_begun homes.now at None ≡ is.item_before homes.now result }
{
    homes.partition_point(|home| home.at <= at)
}

// the last one of the first so many
fn item_before(homes: &[Home], count: usize) -> Option<Home>
    ensures { result ≡ is.item_before homes.now count }
{
    if count == 0 {
        return None;
    }
    homes.get(count - 1).copied()
}

/// Appends `in FUNCTION: ` of the function in whose text a place stands, where there is one.
pub(crate) fn push_place_home(
    t: &Typed,
    homes: &[Home],
    at: u32,
    text: &mut Vec<u8>,
) -> Result<(), AllocError>
    requires { IsNonDecreasingBy (λ h. h.at) homes.now }
    ensures { OnOk result (text.new.items ≡ text.old.items ++ is.place_home (view_typed t.now) homes.now at) }
{
    let count = begun(homes, at);
    let found = item_before(homes, count);
    match found {
        Some(home) => push_function(t, FnId(home.number), text),
        None => Ok(()),
    }
}

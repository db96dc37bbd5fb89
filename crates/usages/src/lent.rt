// The usages of all functions, made once.
ghost use Rattle.std.specs.Prelude.{◌≡◌, IfOk, map};
ghost use Rattle.typed_tree.specs.TypedView.{view_typed};
ghost use Rattle.usages.specs.Lent.{AreUsages};

use crate::bodies::usages_in;
use crate::numbers::next_number;
use crate::usage::Usage;
use pt_base::{FnId, Listed};
use std::alloc::{AllocError, Global};
use typed_tree::Typed;

/// What each function evaluates. It is made once, and lent to all that look at it.
#[derive(Drop)]
pub struct Usages<'a> {
    /// For each function, all that its body evaluates.
    bodies: Vec<Listed<Usage<'a>>>,
    /// No usage, lent where there is no function.
    none: Listed<Usage<'a>>,
}

impl<'a> Usages<'a> {
    ghost use Rattle.std.specs.Prelude.{◌≡◌, get_or, map};
    ghost use Rattle.typed_tree.specs.TypedView.{view_typed};
    ghost use Rattle.usages.specs.Lent.{AreUsages};
    ghost use Rattle.usages.specs.UsageView.{view_usage};
    ghost use Rattle.usages.specs.Usages.{usages_in};

    /// All that the body of the function of this number evaluates; nothing of a host, nor where there is no
    /// such function.
    pub fn of(&self, t: &Typed, f: FnId) -> &[Usage<'a>]
        requires { AreUsages (view_typed t.now) self.now }
        ensures { map view_usage result.now ≡ usages_in (view_typed t.now) f }
    {
        self.body_at(f.0)
    }

    // the list at this place, an empty one where there is no such place
    fn body_at(&self, place: u32) -> &[Usage<'a>]
        ensures { result.now ≡ get_or self.now.bodies.items place self.now.none }
    {
        match self.bodies.get(place as usize) {
            Some(body) => body.as_slice(),
            None => self.none.as_slice(),
        }
    }
}

/// The usages of all functions of a program. Time and memory are linear in what they evaluate.
pub fn usages_of<'a>(alloc: Global, t: &'a Typed) -> Result<Usages<'a>, AllocError>
    ensures { IfOk result (AreUsages (view_typed t.now)) }
{
    let mut bodies = Vec::new(alloc);
    let mut number: u32 = 0;
    for _function in &t.functions {
        let body = usages_in(alloc, t, FnId(number))?;
        bodies.push(Listed::new(body))?;
        number = next_number(number)?;
    }
    Ok(Usages {
        bodies,
        none: Listed::new(Vec::new(alloc)),
    })
}

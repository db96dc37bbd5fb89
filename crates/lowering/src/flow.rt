// How control goes on in loops and switches.
ghost use Rattle.std.specs.Prelude.{◌≡◌, [], OnOk};
ghost use Rattle.pt_core.specs.CodeTree.{view_expr};
ghost use Rattle.lowering.specs.Statements as is;
ghost use Rattle.lowering.specs.Onwards.{view_onward, set_where};
ghost use Rattle.lowering.specs.Output.{output_of, added};

use crate::output::{Lowering, temp};
use pt_base::{IntType, VarId};
use pt_core::{Expr, Stmt};
use std::alloc::{AllocError, Global};

/// What `continue` does: it stands in no loop; it goes on to the head of one; or in a switch it
/// leaves that, with a flag for what comes behind.
#[derive(Clone, Copy)]
pub enum Onward {
    Nowhere,
    ToHead,
    PastFlag(VarId),
}

impl Onward {
    /// The same in a switch with this flag.
    pub fn inside(self, flag: VarId) -> Onward
        ensures { view_onward result ≡ is.inside (view_onward self) flag.0 }
    {
        match self {
            Onward::Nowhere => Onward::Nowhere,
            Onward::ToHead => Onward::PastFlag(flag),
            Onward::PastFlag(_) => Onward::PastFlag(flag),
        }
    }
}

/// A number of type int.
pub fn number(n: usize) -> Expr
    ensures { view_expr result ≡ is.number n }
{
    Expr::Const {
        ty: IntType::Int,
        value: n as i128,
    }
}

/// A `continue`.
pub fn go_on(alloc: Global, mode: Onward, lowering: &mut Lowering) -> Result<(), AllocError>
    ensures { OnOk result (output_of lowering.new ≡ added (output_of lowering.old) (is.onwards (view_onward mode)) []) }
{
    match mode {
        Onward::Nowhere => Ok(()),
        Onward::ToHead => lowering.add(Stmt::Continue),
        Onward::PastFlag(flag) => {
            lowering.give(alloc, flag, number(1))?;
            lowering.add(Stmt::Break)
        }
    }
}

/// What comes behind a switch with this flag: where it is set, a `continue`.
pub fn go_on_behind(
    alloc: Global,
    mode: Onward,
    flag: VarId,
    lowering: &mut Lowering,
) -> Result<(), AllocError>
    ensures { OnOk result (output_of lowering.new ≡ added (output_of lowering.old) (is.behind_switch (view_onward mode) flag.0) []) }
{
    match mode {
        Onward::Nowhere => Ok(()),
        Onward::ToHead => go_on_where(alloc, mode, flag, lowering),
        Onward::PastFlag(_) => go_on_where(alloc, mode, flag, lowering),
    }
}

// a `continue` where the flag is set
fn go_on_where(
    alloc: Global,
    mode: Onward,
    flag: VarId,
    lowering: &mut Lowering,
) -> Result<(), AllocError>
    ensures { OnOk result (output_of lowering.new ≡ added (output_of lowering.old) (set_where flag.0 (view_onward mode)) []) }
{
    let outer = lowering.begin(alloc);
    go_on(alloc, mode, lowering)?;
    let stmts = lowering.end(outer);
    lowering.add(Stmt::choose(temp(alloc, flag), stmts, Vec::new(alloc)))
}

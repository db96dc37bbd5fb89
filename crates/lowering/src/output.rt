// What has been made so far of a function.
ghost use Rattle.std.specs.Prelude.{◌≡◌, [], ◌∷◌, map, IfOk, OnOk};
ghost use Rattle.pt_core.specs.CodeTree.{view_expr, view_place, view_stmt};
ghost use Rattle.lowering.specs.Lowered as lowered;
ghost use Rattle.lowering.specs.Lowered.{Temp, Lowered, hold, temp_place};
ghost use Rattle.lowering.specs.Output.{Output, output_of, next, added, opened, closed, temporary_of, Gives};

use crate::temporary::Temporary;
use pt_base::VarId;
use pt_core::{Expr, Place, Root, Stmt};
use std::alloc::{AllocError, Global};
use std::mem;

/// The statements of the list that is being made, and all temporaries so far, of which the first
/// has the number `first`.
#[derive(Drop)]
pub struct Lowering {
    pub first: u32,
    pub stmts: Vec<Stmt>,
    pub temps: Vec<Temporary>,
}

#[tactic(auto, unfolding(crate::specs::Output::output_of))]
impl Lowering {
    /// Nothing yet: the first temporary is to have the number `first`.
    pub fn starting(alloc: Global, first: u32) -> Lowering
        ensures { output_of result ≡ record { first = first; stmts = []; temps = [] } }
    {
        Lowering {
            first,
            stmts: Vec::new(alloc),
            temps: Vec::new(alloc),
        }
    }

    /// The number of the next temporary. More than 2^32 variables don't fit into memory.
    pub fn next(&self) -> Result<VarId, AllocError>
        ensures { IfOk result (λ k. k.0 ≡ next (output_of self.now)) }
    {
        let count = self.temps.len();
        if count > u32::MAX as usize {
            return Err(AllocError);
        }
        match self.first.checked_add(count as u32) {
            Some(number) => Ok(VarId(number)),
            None => Err(AllocError),
        }
    }

    /// A statement at the end.
    pub fn add(&mut self, stmt: Stmt) -> Result<(), AllocError>
        ensures { OnOk result (output_of self.new ≡ added (output_of self.old) (view_stmt stmt ∷ []) []) }
    {
        self.stmts.push(stmt)?;
        Ok(())
    }

    /// One more temporary: its number.
    pub fn claim(&mut self, temporary: Temporary) -> Result<VarId, AllocError>
        ensures number { IfOk result (λ k. k.0 ≡ next (output_of self.old)) }
        ensures output { OnOk result (output_of self.new ≡ added (output_of self.old) [] (temporary ∷ [])) }
    {
        let number = self.next()?;
        self.temps.push(temporary)?;
        Ok(number)
    }

    /// A variable is given a value.
    pub fn give(&mut self, alloc: Global, k: VarId, value: Expr) -> Result<(), AllocError>
        ensures { OnOk result (output_of self.new ≡ added (output_of self.old) (hold k.0 (view_expr value) ∷ []) []) }
    {
        self.add(Stmt::Assign {
            place: local(alloc, k),
            value,
        })
    }

    /// One more temporary, which is given this value: its number.
    pub fn hold(
        &mut self,
        alloc: Global,
        temporary: Temporary,
        value: Expr,
    ) -> Result<VarId, AllocError>
        ensures number { IfOk result (λ k. k.0 ≡ next (output_of self.old)) }
        ensures output { OnOk result (output_of self.new ≡ added (output_of self.old) (hold (next (output_of self.old)) (view_expr value) ∷ []) (temporary ∷ [])) }
    {
        let number = self.claim(temporary)?;
        self.give(alloc, number, value)?;
        Ok(number)
    }

    /// Begins a list of statements of its own, and gives those that were made.
    pub fn begin(&mut self, alloc: Global) -> Vec<Stmt>
        ensures outer { map view_stmt result.items ≡ (output_of self.old).stmts }
        ensures output { output_of self.new ≡ opened (output_of self.old) }
    {
        mem::replace(&mut self.stmts, Vec::new(alloc))
    }

    /// Ends it: gives its statements, and goes on behind these.
    pub fn end(&mut self, outer: Vec<Stmt>) -> Vec<Stmt>
        ensures inner { map view_stmt result.items ≡ (output_of self.old).stmts }
        ensures output { output_of self.new ≡ closed (output_of self.old) (map view_stmt outer.items) }
    {
        mem::replace(&mut self.stmts, outer)
    }
}

/// A value, held in the next temporary where `is_held` holds.
pub fn held_if(
    alloc: Global,
    is_held: bool,
    temporary: Temporary,
    value: Expr,
    lowering: &mut Lowering,
) -> Result<Expr, AllocError>
    ensures { (o : Output) (x : Temp) (low : Lowered) → Gives o low (output_of lowering.old) (view_expr value) → temporary_of x ≡ temporary → IfOk result (λ v. Gives o (lowered.held_if is_held (next o) x low) (output_of lowering.new) (view_expr v)) }
{
    if is_held {
        let k = lowering.hold(alloc, temporary, value)?;
        Ok(temp(alloc, k))
    } else {
        Ok(value)
    }
}

/// A variable as a place.
pub fn local(alloc: Global, k: VarId) -> Place
    ensures { view_place result ≡ temp_place k.0 }
{
    Place {
        root: Root::Local(k),
        path: Vec::new(alloc),
    }
}

/// The value of a variable.
pub fn temp(alloc: Global, k: VarId) -> Expr
    ensures { view_expr result ≡ lowered.temp k.0 }
{
    Expr::read(local(alloc, k))
}

// Copies of programs, and a monitor's program as its machine takes it.
ghost use Rattle.std.specs.Prelude.{◌≡◌, IfOk, map};
ghost use Rattle.pt_core.specs.CodeTree.{view_function, view_global, view_monitor, view_program, view_slave};
ghost use Rattle.pt_core.specs.WellFormed.{monitor_program};

use crate::function::CoreFn;
use crate::global::GlobalVar;
use crate::monitor::{Entry, MonitorProgram};
use crate::program::{CoreProgram, Signatures};
use crate::slave::SlaveProgram;
use pt_base::{FnId, Listed};
use pt_tree::Signature;
use std::alloc::{AllocError, Global};
use typed_tree::StructInfo;

// structs that are equal to these
fn copied_structs(alloc: Global, structs: &[StructInfo]) -> Result<Listed<StructInfo>, AllocError>
    ensures { IfOk result (λ l. l ≡ structs.now) }
{
    let mut copies = Vec::with_capacity(alloc, structs.len())?;
    for info in structs {
        copies.push(info.copy(alloc)?)?;
    }
    Ok(Listed::new(copies))
}

// signatures that are equal to these, of the same functions
fn copied_signatures(
    alloc: Global,
    signatures: &[(FnId, Signature)],
) -> Result<Signatures, AllocError>
    ensures { IfOk result (λ l. l ≡ signatures.now) }
{
    let mut copies = Vec::with_capacity(alloc, signatures.len())?;
    for entry in signatures {
        copies.push((entry.0, entry.1.copy(alloc)?))?;
    }
    Ok(Listed::new(copies))
}

// functions that are equal to these
fn copied_functions(alloc: Global, functions: &[CoreFn]) -> Result<Vec<CoreFn>, AllocError>
    ensures { IfOk result (λ v. map view_function v.items ≡ map view_function functions.now) }
{
    let mut copies = Vec::with_capacity(alloc, functions.len())?;
    for function in functions {
        copies.push(function.copy(alloc)?)?;
    }
    Ok(copies)
}

// globals that are equal to these
fn copied_globals(alloc: Global, globals: &[GlobalVar]) -> Result<Listed<GlobalVar>, AllocError>
    ensures { IfOk result (λ l. map view_global l ≡ map view_global globals.now) }
{
    let mut copies = Vec::with_capacity(alloc, globals.len())?;
    for global in globals {
        copies.push(global.copy(alloc)?)?;
    }
    Ok(Listed::new(copies))
}

// what may be asked for, equal to this
fn copied_entries(alloc: Global, entries: &[Entry]) -> Result<Listed<Entry>, AllocError>
    ensures { IfOk result (λ l. l ≡ entries.now) }
{
    let mut copies = Vec::with_capacity(alloc, entries.len())?;
    for entry in entries {
        copies.push(entry.copy(alloc)?)?;
    }
    Ok(Listed::new(copies))
}

impl GlobalVar {
    /// A global that is equal to this one.
    pub fn copy(&self, alloc: Global) -> Result<GlobalVar, AllocError>
        ensures { IfOk result (λ g. view_global g ≡ view_global self.now) }
    {
        Ok(GlobalVar {
            id: self.id,
            var: self.var.copy(alloc)?,
            cells: self.cells.copy(alloc)?,
        })
    }
}

impl Entry {
    /// An entry that is equal to this one.
    pub fn copy(&self, alloc: Global) -> Result<Entry, AllocError>
        ensures { IfOk result (λ e. e ≡ self.now) }
    {
        Ok(Entry {
            function: self.function,
            shared: self.shared.copy(alloc)?,
        })
    }
}

impl SlaveProgram {
    /// A program that is equal to this one.
    pub fn copy(&self, alloc: Global) -> Result<SlaveProgram, AllocError>
        ensures { IfOk result (λ p. view_slave p ≡ view_slave self.now) }
    {
        Ok(SlaveProgram {
            structs: copied_structs(alloc, self.structs.as_slice())?,
            signatures: copied_signatures(alloc, self.signatures.as_slice())?,
            functions: copied_functions(alloc, &self.functions)?,
            globals: copied_globals(alloc, self.globals.as_slice())?,
            hosts: self.hosts.copy(alloc)?,
        })
    }
}

impl MonitorProgram {
    /// A program that is equal to this one.
    pub fn copy(&self, alloc: Global) -> Result<MonitorProgram, AllocError>
        ensures { IfOk result (λ p. view_monitor p ≡ view_monitor self.now) }
    {
        Ok(MonitorProgram {
            structs: copied_structs(alloc, self.structs.as_slice())?,
            signatures: copied_signatures(alloc, self.signatures.as_slice())?,
            functions: copied_functions(alloc, &self.functions)?,
            globals: copied_globals(alloc, self.globals.as_slice())?,
            entries: copied_entries(alloc, self.entries.as_slice())?,
        })
    }

    /// The program without what may be asked for.
    pub fn code(&self, alloc: Global) -> Result<CoreProgram, AllocError>
        ensures { IfOk result (λ c. view_program c ≡ monitor_program (view_monitor self.now)) }
    {
        Ok(CoreProgram {
            structs: copied_structs(alloc, self.structs.as_slice())?,
            signatures: copied_signatures(alloc, self.signatures.as_slice())?,
            functions: copied_functions(alloc, &self.functions)?,
            globals: copied_globals(alloc, self.globals.as_slice())?,
        })
    }
}

// The reading of host tables.
ghost use Rattle.std.specs.Prelude.{◌≡◌, ◌≤◌, ◌^◌, ◌||◌, ◌++◌, [], length, IfOk, OnOk, Some, option_to_list};
ghost use Rattle.serde_json.specs.View.{view};
ghost use Rattle.host_table.specs.Entries.{entry_of};
ghost use Rattle.host_table.specs.Found.{numbered, models_from, signatures_in};
ghost use Rattle.typed_tree.specs.TypedTree.{signatures_of};
ghost use Rattle.typed_tree.specs.TypedView.{view_typed};
ghost use Rattle.host_table.specs.Hosts.{hosts_of};
ghost use Rattle.host_table.specs.Whole.{HasHosts};
ghost use Rattle.host_table.specs.HostFaults.{is_input, reads_input, entry_fault, faults_after, faults_by, table_hosts, IsAnswer, IsReading, IsOneFault};

use crate::TABLE_LIMIT;
use crate::entry::{Entry, entry_of};
use crate::fault::{HostError, HostFault};
use crate::host::Host;
use host_models::{has_numbers_in_range, has_right_params};
use pt_base::{FnId, Listed};
use pt_tree::{HostModel, Signature};
use serde_json::Value;
use std::alloc::{AllocError, Global};
use typed_tree::{Typed, TypedFn};

/// What was found of the hosts so far.
#[derive(Drop)]
pub(crate) struct Found {
    faults: Vec<HostFault>,
    models: Vec<(u32, HostModel)>,
    // One of them reads the input.
    has_input: bool,
}

impl Found {
    // Reads a host's entry.
    fn add(
        &mut self,
        alloc: Global,
        table: &Value,
        f: FnId,
        s: &Signature,
    ) -> Result<(), AllocError>
        ensures faults { OnOk result (self.new.faults.items ≡
            self.old.faults.items ++ option_to_list (entry_fault self.old.has_input f s.now (entry_of (view table.now) s.now))) }
        ensures models { OnOk result (self.new.models.items ≡ self.old.models.items ++ numbered f.0 (entry_of (view table.now) s.now)) }
        ensures has_input { OnOk result (self.new.has_input ≡ self.old.has_input || reads_input (entry_of (view table.now) s.now)) }
    {
        let entry = entry_of(alloc, table, s)?;
        if let Some(fault) = entry_fault(self.has_input, f, s, &entry) {
            self.faults.push(fault)?;
        }
        self.has_input = self.has_input || reads_input(&entry);
        match entry {
            Entry::Shaped(model) => self.models.push((f.0, model))?,
            Entry::Missing | Entry::Misshaped => {}
        }
        Ok(())
    }
}

/// Whether the model is fed from the input.
pub fn is_input(model: &HostModel) -> bool
    ensures { result ≡ is_input model.now }
{
    match model {
        HostModel::Input { .. } => true,
        HostModel::Table { .. }
        | HostModel::Feed { .. }
        | HostModel::Bytes
        | HostModel::Line { .. } => false,
    }
}

// Whether the entry is of kind input.
fn reads_input(entry: &Entry) -> bool
    ensures { result ≡ reads_input entry.now }
{
    match entry {
        Entry::Shaped(model) => is_input(model),
        Entry::Missing | Entry::Misshaped => false,
    }
}

// The first fault of a host's entry. `taken` says that an earlier host reads the input.
fn entry_fault(taken: bool, f: FnId, s: &Signature, entry: &Entry) -> Option<HostFault>
    ensures { result ≡ entry_fault taken f s.now entry.now }
{
    match entry {
        Entry::Missing => Some(HostFault::Missing(f)),
        Entry::Misshaped => Some(HostFault::Shape(Some(f))),
        Entry::Shaped(model) => {
            if !has_right_params(s, model) {
                Some(HostFault::WrongParams(f))
            } else if !has_numbers_in_range(s, model) {
                Some(HostFault::Range(f))
            } else if taken && is_input(model) {
                Some(HostFault::TwoInputs(f))
            } else {
                None
            }
        }
    }
}

// What the table has for the hosts among the functions.
fn found_of(alloc: Global, table: &Value, fns: &[TypedFn]) -> Result<Found, AllocError>
    requires { length fns.now ≤ 2 ^ 32 }
    ensures faults { IfOk result (λ found. found.faults.items ≡ faults_after (view table.now) [] (signatures_in fns.now)) }
    ensures models { IfOk result (λ found. found.models.items ≡ models_from (view table.now) 0 (signatures_in fns.now)) }
{
    let mut found = Found {
        faults: Vec::new(alloc),
        models: Vec::new(alloc),
        has_input: false,
    };
    for (number, f) in fns.iter().enumerate() {
        if f.signature.host {
            found.add(alloc, table, FnId(number as u32), &f.signature)?;
        }
    }
    Ok(found)
}

// A fault that stands alone.
fn alone(alloc: Global, fault: HostFault) -> HostError
    ensures { IsOneFault fault result }
{
    let mut faults = Vec::new(alloc);
    match faults.push(fault) {
        Ok(()) => HostError::Faults(Listed::new(faults)),
        Err(_) => HostError::Memory,
    }
}

/// The hosts of a table for a program: for each host that the program declares, called or not, the
/// model that the member of its name says, and no input. Members for other names are passed over,
/// and of two with one name the last counts.
///
/// Where there are faults, they are answered in place of hosts: TooLong, NotJson and a Shape of the
/// whole stand alone; else each declared host gives its first fault, in the order of their
/// numbers. Memory is answered only where memory was wanting.
pub fn read_host(alloc: Global, text: &[u8], t: &Typed) -> Result<Host, HostError>
    ensures reading { IsReading text.now (signatures_of (view_typed t.now)) result }
    ensures hosts { IfOk result (λ h. HasHosts (hosts_of h) (signatures_of (view_typed t.now))) }
{
    host_of(alloc, text, t.functions.as_slice())
}

// The hosts of a table for these functions.
pub(crate) fn host_of(alloc: Global, text: &[u8], fns: &[TypedFn]) -> Result<Host, HostError>
    requires { length fns.now ≤ 2 ^ 32 }
    ensures { IsReading text.now (signatures_in fns.now) result }
{
    if text.len() > TABLE_LIMIT {
        return Err(alone(alloc, HostFault::TooLong));
    }
    match Value::from_slice(alloc, text) {
        Ok(table) => host_by(alloc, &table, fns),
        Err(e) if e.is_memory() => Err(HostError::Memory),
        Err(_) => Err(alone(alloc, HostFault::NotJson)),
    }
}

// The hosts of a table that was read.
fn host_by(alloc: Global, table: &Value, fns: &[TypedFn]) -> Result<Host, HostError>
    requires { length fns.now ≤ 2 ^ 32 }
    ensures { IsAnswer (faults_by (Some (view table.now)) (signatures_in fns.now)) (Some (table_hosts (view table.now) (signatures_in fns.now))) result }
{
    if !table.is_object() {
        return Err(alone(alloc, HostFault::Shape(None)));
    }
    let found = found_of(alloc, table, fns)?;
    if !found.faults.as_slice().is_empty() {
        return Err(HostError::Faults(Listed::new(found.faults)));
    }
    Ok(Host::from_models(alloc, found.models))
}

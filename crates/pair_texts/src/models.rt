// What stands for the hosts of a slave.
ghost use Rattle.std.specs.Prelude.{◌≡◌, IfOk, map};
ghost use Rattle.std.specs.List.{list_any};
ghost use Rattle.host_table.specs.Hosts.{hosts_of};
ghost use Rattle.host_table.specs.RunHosts.{models_of};
ghost use Rattle.pt_core.specs.CodeTree.{numbered};
ghost use Rattle.pair_meaning.specs.Start.{input_for, models_for, reads_input};

use host_table::{Host, is_input};
use pt_base::{Bytes, FnId, Listed};
use pt_tree::{HostModel, Rows};
use std::alloc::{AllocError, Global};

/// What stands for each of these hosts.
pub(crate) fn models_for(
    alloc: Global,
    hosts: &Host,
    of: &[FnId],
) -> Result<Listed<(FnId, HostModel)>, AllocError>
    ensures { IfOk result (λ models. numbered models ≡ models_for (models_of (hosts_of hosts.now).models) (map (λ f. f.0) of.now)) }
{
    let mut models = Vec::with_capacity(alloc, of.len())?;
    for f in of {
        models.push((*f, model_of(alloc, hosts, *f)?))?;
    }
    Ok(Listed::new(models))
}

// What stands for a host: it answers 0 where the table has none.
fn model_of(alloc: Global, hosts: &Host, f: FnId) -> Result<HostModel, AllocError>
    ensures { IfOk result (λ model. model ≡ models_of (hosts_of hosts.now).models f.0) }
{
    match hosts.model(f) {
        Some(model) => model.copy(alloc),
        None => Ok(HostModel::Table {
            rows: Rows::new(alloc, Vec::new(alloc))?,
            other: 0,
        }),
    }
}

/// The input, where one of the models reads it, else nothing.
pub(crate) fn input_for(
    alloc: Global,
    models: &[(FnId, HostModel)],
    input: &[u8],
) -> Result<Bytes, AllocError>
    ensures { IfOk result (λ bytes. bytes ≡ input_for (numbered models.now) input.now) }
{
    if one_reads_input(models) {
        Ok(Bytes::new(Vec::from_slice(alloc, input)?))
    } else {
        Ok(Bytes::new(Vec::new(alloc)))
    }
}

// Whether one of the models reads the input.
fn one_reads_input(models: &[(FnId, HostModel)]) -> bool
    ensures { result ≡ list_any (λ entry. reads_input entry.1) models.now }
{
    models.iter().any(|entry| is_input(&entry.1))
}

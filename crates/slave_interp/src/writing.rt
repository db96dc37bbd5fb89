// What hosts of a slave answer and write.
ghost use Rattle.std.specs.Prelude.{◌≡◌, ℕ, ℤ, IfOk, List, None, OnOk, Some, if◌then◌else◌, is_some};
ghost use Rattle.pt_tree.specs.HostStep.{host_step};
ghost use Rattle.host_table.specs.Hosts.{hosts_of};
ghost use Rattle.host_table.specs.RunHosts.{answer_in, AreAfter, models_of};
ghost use Rattle.slave_interp.specs.Hearings.{hearing_answer, hearing_by};

use crate::signed::Signed;
use host_table::Host;
use pt_base::{Bytes, FnId};
use pt_tree::HostModel;
use std::alloc::{AllocError, Global};

/// A host answers, and what it writes in the call is kept, if it writes. A number that nothing has answers 0 and writes
/// nothing; no call of a well-formed program goes to one.
pub(crate) fn answered(
    alloc: Global,
    hosts: &mut Host,
    signed: &Signed,
    wrote: &mut Option<Bytes>,
    f: FnId,
    args: &[i128],
) -> Result<Option<i128>, AllocError>
    ensures { IfOk result (λ answer. hearing_answer f.0 args.now (hearing_by hosts.old signed.now.signatures wrote.old) ≡ (answer, hearing_by hosts.new signed.now.signatures wrote.new)) }
{
    match signed.signature(f) {
        Some(_) => {
            let Heard { result, wrote: now } = called(alloc, hosts, f, args)?;
            *wrote = now;
            Ok(result)
        }
        None => {
            *wrote = None;
            Ok(Some(0))
        }
    }
}

// What a host answered, and what it wrote, if it writes.
#[derive(Drop)]
struct Heard {
    result: Option<i128>,
    wrote: Option<Bytes>,
}

// Makes the call of a host.
fn called(alloc: Global, hosts: &mut Host, f: FnId, args: &[i128]) -> Result<Heard, AllocError>
    ensures result { IfOk result (λ h. h.result ≡ (answer_in (hosts_of hosts.old) f.0 args.now).result) }
    ensures wrote { IfOk result (λ h. h.wrote ≡ (answer_in (hosts_of hosts.old) f.0 args.now).written) }
    ensures hosts { OnOk result (AreAfter (hosts_of hosts.old) f.0 (answer_in (hosts_of hosts.old) f.0 args.now).next (hosts_of hosts.new)) }
{
    let is_writer = writes(hosts, f);
    let mut out = Vec::new(alloc);
    let result = hosts.answer(f, args, &mut out)?;
    Ok(Heard {
        result,
        wrote: written(is_writer, out),
    })
}

// What was written, by a host that writes.
fn written(is_writer: bool, out: Vec<u8>) -> Option<Bytes>
    ensures { result ≡ (if is_writer then Some out.items else None) }
{
    if is_writer {
        Some(Bytes::new(out))
    } else {
        None
    }
}

// Whether the host writes, maybe no byte.
fn writes(hosts: &Host, f: FnId) -> bool
    ensures { (input : List ℕ) (numbers : List ℤ) → result ≡ is_some (host_step input (models_of (hosts_of hosts.now).models f.0) numbers).written }
{
    match hosts.model(f) {
        Some(model) => may_write(model),
        None => false,
    }
}

fn may_write(model: &HostModel) -> bool
    ensures { (input : List ℕ) (numbers : List ℤ) → result ≡ is_some (host_step input model.now numbers).written }
{
    match model {
        HostModel::Bytes | HostModel::Line { .. } => true,
        HostModel::Table { .. } | HostModel::Feed { .. } | HostModel::Input { .. } => false,
    }
}

// Which lists of hosts are well formed.
ghost use Rattle.std.specs.Prelude.{◌≡◌};
ghost use Rattle.std.specs.List.{list_all};
ghost use Rattle.host_models.specs.Fitting as fitting;
ghost use Rattle.pt_core.specs.CodeTree.{numbered, view_boot};
ghost use Rattle.pt_core.specs.WellFormed as well;

use crate::candidate::Candidate;
use crate::code::signature_at;
use host_models::fits;
use pt_base::FnId;
use pt_tree::HostModel;

/// Whether each number is that of a host whose model fits its signature.
pub(crate) fn hosts_fit(candidate: &Candidate<'_>, hosts: &[(FnId, HostModel)]) -> bool
    ensures { result ≡ list_all (well.host_fits fitting.fits (well.boot_program (view_boot candidate.now.boot.now))) (numbered hosts.now) }
{
    for host in hosts {
        if !host_fits(candidate, host.0, &host.1) {
            return false;
        }
    }
    true
}

fn host_fits(candidate: &Candidate<'_>, f: FnId, model: &HostModel) -> bool
    ensures { result ≡ well.host_by fitting.fits model.now (well.signature_at (well.boot_program (view_boot candidate.now.boot.now)) f.0) }
{
    match signature_at(candidate, f) {
        Some(signature) => signature.host && fits(model, signature),
        None => false,
    }
}

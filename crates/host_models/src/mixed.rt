// Which hosts are mixed.
ghost use Rattle.std.specs.Prelude.{◌≡◌};
ghost use Rattle.std.specs.List.{list_any};
ghost use Rattle.host_models.specs.Mixed.{is_mixed};

use pt_tree::{Param, Signature};

/// Whether the host isn't privileged and has a marked parameter.
pub fn is_mixed(s: &Signature) -> bool
    ensures { result ≡ is_mixed s.now }
{
    !s.privileged && any_marked(s.params.as_slice())
}

fn any_marked(params: &[Param]) -> bool
    ensures { result ≡ list_any (λ p. p.marked) params.now }
{
    params.iter().any(|p| p.marked)
}

// Which conversions give a value as it was.
ghost use Rattle.std.specs.Prelude.{◌≡◌};
ghost use Rattle.usages.specs.Usages as is;

use pt_base::same_int;
use typed_tree::VarTy;

/// Whether a conversion from one type to the other gives the value as it was.
pub fn keeps_value(from: Option<VarTy>, to: Option<VarTy>) -> bool
    ensures { result ≡ is.keeps_value from to }
{
    match (from, to) {
        (Some(VarTy::Int(a)), Some(VarTy::Int(b))) => same_int(a, b),
        (_, Some(VarTy::Pointer { .. })) => true,
        (_, _) => false,
    }
}

// Temporaries.
use pt_base::Span;
use typed_tree::VarTy;

/// A temporary: its type, and the span of the expression that it holds, if it holds one's value.
#[derive(Clone, Copy)]
pub struct Temporary {
    pub ty: VarTy,
    pub holds: Option<Span>,
}

impl Temporary {
    ghost use Rattle.std.specs.Prelude.{◌≡◌, None, Some};

    /// One of this type, which holds the value of the expression at `span`.
    pub fn holding(ty: VarTy, span: Span) -> Temporary
        ensures { result ≡ record { ty = ty; holds = Some span } }
    {
        Temporary {
            ty,
            holds: Some(span),
        }
    }

    /// One of this type, which holds no expression's value.
    pub fn counting(ty: VarTy) -> Temporary
        ensures { result ≡ record { ty = ty; holds = None } }
    {
        Temporary { ty, holds: None }
    }
}

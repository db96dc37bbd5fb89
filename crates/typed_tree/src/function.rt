// Functions.
use crate::statement::TypedBody;
use crate::variable::Vars;
use pt_base::Span;
use pt_tree::Signature;

/// A function or host.
pub struct TypedFn {
    pub signature: Signature,
    /// Where its name stands: in its definition, and of a host in its first declaration.
    pub name: Span,
    /// Its variables, the parameters first.
    pub vars: Vars,
    /// None of a host.
    pub body: Option<TypedBody>,
}

impl Drop for TypedFn {
    fn drop(self) {
        let TypedFn {
            signature: _signature,
            name: _,
            vars: _vars,
            body: _body,
        } = self;
    }
}

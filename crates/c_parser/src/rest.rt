// What follows the specifiers outside of functions.
ghost use Rattle.std.specs.Prelude.{◌≡◌};
ghost use Rattle.pt_tree.specs.SpecifierTree.{view_specs};
ghost use Rattle.pt_tree.specs.ProgramTree.{view_item};
ghost use Rattle.c_parser.specs.Rests.{item_of};

use pt_base::Span;
use pt_tree::{Block, Declaration, Declarator, Function, InitDeclarator, Item, ParamDecl, Spec};

/// The objects of a declaration, or a function with its parameters and its body.
#[derive(Drop)]
pub(crate) enum Rest {
    Declares(Vec<InitDeclarator>),
    Defines(Declarator, Vec<ParamDecl>, Option<Block>),
}

impl Rest {
    /// The declaration or function with these specifiers.
    pub(crate) fn into_item(self, span: Span, specs: Vec<Spec>) -> Item
        ensures { view_item result ≡ item_of self span (view_specs specs.items) }
    {
        match self {
            Rest::Declares(declarators) => Item::Declare(Declaration {
                span,
                specs,
                declarators,
            }),
            Rest::Defines(declarator, params, body) => Item::Function(Function {
                span,
                specs,
                declarator,
                params,
                body,
            }),
        }
    }
}

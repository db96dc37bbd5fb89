// What a half declares outside of functions.
ghost use Rattle.std.specs.Prelude.{◌≡◌, ◌++◌, IfOk, map, if◌then◌else◌, take};
ghost use Rattle.pt_tree.specs.SpecifierTree.{view_spec};
ghost use Rattle.pt_tree.specs.ProgramTree.{view_item};
ghost use Rattle.pt_core.specs.CodeTree.{view_global};
ghost use Rattle.pt_core.specs.WellFormed as well;
ghost use Rattle.half_trees.specs.Declarations as declared;
ghost use Rattle.half_trees.specs.Halves as halves;
ghost use Rattle.half_trees.specs.Views.{view_half};

use crate::declarations::{field_trees, fields_of, object};
use crate::half::Half;
use crate::initials::initial;
use crate::names::{NOWHERE, global_name, signature_name, struct_name, word};
use crate::parameters::{declared_params, parameters_or_void};
use crate::specifiers::{Marks, mark_specs, push_result};
use pt_base::FnId;
use pt_core::GlobalVar;
use pt_tree::{Declaration, Declarator, Function, Item, Param, Signature, Spec, Suffix};
use std::alloc::{AllocError, Global};
use typed_tree::StructInfo;

/// What stands before the name of a function: its marks and its result.
pub(crate) fn function_specs(alloc: Global, signature: &Signature) -> Result<Vec<Spec>, AllocError>
    ensures { IfOk result (λ v. map view_spec v.items ≡ declared.function_specs signature.now) }
{
    let marks = Marks {
        private: signature.privileged,
        unpriv: false,
        declassify: signature.declassify,
    };
    let mut specs = mark_specs(alloc, marks)?;
    push_result(signature.result, &mut specs)?;
    Ok(specs)
}

/// A function's name as it is declared.
pub(crate) fn function_declarator(name: Vec<u8>) -> Declarator
    ensures { result ≡ declared.function_declarator name.items }
{
    Declarator {
        span: NOWHERE,
        pointer: false,
        name: word(name),
        suffix: Suffix::Plain,
    }
}

// A prototype with these parameters of its signature.
fn prototype(
    alloc: Global,
    structs: &[StructInfo],
    f: FnId,
    signature: &Signature,
    params: &[Param],
) -> Result<Item, AllocError>
    ensures { IfOk result (λ i. view_item i ≡ declared.prototype_item structs.now f.0 (record signature.now { params = params.now })) }
{
    let specs = function_specs(alloc, signature)?;
    let name = signature_name(alloc, f.0 as usize, signature)?;
    let params = declared_params(alloc, structs, params)?;
    Ok(Item::Function(Function {
        span: NOWHERE,
        specs,
        declarator: function_declarator(name),
        params: parameters_or_void(alloc, params)?,
        body: None,
    }))
}

impl<'a> Half<'a> {
    /// The struct of this number, with its fields.
    pub fn struct_item(&self, alloc: Global, n: usize) -> Result<Item, AllocError>
        ensures { IfOk result (λ i. view_item i ≡ declared.struct_item (view_half self.now).structs n) }
    {
        let tag = word(struct_name(alloc, self.structs, n)?);
        let fields = field_trees(alloc, self.structs, fields_of(self.structs, n))?;
        let mut specs = Vec::new(alloc);
        specs.push(Spec::structure(NOWHERE, tag, fields))?;
        Ok(Item::Declare(Declaration {
            span: NOWHERE,
            specs,
            declarators: Vec::new(alloc),
        }))
    }

    /// The prototype of a function or host that is called with this.
    pub fn prototype_item(
        &self,
        alloc: Global,
        f: FnId,
        signature: &Signature,
    ) -> Result<Item, AllocError>
        ensures { IfOk result (λ i. view_item i ≡ halves.prototype_of self.now.monitor (view_half self.now) (f.0, signature.now)) }
    {
        let all = signature.params.as_slice();
        let params = match self.function(f.0) {
            Some(function) => own_params(self.monitor && !signature.host, function.params, all),
            None => all,
        };
        prototype(alloc, self.structs, f, signature, params)
    }

    /// A global with what it starts with.
    pub fn global_item(&self, alloc: Global, global: &GlobalVar) -> Result<Item, AllocError>
        ensures { IfOk result (λ i. view_item i ≡ declared.global_item (view_half self.now).structs (view_global global.now)) }
    {
        let var = &global.var;
        let marks = Marks {
            private: var.marked,
            unpriv: var.unpriv,
            declassify: false,
        };
        let name = global_name(alloc, global.id.0 as usize)?;
        let init = initial(alloc, var.ty, global.cells.as_slice())?;
        Ok(Item::Declare(object(alloc, self.structs, marks, var.ty, name, init)?))
    }
}

// The first parameters, or all of them.
fn own_params(first: bool, count: u8, params: &[Param]) -> &[Param]
    ensures { result.now ≡ (if first then take count params.now else params.now) }
{
    let count = count as usize;
    if first && count < params.len() {
        &params[..count]
    } else {
        params
    }
}

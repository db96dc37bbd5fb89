// Reading types, structs, variables and signatures.
ghost use Rattle.pt_tree.specs.declared.signature.Param.{Param};
ghost use Rattle.pt_tree.specs.declared.signature.Signature.{Signature};
ghost use Rattle.typed_tree.specs.declared.types.Field.{Field};
ghost use Rattle.typed_tree.specs.declared.types.StructInfo.{StructInfo};
ghost use Rattle.typed_tree.specs.declared.variable.Var.{Var};
ghost use Rattle.boot_fields.specs.Reading.{Gives, option_at, int_type_at, span_at, elem_at, type_at, field_at, struct_at, variable_at, param_kind_at, param_at, signature_at};

use crate::lists::{Part, list};
use boot_fields::{ReadError, int_type, number_u32, span, text, truth};
use pt_base::{IntType, Listed, Span};
use pt_tree::{Elem, Param, ParamKind, Signature};
use std::alloc::Global;
use typed_tree::{Field, StructInfo, Var, VarTy};

#[tactic(auto, unfolding(boot_fields::specs::Reading::elem_at))]
pub(crate) fn elem(bytes: &[u8]) -> Result<(Elem, &[u8]), ReadError>
    ensures { Gives (λ x. (x.0, x.1.now)) result (elem_at bytes.now) }
{
    match bytes {
        [] => Err(ReadError::Bad),
        [0, rest @ ..] => {
            let (ty, rest) = int_type(rest)?;
            Ok((Elem::Int(ty), rest))
        }
        [1, rest @ ..] => {
            let (number, rest) = number_u32(rest)?;
            Ok((Elem::Struct(number), rest))
        }
        [_, ..] => Err(ReadError::Bad),
    }
}

#[tactic(auto, unfolding(boot_fields::specs::Reading::type_at))]
fn object_type(bytes: &[u8]) -> Result<(VarTy, &[u8]), ReadError>
    ensures { Gives (λ x. (x.0, x.1.now)) result (type_at bytes.now) }
{
    match bytes {
        [] => Err(ReadError::Bad),
        [0, rest @ ..] => {
            let (ty, rest) = int_type(rest)?;
            Ok((VarTy::Int(ty), rest))
        }
        [1, rest @ ..] => {
            let (number, rest) = number_u32(rest)?;
            Ok((VarTy::Struct(number), rest))
        }
        [2, rest @ ..] => {
            let (elem, rest) = elem(rest)?;
            let (count, rest) = number_u32(rest)?;
            Ok((VarTy::Array { elem, count }, rest))
        }
        [3, rest @ ..] => {
            let (elem, rest) = elem(rest)?;
            let (fixed, rest) = truth(rest)?;
            Ok((VarTy::Pointer { elem, fixed }, rest))
        }
        [_, ..] => Err(ReadError::Bad),
    }
}

impl Part for Field {
    ghost Seen = { Field };

    ghost seen = { λ x. x };

    ghost part = { field_at };

    #[tactic(auto, unfolding(boot_fields::specs::Reading::field_at))]
    fn read(alloc: Global, bytes: &[u8]) -> Result<(Self, &[u8]), ReadError> {
        let (name, rest) = text(alloc, bytes)?;
        let (ty, rest) = object_type(rest)?;
        let (marked, rest) = truth(rest)?;
        Ok((Field { name, ty, marked }, rest))
    }
}

impl Part for StructInfo {
    ghost Seen = { StructInfo };

    ghost seen = { λ x. x };

    ghost part = { struct_at };

    #[tactic(auto, unfolding(boot_fields::specs::Reading::struct_at))]
    fn read(alloc: Global, bytes: &[u8]) -> Result<(Self, &[u8]), ReadError> {
        let (name, rest) = text(alloc, bytes)?;
        let (fields, rest) = list(alloc, rest)?;
        let structure = StructInfo {
            name,
            fields: Listed::new(fields),
        };
        Ok((structure, rest))
    }
}

#[tactic(auto, unfolding(boot_fields::specs::Reading::option_at))]
fn holds(bytes: &[u8]) -> Result<(Option<Span>, &[u8]), ReadError>
    ensures { Gives (λ x. (x.0, x.1.now)) result (option_at span_at bytes.now) }
{
    match bytes {
        [] => Err(ReadError::Bad),
        [0, rest @ ..] => Ok((None, rest)),
        [1, rest @ ..] => {
            let (span, rest) = span(rest)?;
            Ok((Some(span), rest))
        }
        [_, ..] => Err(ReadError::Bad),
    }
}

impl Part for Var {
    ghost Seen = { Var };

    ghost seen = { λ x. x };

    ghost part = { variable_at };

    #[tactic(auto, unfolding(boot_fields::specs::Reading::variable_at))]
    fn read(alloc: Global, bytes: &[u8]) -> Result<(Self, &[u8]), ReadError> {
        let (name, rest) = text(alloc, bytes)?;
        let (span, rest) = span(rest)?;
        let (ty, rest) = object_type(rest)?;
        let (marked, rest) = truth(rest)?;
        let (unpriv, rest) = truth(rest)?;
        let (holds, rest) = holds(rest)?;
        let variable = Var {
            name,
            span,
            ty,
            marked,
            unpriv,
            holds,
        };
        Ok((variable, rest))
    }
}

#[tactic(auto, unfolding(boot_fields::specs::Reading::param_kind_at))]
fn param_kind(bytes: &[u8]) -> Result<(ParamKind, &[u8]), ReadError>
    ensures { Gives (λ x. (x.0, x.1.now)) result (param_kind_at bytes.now) }
{
    match bytes {
        [] => Err(ReadError::Bad),
        [0, rest @ ..] => {
            let (ty, rest) = int_type(rest)?;
            Ok((ParamKind::Int(ty), rest))
        }
        [1, rest @ ..] => {
            let (elem, rest) = elem(rest)?;
            let (fixed, rest) = truth(rest)?;
            Ok((ParamKind::Ptr { elem, fixed }, rest))
        }
        [_, ..] => Err(ReadError::Bad),
    }
}

impl Part for Param {
    ghost Seen = { Param };

    ghost seen = { λ x. x };

    ghost part = { param_at };

    #[tactic(auto, unfolding(boot_fields::specs::Reading::param_at))]
    fn read(alloc: Global, bytes: &[u8]) -> Result<(Self, &[u8]), ReadError> {
        let (kind, rest) = param_kind(bytes)?;
        let (marked, rest) = truth(rest)?;
        let (declassify, rest) = truth(rest)?;
        let param = Param {
            kind,
            marked,
            declassify,
        };
        Ok((param, rest))
    }
}

#[tactic(auto, unfolding(boot_fields::specs::Reading::option_at))]
fn result_type(bytes: &[u8]) -> Result<(Option<IntType>, &[u8]), ReadError>
    ensures { Gives (λ x. (x.0, x.1.now)) result (option_at int_type_at bytes.now) }
{
    match bytes {
        [] => Err(ReadError::Bad),
        [0, rest @ ..] => Ok((None, rest)),
        [1, rest @ ..] => {
            let (ty, rest) = int_type(rest)?;
            Ok((Some(ty), rest))
        }
        [_, ..] => Err(ReadError::Bad),
    }
}

impl Part for Signature {
    ghost Seen = { Signature };

    ghost seen = { λ x. x };

    ghost part = { signature_at };

    #[tactic(auto, unfolding(boot_fields::specs::Reading::signature_at))]
    fn read(alloc: Global, bytes: &[u8]) -> Result<(Self, &[u8]), ReadError> {
        let (name, rest) = text(alloc, bytes)?;
        let (result, rest) = result_type(rest)?;
        let (params, rest) = list(alloc, rest)?;
        let (host, rest) = truth(rest)?;
        let (privileged, rest) = truth(rest)?;
        let (declassify, rest) = truth(rest)?;
        let signature = Signature {
            name,
            result,
            params: Listed::new(params),
            host,
            privileged,
            declassify,
        };
        Ok((signature, rest))
    }
}

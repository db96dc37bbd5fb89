// Writing types, structs, variables and signatures.
ghost use Rattle.std.specs.Prelude.{◌≡◌, ◌++◌, OnOk, IfSome};
ghost use Rattle.pt_tree.specs.declared.signature.Param.{Param};
ghost use Rattle.pt_tree.specs.declared.signature.Signature.{Signature};
ghost use Rattle.typed_tree.specs.declared.types.Field.{Field};
ghost use Rattle.typed_tree.specs.declared.types.StructInfo.{StructInfo};
ghost use Rattle.typed_tree.specs.declared.variable.Var.{Var};
ghost use Rattle.boot_fields.specs.Spelling.{option_bytes, int_type_bytes, span_bytes, elem_bytes, type_bytes, field_bytes, struct_bytes, variable_bytes, param_kind_bytes, param_bytes, signature_bytes};
ghost use Rattle.boot_fields.specs.Limits.{FitsSpan, FitsElem, FitsVarTy, FitsField, FitsStruct, FitsVar, FitsParamKind, FitsParam, FitsSignature};

use crate::lists::{Spelled, put_list};
use boot_fields::{put_span, put_text, put_truth};
use pt_base::{IntType, Span};
use pt_tree::{Elem, Param, ParamKind, Signature};
use std::alloc::AllocError;
use typed_tree::{Field, StructInfo, Var, VarTy};
use wire::{put_byte, put_u32, type_number};

#[tactic(auto, using(std::proofs::Common::append_assoc))]
pub(crate) fn put_elem(out: &mut Vec<u8>, elem: Elem) -> Result<(), AllocError>
    ensures bytes { OnOk result (out.new.items ≡ out.old.items ++ elem_bytes elem) }
    ensures fits { OnOk result (FitsElem elem) }
{
    match elem {
        Elem::Int(ty) => {
            put_byte(out, 0)?;
            put_byte(out, type_number(ty))?;
        }
        Elem::Struct(number) => {
            put_byte(out, 1)?;
            put_u32(out, number)?;
        }
    }
    Ok(())
}

#[tactic(auto, using(std::proofs::Common::append_assoc))]
fn put_type(out: &mut Vec<u8>, ty: VarTy) -> Result<(), AllocError>
    ensures bytes { OnOk result (out.new.items ≡ out.old.items ++ type_bytes ty) }
    ensures fits { OnOk result (FitsVarTy ty) }
{
    match ty {
        VarTy::Int(ty) => {
            put_byte(out, 0)?;
            put_byte(out, type_number(ty))?;
        }
        VarTy::Struct(number) => {
            put_byte(out, 1)?;
            put_u32(out, number)?;
        }
        VarTy::Array { elem, count } => {
            put_byte(out, 2)?;
            put_elem(out, elem)?;
            put_u32(out, count)?;
        }
        VarTy::Pointer { elem, fixed } => {
            put_byte(out, 3)?;
            put_elem(out, elem)?;
            put_truth(out, fixed)?;
        }
    }
    Ok(())
}

impl Spelled for Field {
    ghost Seen = { Field };

    ghost seen = { λ x. x };

    ghost spelling = { field_bytes };

    ghost Fits = { FitsField };

    #[tactic(auto, using(std::proofs::Common::append_assoc))]
    fn put(&self, out: &mut Vec<u8>) -> Result<(), AllocError> {
        put_text(out, &self.name)?;
        put_type(out, self.ty)?;
        put_truth(out, self.marked)
    }
}

impl Spelled for StructInfo {
    ghost Seen = { StructInfo };

    ghost seen = { λ x. x };

    ghost spelling = { struct_bytes };

    ghost Fits = { FitsStruct };

    #[tactic(auto, using(std::proofs::Common::append_assoc))]
    fn put(&self, out: &mut Vec<u8>) -> Result<(), AllocError> {
        put_text(out, &self.name)?;
        put_list(out, self.fields.as_slice())
    }
}

#[tactic(auto, using(std::proofs::Common::append_assoc))]
fn put_holds(out: &mut Vec<u8>, holds: Option<Span>) -> Result<(), AllocError>
    ensures bytes { OnOk result (out.new.items ≡ out.old.items ++ option_bytes span_bytes holds) }
    ensures fits { OnOk result (IfSome holds FitsSpan) }
{
    match holds {
        None => put_byte(out, 0)?,
        Some(span) => {
            put_byte(out, 1)?;
            put_span(out, span)?;
        }
    }
    Ok(())
}

impl Spelled for Var {
    ghost Seen = { Var };

    ghost seen = { λ x. x };

    ghost spelling = { variable_bytes };

    ghost Fits = { FitsVar };

    #[tactic(auto, using(std::proofs::Common::append_assoc))]
    fn put(&self, out: &mut Vec<u8>) -> Result<(), AllocError> {
        put_text(out, &self.name)?;
        put_span(out, self.span)?;
        put_type(out, self.ty)?;
        put_truth(out, self.marked)?;
        put_truth(out, self.unpriv)?;
        put_holds(out, self.holds)
    }
}

#[tactic(auto, using(std::proofs::Common::append_assoc))]
fn put_param_kind(out: &mut Vec<u8>, kind: ParamKind) -> Result<(), AllocError>
    ensures bytes { OnOk result (out.new.items ≡ out.old.items ++ param_kind_bytes kind) }
    ensures fits { OnOk result (FitsParamKind kind) }
{
    match kind {
        ParamKind::Int(ty) => {
            put_byte(out, 0)?;
            put_byte(out, type_number(ty))?;
        }
        ParamKind::Ptr { elem, fixed } => {
            put_byte(out, 1)?;
            put_elem(out, elem)?;
            put_truth(out, fixed)?;
        }
    }
    Ok(())
}

impl Spelled for Param {
    ghost Seen = { Param };

    ghost seen = { λ x. x };

    ghost spelling = { param_bytes };

    ghost Fits = { FitsParam };

    #[tactic(auto, using(std::proofs::Common::append_assoc))]
    fn put(&self, out: &mut Vec<u8>) -> Result<(), AllocError> {
        put_param_kind(out, self.kind)?;
        put_truth(out, self.marked)?;
        put_truth(out, self.declassify)
    }
}

#[tactic(auto, using(std::proofs::Common::append_assoc))]
fn put_result_type(out: &mut Vec<u8>, ty: Option<IntType>) -> Result<(), AllocError>
    ensures { OnOk result (out.new.items ≡ out.old.items ++ option_bytes int_type_bytes ty) }
{
    match ty {
        None => put_byte(out, 0)?,
        Some(ty) => {
            put_byte(out, 1)?;
            put_byte(out, type_number(ty))?;
        }
    }
    Ok(())
}

impl Spelled for Signature {
    ghost Seen = { Signature };

    ghost seen = { λ x. x };

    ghost spelling = { signature_bytes };

    ghost Fits = { FitsSignature };

    #[tactic(auto, using(std::proofs::Common::append_assoc))]
    fn put(&self, out: &mut Vec<u8>) -> Result<(), AllocError> {
        put_text(out, &self.name)?;
        put_result_type(out, self.result)?;
        put_list(out, self.params.as_slice())?;
        put_truth(out, self.host)?;
        put_truth(out, self.privileged)?;
        put_truth(out, self.declassify)
    }
}

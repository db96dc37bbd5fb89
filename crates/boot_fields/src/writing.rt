// Writing counts, truths, byte strings, spans and operators.
ghost use Rattle.std.specs.Prelude.{◌≡◌, ◌++◌, ◌∷◌, [], ◌<◌, ◌^◌, OnOk};
ghost use Rattle.wire.specs.Spelling.{eight_bytes, truth_byte};
ghost use Rattle.boot_fields.specs.Spelling.{text_bytes, span_bytes, unary_byte, binary_byte};
ghost use Rattle.boot_fields.specs.Limits.{FitsText, FitsSpan};

use pt_base::{Bytes, Span};
use pt_int::{BinOp, UnOp};
use std::alloc::AllocError;
use wire::{put_byte, put_bytes, put_u32, put_u64};

/// The place of the operator among the unary ones.
pub fn unary_number(op: UnOp) -> u8
    ensures { result ≡ unary_byte op }
{
    match op {
        UnOp::Minus => 0,
        UnOp::Plus => 1,
        UnOp::Flip => 2,
        UnOp::Not => 3,
    }
}

/// The place of the operator among the binary ones.
pub fn binary_number(op: BinOp) -> u8
    ensures { result ≡ binary_byte op }
{
    match op {
        BinOp::Mul => 0,
        BinOp::Div => 1,
        BinOp::Rem => 2,
        BinOp::Add => 3,
        BinOp::Sub => 4,
        BinOp::Shl => 5,
        BinOp::Shr => 6,
        BinOp::Lt => 7,
        BinOp::Gt => 8,
        BinOp::Le => 9,
        BinOp::Ge => 10,
        BinOp::Eq => 11,
        BinOp::Ne => 12,
        BinOp::And => 13,
        BinOp::Xor => 14,
        BinOp::Or => 15,
    }
}

/// Appends 1 for true and 0 for false.
pub fn put_truth(out: &mut Vec<u8>, truth: bool) -> Result<(), AllocError>
    ensures { OnOk result (out.new.items ≡ out.old.items ++ truth_byte truth ∷ []) }
{
    put_byte(out, u8::from(truth))
}

/// Appends the length of a list, in eight bytes.
pub fn put_count(out: &mut Vec<u8>, count: usize) -> Result<(), AllocError>
    ensures bytes { OnOk result (out.new.items ≡ out.old.items ++ eight_bytes count) }
    ensures fits { count < 2 ^ 64 }
{
    put_u64(out, count as u64)
}

/// Appends the byte string behind its length.
#[tactic(auto, using(std::proofs::Common::append_assoc))]
pub fn put_text(out: &mut Vec<u8>, text: &Bytes) -> Result<(), AllocError>
    ensures bytes { OnOk result (out.new.items ≡ out.old.items ++ text_bytes text.now) }
    ensures fits { OnOk result (FitsText text.now) }
{
    let bytes = text.as_slice();
    put_count(out, bytes.len())?;
    put_bytes(out, bytes)
}

/// Appends the two ends of the span.
#[tactic(auto, using(std::proofs::Common::append_assoc))]
pub fn put_span(out: &mut Vec<u8>, span: Span) -> Result<(), AllocError>
    ensures bytes { OnOk result (out.new.items ≡ out.old.items ++ span_bytes span) }
    ensures fits { OnOk result (FitsSpan span) }
{
    put_u32(out, span.from)?;
    put_u32(out, span.to)
}

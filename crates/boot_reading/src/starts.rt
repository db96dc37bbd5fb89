// What stands before the first operand of an expression.
ghost use Rattle.std.specs.Prelude.{option_map};
ghost use Rattle.pt_core.specs.CodeTree.{read, null, address, decay, view_place};
ghost use Rattle.boot_fields.specs.Reading.{Gives, mapped, both, constant_at, int_type_at, elem_at, unary_op_at, binary_op_at};
ghost use Rattle.boot_reading.specs.declared.starts.Head.TheVariants as head;
ghost use Rattle.boot_reading.specs.ChainReading.{whole, opens, started, view_start, place_start_at, start_at};

use crate::lists::list;
use crate::objects::elem;
use boot_fields::{ReadError, binary_op, int_type, number_i128, number_u32, unary_op};
use pt_base::{GlobalId, IntType, VarId};
use pt_core::{Expr, Place, Root};
use pt_int::{BinOp, UnOp};
use std::alloc::Global;

/// An expression of which the first operand, or the pointer of its place, stands behind.
#[derive(Clone, Copy)]
pub(crate) enum Head {
    Unary(UnOp, IntType),
    Binary(BinOp, IntType),
    Convert(IntType),
    Move,
    Compare(BinOp),
    Diff,
    Read,
    Addr,
    Decay,
}

/// How an expression begins: it is over already, or its first operand stands behind.
#[derive(Drop)]
pub(crate) enum Start {
    Whole(Expr),
    Opens(Head),
}

/// A place, or none where it begins with a pointer, which stands behind.
#[tactic(auto, unfolding(crate::specs::ChainReading::place_start_at))]
pub(crate) fn place_start(alloc: Global, bytes: &[u8]) -> Result<(Option<Place>, &[u8]), ReadError>
    ensures { Gives (λ x. (option_map view_place x.0, x.1.now)) result (place_start_at bytes.now) }
{
    match bytes {
        [] => Err(ReadError::Bad),
        [0, rest @ ..] => {
            let (number, rest) = number_u32(rest)?;
            let (path, rest) = list(alloc, rest)?;
            let root = Root::Local(VarId(number));
            Ok((Some(Place { root, path }), rest))
        }
        [1, rest @ ..] => {
            let (number, rest) = number_u32(rest)?;
            let (path, rest) = list(alloc, rest)?;
            let root = Root::Global(GlobalId(number));
            Ok((Some(Place { root, path }), rest))
        }
        [2, rest @ ..] => Ok((None, rest)),
        [_, ..] => Err(ReadError::Bad),
    }
}

// an expression without a first operand
fn constant_start(bytes: &[u8]) -> Result<(Start, &[u8]), ReadError>
    ensures { Gives (λ x. (view_start x.0, x.1.now)) result (mapped whole constant_at bytes.now) }
{
    let (ty, rest) = int_type(bytes)?;
    let (value, rest) = number_i128(rest)?;
    Ok((Start::Whole(Expr::Const { ty, value }), rest))
}

fn null_start(bytes: &[u8]) -> Result<(Start, &[u8]), ReadError>
    ensures { Gives (λ x. (view_start x.0, x.1.now)) result (mapped (λ e. whole (null e)) elem_at bytes.now) }
{
    let (elem, rest) = elem(bytes)?;
    Ok((Start::Whole(Expr::Null { elem }), rest))
}

fn read_start(alloc: Global, bytes: &[u8]) -> Result<(Start, &[u8]), ReadError>
    ensures { Gives (λ x. (view_start x.0, x.1.now)) result (mapped (started read head.Read) place_start_at bytes.now) }
{
    let (place, rest) = place_start(alloc, bytes)?;
    match place {
        Some(place) => Ok((Start::Whole(Expr::read(place)), rest)),
        None => Ok((Start::Opens(Head::Read), rest)),
    }
}

fn address_start(alloc: Global, bytes: &[u8]) -> Result<(Start, &[u8]), ReadError>
    ensures { Gives (λ x. (view_start x.0, x.1.now)) result (mapped (started address head.Addr) place_start_at bytes.now) }
{
    let (place, rest) = place_start(alloc, bytes)?;
    match place {
        Some(place) => Ok((Start::Whole(Expr::address(place)), rest)),
        None => Ok((Start::Opens(Head::Addr), rest)),
    }
}

fn decay_start(alloc: Global, bytes: &[u8]) -> Result<(Start, &[u8]), ReadError>
    ensures { Gives (λ x. (view_start x.0, x.1.now)) result (mapped (started decay head.Decay) place_start_at bytes.now) }
{
    let (place, rest) = place_start(alloc, bytes)?;
    match place {
        Some(place) => Ok((Start::Whole(Expr::decay(place)), rest)),
        None => Ok((Start::Opens(Head::Decay), rest)),
    }
}

// an expression whose first operand stands behind an operator or a type
fn unary_start(bytes: &[u8]) -> Result<(Start, &[u8]), ReadError>
    ensures { Gives (λ x. (view_start x.0, x.1.now)) result (mapped (λ p. opens (head.Unary p.0 p.1)) (both unary_op_at int_type_at) bytes.now) }
{
    let (op, rest) = unary_op(bytes)?;
    let (ty, rest) = int_type(rest)?;
    Ok((Start::Opens(Head::Unary(op, ty)), rest))
}

fn binary_start(bytes: &[u8]) -> Result<(Start, &[u8]), ReadError>
    ensures { Gives (λ x. (view_start x.0, x.1.now)) result (mapped (λ p. opens (head.Binary p.0 p.1)) (both binary_op_at int_type_at) bytes.now) }
{
    let (op, rest) = binary_op(bytes)?;
    let (ty, rest) = int_type(rest)?;
    Ok((Start::Opens(Head::Binary(op, ty)), rest))
}

fn convert_start(bytes: &[u8]) -> Result<(Start, &[u8]), ReadError>
    ensures { Gives (λ x. (view_start x.0, x.1.now)) result (mapped (λ t. opens (head.Convert t)) int_type_at bytes.now) }
{
    let (to, rest) = int_type(bytes)?;
    Ok((Start::Opens(Head::Convert(to)), rest))
}

fn compare_start(bytes: &[u8]) -> Result<(Start, &[u8]), ReadError>
    ensures { Gives (λ x. (view_start x.0, x.1.now)) result (mapped (λ op. opens (head.Compare op)) binary_op_at bytes.now) }
{
    let (op, rest) = binary_op(bytes)?;
    Ok((Start::Opens(Head::Compare(op)), rest))
}

#[tactic(auto, unfolding(crate::specs::ChainReading::start_at))]
pub(crate) fn start_of(alloc: Global, bytes: &[u8]) -> Result<(Start, &[u8]), ReadError>
    ensures { Gives (λ x. (view_start x.0, x.1.now)) result (start_at bytes.now) }
{
    match bytes {
        [] => Err(ReadError::Bad),
        [0, rest @ ..] => constant_start(rest),
        [1, rest @ ..] => read_start(alloc, rest),
        [2, rest @ ..] => unary_start(rest),
        [3, rest @ ..] => binary_start(rest),
        [4, rest @ ..] => convert_start(rest),
        [5, rest @ ..] => null_start(rest),
        [6, rest @ ..] => address_start(alloc, rest),
        [7, rest @ ..] => decay_start(alloc, rest),
        [8, rest @ ..] => Ok((Start::Opens(Head::Move), rest)),
        [9, rest @ ..] => compare_start(rest),
        [10, rest @ ..] => Ok((Start::Opens(Head::Diff), rest)),
        [_, ..] => Err(ReadError::Bad),
    }
}

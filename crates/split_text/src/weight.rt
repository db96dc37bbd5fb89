// How much memory it takes to clear the variables of a half, an assignment for each integer: a short program
// may ask for more than any machine has.
use pt_core::CoreFn;
use pt_tree::Elem;
use std::alloc::{AllocError, Global};
use typed_tree::{Field, StructInfo, VarTy};

/// The bytes of an assignment, about.
const STORE: u64 = 512;

/// The bytes of a step to a field or an element, about.
const STEP: u64 = 64;

/// The most bytes that clearing may take.
const MOST: u64 = 1 << 31;

/// What the integers of an object weigh: how many there are, and the bytes of the steps to all of them.
#[derive(Clone, Copy)]
struct Weight {
    integers: u64,
    steps: u64,
}

/// No integer.
const NOTHING: Weight = Weight {
    integers: 0,
    steps: 0,
};

/// An integer alone.
const ONE: Weight = Weight {
    integers: 1,
    steps: 0,
};

impl Weight {
    // both
    fn and(self, other: Weight) -> Weight {
        Weight {
            integers: self.integers.saturating_add(other.integers),
            steps: self.steps.saturating_add(other.steps),
        }
    }

    // behind one more step of so many bytes
    fn behind(self, bytes: u64) -> Weight {
        Weight {
            integers: self.integers,
            steps: self
                .steps
                .saturating_add(self.integers.saturating_mul(bytes)),
        }
    }

    // so many times
    fn times(self, count: u64) -> Weight {
        Weight {
            integers: self.integers.saturating_mul(count),
            steps: self.steps.saturating_mul(count),
        }
    }

    // the bytes of an assignment to each
    fn bytes(self) -> u64 {
        self.integers
            .saturating_mul(STORE)
            .saturating_add(self.steps)
    }
}

fn element_weight(known: &[Weight], elem: Elem) -> Weight {
    match elem {
        Elem::Int(_) => ONE,
        Elem::Struct(n) => known.get(n as usize).copied().unwrap_or(NOTHING),
    }
}

fn object_weight(known: &[Weight], ty: VarTy) -> Weight {
    match ty {
        VarTy::Int(_) => ONE,
        VarTy::Struct(n) => element_weight(known, Elem::Struct(n)),
        VarTy::Array { elem, count } => {
            element_weight(known, elem)
                .behind(STEP)
                .times(u64::from(count))
        }
        VarTy::Pointer { .. } => ONE,
    }
}

fn field_weight(known: &[Weight], field: &Field) -> Weight {
    let name = field.name.as_slice().len() as u64;
    object_weight(known, field.ty).behind(name.saturating_mul(2).saturating_add(STEP))
}

fn struct_weight(known: &[Weight], info: &StructInfo) -> Weight {
    let mut sum = NOTHING;
    for field in info.fields.as_slice() {
        sum = sum.and(field_weight(known, field));
    }
    sum
}

// what each struct weighs
fn weights(alloc: Global, structs: &[StructInfo]) -> Result<Vec<Weight>, AllocError> {
    let mut known = Vec::with_capacity(alloc, structs.len())?;
    for info in structs {
        let weight = struct_weight(&known, info);
        known.push(weight)?;
    }
    Ok(known)
}

/// Whether clearing each variable of these functions once takes too much memory.
pub(crate) fn is_too_large(
    alloc: Global,
    structs: &[StructInfo],
    functions: &[CoreFn],
) -> Result<bool, AllocError> {
    let known = weights(alloc, structs)?;
    let mut sum: u64 = 0;
    for function in functions {
        for var in function.vars.as_slice() {
            sum = sum.saturating_add(object_weight(&known, var.ty).bytes());
        }
    }
    Ok(sum > MOST)
}

// The names of functions.
use crate::spelling::push_bytes;
use pt_base::FnId;
use pt_tree::Signature;
use std::alloc::AllocError;

/// The signature of the function or host of this number.
pub fn signature_of(signatures: &[(FnId, Signature)], f: FnId) -> Option<&Signature> {
    for entry in signatures {
        if entry.0 == f {
            return Some(&entry.1);
        }
    }
    None
}

/// Appends the names of the functions of these numbers, or `none` where there is no number.
///
/// # Errors
///
/// Want of memory.
pub fn push_names(
    told: &mut String,
    signatures: &[(FnId, Signature)],
    numbers: &[FnId],
) -> Result<(), AllocError> {
    if numbers.is_empty() {
        return told.push_str("none");
    }
    let mut before = "";
    for number in numbers {
        told.push_str(before)?;
        match signature_of(signatures, *number) {
            Some(signature) => push_bytes(told, signature.name.as_slice())?,
            None => told.push_str("no name")?,
        }
        before = ", ";
    }
    Ok(())
}

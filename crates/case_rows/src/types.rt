// The names of integer types.
use anyhow::{Result, bail};
use pt_base::IntType;

/// The name of the type in C.
pub fn int_name(ty: IntType) -> &'static str {
    match ty {
        IntType::Char => "char",
        IntType::SChar => "signed char",
        IntType::UChar => "unsigned char",
        IntType::Short => "short",
        IntType::UShort => "unsigned short",
        IntType::Int => "int",
        IntType::UInt => "unsigned int",
        IntType::Long => "long",
        IntType::ULong => "unsigned long",
    }
}

/// The type of this name, as one word.
///
/// # Errors
///
/// A word that is no type's.
pub fn int_type(word: &str) -> Result<IntType> {
    Ok(match word {
        "char" => IntType::Char,
        "signed-char" => IntType::SChar,
        "unsigned-char" => IntType::UChar,
        "short" => IntType::Short,
        "unsigned-short" => IntType::UShort,
        "int" => IntType::Int,
        "unsigned-int" => IntType::UInt,
        "long" => IntType::Long,
        "unsigned-long" => IntType::ULong,
        _ => bail!("no type: {word}"),
    })
}

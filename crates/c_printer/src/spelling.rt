// How operators and keywords are spelled.
ghost use Rattle.std.specs.Prelude.{◌≡◌};
ghost use Rattle.c_lexer.specs.Spelling.{spelling_of};
ghost use Rattle.c_printer.specs.Kinds.{operator_kind, prefix_kind, assignment_kind, keyword_kind};

use pt_tree::{BinaryOp, PrefixOp, SpecWord};

/// An operator between two operands.
pub(crate) fn operator_word(op: BinaryOp) -> &'static [u8]
    ensures { result.now ≡ spelling_of (operator_kind op) }
{
    match op {
        BinaryOp::LogicalOr => b"||",
        BinaryOp::LogicalAnd => b"&&",
        BinaryOp::BitOr => b"|",
        BinaryOp::BitXor => b"^",
        BinaryOp::BitAnd => b"&",
        BinaryOp::Equal => b"==",
        BinaryOp::NotEqual => b"!=",
        BinaryOp::Less => b"<",
        BinaryOp::Greater => b">",
        BinaryOp::LessEqual => b"<=",
        BinaryOp::GreaterEqual => b">=",
        BinaryOp::ShiftLeft => b"<<",
        BinaryOp::ShiftRight => b">>",
        BinaryOp::Add => b"+",
        BinaryOp::Subtract => b"-",
        BinaryOp::Multiply => b"*",
        BinaryOp::Divide => b"/",
        BinaryOp::Remainder => b"%",
    }
}

/// An operator before its operand.
pub(crate) fn prefix_word(op: PrefixOp) -> &'static [u8]
    ensures { result.now ≡ spelling_of (prefix_kind op) }
{
    match op {
        PrefixOp::AddressOf => b"&",
        PrefixOp::Dereference => b"*",
        PrefixOp::Plus => b"+",
        PrefixOp::Minus => b"-",
        PrefixOp::Complement => b"~",
        PrefixOp::Not => b"!",
        PrefixOp::Increment => b"++",
        PrefixOp::Decrement => b"--",
    }
}

/// A plain assignment, or a compound one.
pub(crate) fn assignment_word(op: Option<BinaryOp>) -> &'static [u8]
    ensures { result.now ≡ spelling_of (assignment_kind op) }
{
    match op {
        Some(BinaryOp::BitOr) => b"|=",
        Some(BinaryOp::BitXor) => b"^=",
        Some(BinaryOp::BitAnd) => b"&=",
        Some(BinaryOp::ShiftLeft) => b"<<=",
        Some(BinaryOp::ShiftRight) => b">>=",
        Some(BinaryOp::Add) => b"+=",
        Some(BinaryOp::Subtract) => b"-=",
        Some(BinaryOp::Multiply) => b"*=",
        Some(BinaryOp::Divide) => b"/=",
        Some(BinaryOp::Remainder) => b"%=",
        _ => b"=",
    }
}

/// A keyword among the specifiers.
pub(crate) fn keyword_word(word: SpecWord) -> &'static [u8]
    ensures { result.now ≡ spelling_of (keyword_kind word) }
{
    match word {
        SpecWord::Extern => b"extern",
        SpecWord::Static => b"static",
        SpecWord::Const => b"const",
        SpecWord::Void => b"void",
        SpecWord::Char => b"char",
        SpecWord::Short => b"short",
        SpecWord::Int => b"int",
        SpecWord::Long => b"long",
        SpecWord::Signed => b"signed",
        SpecWord::Unsigned => b"unsigned",
    }
}

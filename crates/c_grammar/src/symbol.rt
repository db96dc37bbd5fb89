// The symbols of the grammar.

/// A symbol of the grammar that is no token.
#[derive(Clone, Copy, Debug, PartialEq, Eq)]
pub enum Symbol {
    /// A whole program.
    TranslationUnit,
    /// A declaration or function outside of functions.
    External,
    /// What follows the specifiers there.
    ExternalRest,
    /// What follows the first declarator there.
    ExternalTail,
    /// The end of a prototype, or a body.
    FunctionEnd,
    /// Specifiers.
    Specs,
    /// Further specifiers.
    MoreSpecs,
    /// One specifier.
    Spec,
    /// An attribute.
    Attribute,
    /// Further names of an attribute.
    MoreNames,
    /// A struct.
    Struct,
    /// The body of a struct, or none.
    StructBody,
    /// Further declarations of fields.
    Fields,
    /// A declaration of fields.
    Field,
    /// Further declarators of fields.
    MoreDeclarators,
    /// A declarator.
    Declarator,
    /// A `*`, or nothing.
    Star,
    /// What stands behind a declared name.
    Suffix,
    /// The size of an array, or nothing.
    Size,
    /// The value of a declared object, or none.
    Init,
    /// The value of a declared object.
    InitValue,
    /// Further values in braces.
    InitItems,
    /// What follows a comma in braces.
    InitNext,
    /// Further declarators.
    More,
    /// The parameters of a function.
    Params,
    /// Further parameters.
    MoreParams,
    /// A parameter.
    Param,
    /// The name of a parameter, or none.
    Name,
    /// A block.
    Block,
    /// The items of a block.
    Items,
    /// An item of a block.
    Item,
    /// A declaration.
    Declaration,
    /// What follows the specifiers there.
    DeclarationRest,
    /// A statement.
    Statement,
    /// The other branch of an `if`, or none.
    ElsePart,
    /// What stands first in a `for`.
    ForInit,
    /// What is done after each turn of a `for`, or nothing.
    ForStep,
    /// An expression, or nothing.
    Opt,
    /// An expression.
    Expr,
    /// An assignment, or nothing.
    AssignTail,
    /// A conditional expression.
    Cond,
    /// The arms of a conditional expression, or nothing.
    CondTail,
    /// An operand with its operators.
    Unary,
    /// What follows an opening parenthesis.
    Paren,
    /// What stands behind an operand.
    Postfixes,
    /// The arguments of a call.
    Arguments,
    /// Further arguments.
    MoreArguments,
    /// An identifier or a constant.
    Primary,
    /// An assignment operator.
    AssignOp,
    /// An operator before its operand.
    UnaryOp,
    /// The level of `||`.
    LogicalOr,
    /// Further operands of that level.
    LogicalOrTail,
    /// The level of `&&`.
    LogicalAnd,
    /// Further operands of that level.
    LogicalAndTail,
    /// The level of `|`.
    BitOr,
    /// Further operands of that level.
    BitOrTail,
    /// The level of `^`.
    BitXor,
    /// Further operands of that level.
    BitXorTail,
    /// The level of `&`.
    BitAnd,
    /// Further operands of that level.
    BitAndTail,
    /// The level of `==` and `!=`.
    Equality,
    /// Further operands of that level.
    EqualityTail,
    /// The level of `<`, `>`, `<=` and `>=`.
    Relational,
    /// Further operands of that level.
    RelationalTail,
    /// The level of `<<` and `>>`.
    Shift,
    /// Further operands of that level.
    ShiftTail,
    /// The level of `+` and `-`.
    Additive,
    /// Further operands of that level.
    AdditiveTail,
    /// The level of `*`, `/` and `%`.
    Multiplicative,
    /// Further operands of that level.
    MultiplicativeTail,
    /// The sections of a switch.
    Sections,
    /// A section of a switch.
    Section,
    /// A label of a switch.
    Label,
    /// The statements of a section.
    SectionItems,
}

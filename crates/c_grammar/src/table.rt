// The table: which rules a symbol has, and which tokens lead to each.
ghost use Rattle.std.specs.Prelude.{◌≡◌, ◌<◌, ◌≤◌, get_or};
ghost use Rattle.c_grammar.specs.Numbers.{kind_number, symbol_number};
ghost use Rattle.c_grammar.specs.Table.{alternatives_of, leading, leads_to, row_of};
ghost use Rattle.c_grammar.specs.Sets.{TableIsTheGrammars};

use crate::symbol::Symbol;
use c_lexer::TokenKind;

// For each rule the tokens that lead to it, as bits by the kinds' numbers. No rule has the number 0.
static LEADING: [u128; 177] = [
    0,
    0x106363040c0,
    0x0,
    0x106363040c0,
    0x2000000000000000000,
    0x10000000000001,
    0x80000000000,
    0x2006000000000000000000,
    0x2000000000000000000,
    0x200000000000,
    0x106363040c0,
    0x106363040c0,
    0x2002000010120000000001,
    0x10000000000,
    0x4000,
    0x10000000,
    0x80,
    0x400000000,
    0x40,
    0x2000000,
    0x100000,
    0x200000,
    0x4000000,
    0x200000000,
    0x20000000,
    0x10000000000,
    0x2000000000000000000000,
    0x100000000000,
    0x20000000,
    0x200000000000,
    0x20020000101306363040c1,
    0x106363040c0,
    0x400000000000,
    0x106363040c0,
    0x2000000000000000000000,
    0x2000000000000000000,
    0x10000000000001,
    0x10000000000000,
    0x2000000000120000000001,
    0x20000000000,
    0x2006000000180000000000,
    0x2,
    0x40000000000,
    0x4000000000000000000,
    0x2002000000000000000000,
    0x1fe080000000007,
    0x200000000000,
    0x2000000000000000000000,
    0x400000000000,
    0x1fe080000000007,
    0x400000000000,
    0x2000000000000000000000,
    0x2000000000000000000,
    0x106363040c0,
    0x100000000000,
    0x2000000000000000000000,
    0x100000000000,
    0x106363040c0,
    0x1,
    0x2000000000120000000000,
    0x200000000000,
    0x20001fe2916773545d7,
    0x400000000000,
    0x106363040c0,
    0x20001fe281041050517,
    0x106363040c0,
    0x2000000000000000000,
    0x10000000000001,
    0x200000000000,
    0x2000000000000000000,
    0x1fe080000000007,
    0x40000,
    0x1000000000,
    0x400,
    0x10000,
    0x1000000,
    0x10,
    0x100,
    0x1000,
    0x20001fe6916773557f7,
    0x106363040c0,
    0x2000000000000000000,
    0x1fe080000000007,
    0x1fe080000000007,
    0x100000000000,
    0x1fe080000000007,
    0x2000000000000000000,
    0x1fe080000000007,
    0x1ffc000000000000000000,
    0x2003000000540000000000,
    0x1fe080000000007,
    0x800000000000000000,
    0x3fff000000540000000000,
    0x80000000000,
    0x1f8000000000000,
    0x2000000000000,
    0x4000000000000,
    0x7,
    0x106363040c0,
    0x1fe080000000007,
    0x20000000000,
    0x80000000000,
    0x800000000000,
    0x1000000000000,
    0x2000000000000,
    0x4000000000000,
    0x3ffffffe78540000000000,
    0x1fe080000000007,
    0x100000000000,
    0x2000000000000000000000,
    0x100000000000,
    0x1,
    0x2,
    0x4,
    0x4000000000000000000,
    0x8000000000000000000,
    0x10000000000000000000,
    0x20000000000000000000,
    0x40000000000000000000,
    0x80000000000000000000,
    0x100000000000000000000,
    0x200000000000000000000,
    0x400000000000000000000,
    0x800000000000000000000,
    0x1000000000000000000000,
    0x8000000000000,
    0x10000000000000,
    0x20000000000000,
    0x40000000000000,
    0x80000000000000,
    0x100000000000000,
    0x1fe080000000007,
    0x400000000000000000,
    0x3fff800000540000000000,
    0x1fe080000000007,
    0x200000000000000000,
    0x3fffc00000540000000000,
    0x1fe080000000007,
    0x100000000000000000,
    0x3fffe00000540000000000,
    0x1fe080000000007,
    0x80000000000000000,
    0x3ffff00000540000000000,
    0x1fe080000000007,
    0x8000000000000,
    0x3ffff80000540000000000,
    0x1fe080000000007,
    0x20000000000000000,
    0x40000000000000000,
    0x3ffff80008540000000000,
    0x1fe080000000007,
    0x2000000000000000,
    0x4000000000000000,
    0x8000000000000000,
    0x10000000000000000,
    0x3ffffe0008540000000000,
    0x1fe080000000007,
    0x800000000000000,
    0x1000000000000000,
    0x3fffffe008540000000000,
    0x1fe080000000007,
    0x20000000000000,
    0x40000000000000,
    0x3ffffff808540000000000,
    0x1fe080000000007,
    0x10000000000000,
    0x200000000000000,
    0x400000000000000,
    0x3ffffff868540000000000,
    0x40000000,
    0x220,
    0x400000000000,
    0x220,
    0x20,
    0x200,
    0x20001fe281041050517,
    0x400000000220,
];

/// The rule, numbered from 1, by which the symbol gives way at a token of this kind: the first of
/// its alternatives that the kind can begin, or that is empty where the kind can follow the symbol.
/// `None` where the grammar has no such rule.
#[inline(always)]
pub fn row(symbol: Symbol, next: TokenKind) -> Option<u8>
    ensures { result ≡ row_of symbol next }
{
    alternatives(symbol)
        .iter()
        .copied()
        .find(|rule| is_led_to(*rule, next))
}

/// The table is the grammar's: the tokens that lead to a rule are those that can begin it, and for
/// an empty one those that can follow its symbol, by the least sets that the rules ask for.
pub fn table_is_the_grammars()
    ensures { TableIsTheGrammars }
{}

#[inline(always)]
fn is_led_to(rule: u8, next: TokenKind) -> bool
    ensures { result ≡ leads_to next rule }
{
    (leading_to(rule) >> kind_number(next)) % 2 == 1
}

#[inline(always)]
fn leading_to(rule: u8) -> u128
    ensures { result ≡ get_or leading rule 0 }
{
    LEADING.get(rule as usize).copied().unwrap_or(0)
}

/// The number of a kind of tokens, in the order of their declarations.
#[inline(always)]
pub fn kind_number(kind: TokenKind) -> u8
    ensures { result ≡ kind_number kind }
{
    kind as u8
}

/// The numbers of the symbol's rules, ascending.
#[inline(always)]
pub fn alternatives(symbol: Symbol) -> &'static [u8]
    ensures { result.now ≡ alternatives_of symbol }
{
    match symbol {
        Symbol::TranslationUnit => &[1, 2],
        Symbol::External => &[3],
        Symbol::ExternalRest => &[4, 5],
        Symbol::ExternalTail => &[6, 7],
        Symbol::FunctionEnd => &[8, 9],
        Symbol::Specs => &[10],
        Symbol::MoreSpecs => &[11, 12],
        Symbol::Spec => &[13, 14, 15, 16, 17, 18, 19, 20, 21, 22, 23, 24],
        Symbol::Attribute => &[25],
        Symbol::MoreNames => &[26, 27],
        Symbol::Struct => &[28],
        Symbol::StructBody => &[29, 30],
        Symbol::Fields => &[31, 32],
        Symbol::Field => &[33],
        Symbol::MoreDeclarators => &[34, 35],
        Symbol::Declarator => &[36],
        Symbol::Star => &[37, 38],
        Symbol::Suffix => &[39, 40],
        Symbol::Size => &[41, 42],
        Symbol::Init => &[43, 44],
        Symbol::InitValue => &[45, 46],
        Symbol::InitItems => &[47, 48],
        Symbol::InitNext => &[49, 50],
        Symbol::More => &[51, 52],
        Symbol::Params => &[53, 54],
        Symbol::MoreParams => &[55, 56],
        Symbol::Param => &[57],
        Symbol::Name => &[58, 59],
        _ => inner_alternatives(symbol),
    }
}

// Those of a symbol that stands in the body of a function.
#[inline(always)]
fn inner_alternatives(symbol: Symbol) -> &'static [u8]
    requires { 28 ≤ symbol_number symbol }
    ensures { result.now ≡ alternatives_of symbol }
{
    match symbol {
        Symbol::Block => &[60],
        Symbol::Items => &[61, 62],
        Symbol::Item => &[63, 64],
        Symbol::Declaration => &[65],
        Symbol::DeclarationRest => &[66, 67],
        Symbol::Statement => &[68, 69, 70, 71, 72, 73, 74, 75, 76, 77, 169],
        Symbol::ElsePart => &[78, 79],
        Symbol::ForInit => &[80, 81, 82],
        Symbol::ForStep => &[83, 84],
        Symbol::Opt => &[85, 86],
        Symbol::Sections => &[170, 171],
        Symbol::Section => &[172],
        Symbol::Label => &[173, 174],
        Symbol::SectionItems => &[175, 176],
        _ => expression_alternatives(symbol),
    }
}

// Those of a symbol that stands in an expression.
#[inline(always)]
fn expression_alternatives(symbol: Symbol) -> &'static [u8]
    requires { (38 ≤ symbol_number symbol) × (symbol_number symbol < 70) }
    ensures { result.now ≡ alternatives_of symbol }
{
    match symbol {
        Symbol::Expr => &[87],
        Symbol::AssignTail => &[88, 89],
        Symbol::Cond => &[90],
        Symbol::CondTail => &[91, 92],
        Symbol::Unary => &[93, 94, 95, 96, 97],
        Symbol::Paren => &[98, 99],
        Symbol::Postfixes => &[100, 101, 102, 103, 104, 105, 106],
        Symbol::Arguments => &[107, 108],
        Symbol::MoreArguments => &[109, 110],
        Symbol::Primary => &[111, 112, 113],
        Symbol::AssignOp => &[114, 115, 116, 117, 118, 119, 120, 121, 122, 123, 124],
        Symbol::UnaryOp => &[125, 126, 127, 128, 129, 130],
        Symbol::LogicalOr => &[131],
        Symbol::LogicalOrTail => &[132, 133],
        Symbol::LogicalAnd => &[134],
        Symbol::LogicalAndTail => &[135, 136],
        Symbol::BitOr => &[137],
        Symbol::BitOrTail => &[138, 139],
        Symbol::BitXor => &[140],
        Symbol::BitXorTail => &[141, 142],
        Symbol::BitAnd => &[143],
        Symbol::BitAndTail => &[144, 145],
        Symbol::Equality => &[146],
        Symbol::EqualityTail => &[147, 148, 149],
        Symbol::Relational => &[150],
        Symbol::RelationalTail => &[151, 152, 153, 154, 155],
        Symbol::Shift => &[156],
        Symbol::ShiftTail => &[157, 158, 159],
        Symbol::Additive => &[160],
        Symbol::AdditiveTail => &[161, 162, 163],
        Symbol::Multiplicative => &[164],
        Symbol::MultiplicativeTail => &[165, 166, 167, 168],
        _ => &[],
    }
}

// What is said of each kind of fault.
ghost use Rattle.std.specs.Prelude.{◌≡◌};
ghost use Rattle.explaining.specs.Sentences as is;

use c_lexer::LexFaultKind;
use check_declarations::FaultKind;
use flow_rules::Rule;
use front_end::ParseFaultKind;

// what is said of a byte with which nothing begins
fn byte_sentence(byte: u8) -> &'static str
    ensures { result.now ≡ is.byte_sentence byte }
{
    if byte == b'#' {
        "this language has no preprocessor: gcc -E -P writes the text without macros, and what headers declare is declared as hosts"
    } else if byte == b'"' {
        "this language has no strings: write an array of characters, or let a host give the bytes"
    } else {
        "nothing begins with this byte: outside of comments a text has signs of ASCII alone, and no byte order mark"
    }
}

/// What is said of a fault of this kind at this byte.
pub(crate) fn lex_sentence(kind: LexFaultKind, byte: u8) -> &'static str
    ensures { result.now ≡ is.lex_sentence kind byte }
{
    match kind {
        LexFaultKind::BadByte => byte_sentence(byte),
        LexFaultKind::OpenComment => "this comment has no end",
        LexFaultKind::BadNumber =>
            "this is no number that a type can hold: there are no fractions, no suffix ll, and no 8 and 9 behind a leading 0",
        LexFaultKind::BadChar => "this is no character constant",
        LexFaultKind::TooLong => "the text has more than 1048576 bytes",
    }
}

// what is said of a token, or of the text's end, that can't stand where it does
fn stop_sentence(within: bool) -> &'static str
    ensures { result.now ≡ is.stop_sentence within }
{
    if within {
        "this can't stand here: a ; or a bracket is missing before it, or this language lacks it, as typedef, enum, goto, sizeof, inline, double, ** and [][]"
    } else {
        "the text ends too early"
    }
}

/// What is said of a fault of this kind within the text, or at its end.
pub(crate) fn parse_sentence(kind: ParseFaultKind, within: bool) -> &'static str
    ensures { result.now ≡ is.parse_sentence kind within }
{
    match kind {
        ParseFaultKind::FaultAt => stop_sentence(within),
        ParseFaultKind::TooDeep => "this is nested too deep",
    }
}

/// What is said of a type fault of this kind.
pub(crate) fn type_sentence(kind: FaultKind) -> &'static str
    ensures { result.now ≡ is.type_sentence kind }
{
    match kind {
        FaultKind::UnknownName =>
            "nothing of this name is declared above; there is no library, so what lies outside is declared as a host",
        FaultKind::Redeclared =>
            "this was declared before in the same block, struct, switch or file, or otherwise",
        FaultKind::NotLvalue => "this is no object",
        FaultKind::WrongType =>
            "the type of this doesn't fit here: numbers, pointers to one type and structs of one tag are kept apart",
        FaultKind::ArgCount =>
            "this call has too few arguments, or too many: give one for each parameter of its declaration",
        FaultKind::ConstWrite => "this is const, so it can't be changed",
        FaultKind::OutOfProfile =>
            "this part of C isn't in this language: pointers are variables and parameters alone, structs no parameters and results, functions have no static variables, and globals begin with constants",
        FaultKind::NoMain =>
            "there is no int main(void); no words of a command line come to it, so a host gives what it reads",
        FaultKind::TooLarge =>
            "this has too many cells: an object has at most 65536, the variables of a function have 16384 together, all globals 1048576",
        FaultKind::BadAttribute =>
            "this attribute can't stand here: there are priv, unpriv and declassify, and declassify stands beside priv",
    }
}

/// What is said behind a quote of the place where this rule is broken.
pub(crate) fn rule_sentence(rule: Rule) -> &'static str
    ensures { result.now ≡ is.rule_sentence rule }
{
    match rule {
        Rule::OperationOnPriv => " is looked at, and it holds a secret",
        Rule::PrivToHost => " goes to an unmarked parameter of a host, and it holds a secret",
        Rule::PrivIntoUnpriv => " is marked unpriv, and a secret comes into it",
        Rule::SharedGlobal => " is a global that functions of both halves name",
        Rule::UnmarkedOut =>
            " gives something back from a privileged function, and is marked neither priv nor declassify",
        Rule::HostInMonitor =>
            " is called by a function that is marked priv, or that such a function calls, and the host has no mark",
        Rule::PrivToPlainParam =>
            " has or points to a secret, and goes to a parameter without priv",
        Rule::PrivStatus => " is returned as the status, and it holds a secret",
        Rule::PrivMain => " is marked priv",
    }
}

/// How it may be mended that this rule is broken.
pub(crate) fn rule_mend(rule: Rule) -> &'static str
    ensures { result.now ≡ is.rule_mend rule }
{
    match rule {
        Rule::OperationOnPriv =>
            "mend: do this in a function marked priv, or let it keep its type if it is only converted; add declassify only where everybody may know the result\n",
        Rule::PrivToHost =>
            "mend: give it what was declassified; if the host may have the secret, mark the parameter priv, and the host, too, where it returns nothing\n",
        Rule::PrivIntoUnpriv => "mend: take unpriv away, or keep the secret out of it\n",
        Rule::SharedGlobal =>
            "mend: let functions of one half alone name it, and hand its value over as an argument\n",
        Rule::UnmarkedOut =>
            "mend: mark it priv if what comes back is secret and declassify if it isn't, or let it point to const\n",
        Rule::HostInMonitor =>
            "mend: mark the host priv, or call it from a function that is neither marked nor called by one that is\n",
        Rule::PrivToPlainParam =>
            "mend: mark the parameter priv, or the field in which the secret lies, or pass what holds no secret\n",
        Rule::PrivStatus => "mend: return what holds no secret, since everyone sees the status\n",
        Rule::PrivMain => "mend: take priv away from main, and let it call functions marked priv\n",
    }
}

// The numbers by which outermost expressions are named.

/// An outermost expression of a program, one that stands in no other: numbered from 0 in text
/// order, functions in order, and in a function by the order of the text: a `for` has its first
/// part, its test, its step and then its body, a `do` its body before its test.
#[derive(Clone, Copy, Debug, PartialEq, Eq, PartialOrd, Ord)]
pub struct ExprId(pub u32);

// The numbers by which functions, variables and globals are named.

/// A function or host, numbered from 0 in the order of first declarations.
#[derive(Clone, Copy, Debug, PartialEq, Eq)]
pub struct FnId(pub u32);

/// A variable of one function, numbered from 0, its parameters first.
#[derive(Clone, Copy, Debug, PartialEq, Eq)]
pub struct VarId(pub u32);

/// A global, numbered from 0 in the order of declarations.
#[derive(Clone, Copy, Debug, PartialEq, Eq)]
pub struct GlobalId(pub u32);

// The faults of a program's declarations and types, and their order.
ghost use Rattle.std.specs.Prelude.{◌≡◌, ◌++◌, ◌↔◌, OnOk};
ghost use Rattle.std.specs.List.{Contains};
ghost use Rattle.std.specs.List.Sorted.{IsStrictlySortedBy};
ghost use Rattle.check_declarations.specs.declared.fault.TypeFault.{TypeFault};
ghost use Rattle.check_declarations.specs.Faults.{fault_cmp, fault_if};

use pt_base::Span;
use std::alloc::AllocError;

/// What is wrong.
#[derive(Clone, Copy, PartialEq, Eq, PartialOrd, Ord)]
pub enum FaultKind {
    /// A name, a tag or a field that isn't declared there.
    UnknownName,
    /// What was declared before: a name in the same scope, a tag, a field, a parameter. Or a function
    /// whose types differ from its earlier declaration's, or that has a second body.
    Redeclared,
    /// The operand of an assignment, of `++`, `--` or `&` designates no object.
    NotLvalue,
    /// A type that doesn't fit where it stands: an operand's, a condition's, a returned value's and the like.
    WrongType,
    /// A call with too few or too many arguments.
    ArgCount,
    /// A const object, or one with a const part, would be changed.
    ConstWrite,
    /// What this profile of C leaves out.
    OutOfProfile,
    /// There is no definition of `main`.
    NoMain,
    /// Too many cells.
    TooLarge,
    /// An attribute that can't stand there.
    BadAttribute,
}

impl FaultKind {
    ghost use Rattle.std.specs.Prelude.{◌≡◌};
    ghost use Rattle.check_declarations.specs.Faults.{fault_number, fault_name};

    /// The number of the kind, from 1 on.
    pub fn number(self) -> u8
        ensures { result ≡ fault_number self }
    {
        match self {
            FaultKind::UnknownName => 1,
            FaultKind::Redeclared => 2,
            FaultKind::NotLvalue => 3,
            FaultKind::WrongType => 4,
            FaultKind::ArgCount => 5,
            FaultKind::ConstWrite => 6,
            FaultKind::OutOfProfile => 7,
            FaultKind::NoMain => 8,
            FaultKind::TooLarge => 9,
            FaultKind::BadAttribute => 10,
        }
    }

    /// The name of the kind, as reports spell it.
    pub fn name(self) -> &'static str
        ensures { result.now ≡ fault_name self }
    {
        match self {
            FaultKind::UnknownName => "UnknownName",
            FaultKind::Redeclared => "Redeclared",
            FaultKind::NotLvalue => "NotLvalue",
            FaultKind::WrongType => "WrongType",
            FaultKind::ArgCount => "ArgCount",
            FaultKind::ConstWrite => "ConstWrite",
            FaultKind::OutOfProfile => "OutOfProfile",
            FaultKind::NoMain => "NoMain",
            FaultKind::TooLarge => "TooLarge",
            FaultKind::BadAttribute => "BadAttribute",
        }
    }
}

/// A fault of a type, with its place. Faults are ordered by where they begin, then by where they
/// end, then by the number of their kind.
#[derive(Clone, Copy, PartialEq, Eq, PartialOrd, Ord)]
pub struct TypeFault {
    pub span: Span,
    pub kind: FaultKind,
}

/// Adds a fault of this kind at this place, where something is wrong.
pub fn note_if(
    faults: &mut Vec<TypeFault>,
    wrong: bool,
    kind: FaultKind,
    span: Span,
) -> Result<(), AllocError>
    ensures { OnOk result (faults.new.items ≡ faults.old.items ++ fault_if wrong kind span) }
{
    if wrong {
        faults.push(TypeFault { span, kind })?;
    }
    Ok(())
}

/// Puts the faults in order and takes out those that stand twice.
pub fn arrange(faults: &mut Vec<TypeFault>)
    ensures sorted { IsStrictlySortedBy fault_cmp faults.new.items }
    ensures same { (f : TypeFault) → Contains faults.new.items f ↔ Contains faults.old.items f }
{
    faults.sort_unstable();
    faults.dedup();
}

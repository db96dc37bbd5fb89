// What is wrong with a host table, and the lines that report it.
use itoa::Buffer;
use pt_base::{FnId, Listed};
use std::alloc::{AllocError, AllocFailed, Global};
use std::fmt;
use thiserror::Error;
use typed_tree::Typed;

/// What is wrong with a host table.
#[derive(Clone, Copy)]
pub enum HostFault {
    /// The text is no JSON in UTF-8, or one that the reader refuses.
    NotJson,
    /// The function's entry has none of the five forms; where no function is given, the whole text
    /// isn't an object.
    Shape(Option<FnId>),
    /// The host has no entry.
    Missing(FnId),
    /// A number isn't one of its parameter's or the result's type.
    Range(FnId),
    /// The kind of the entry isn't one for the host's result, parameters and marks, or a row has
    /// another number of arguments.
    WrongParams(FnId),
    /// A host before this one reads the input too.
    TwoInputs(FnId),
    /// The text has more than [`TABLE_LIMIT`](crate::TABLE_LIMIT) bytes.
    TooLong,
}

impl HostFault {
    ghost use Rattle.std.specs.Prelude.{◌≡◌, ◌++◌, IfOk, OnOk, codes, option_map};
    ghost use Rattle.std.specs.Fmt.{decimal};
    ghost use Rattle.typed_tree.specs.TypedView.{view_typed};
    ghost use Rattle.host_table.specs.ReportLines.{fault_number, fault_name, faulty_function, faulty_name, report_line};

    /// The number of the fault, from 1 to 7.
    pub fn number(self) -> u8
        ensures { result ≡ fault_number self }
    {
        match self {
            HostFault::NotJson => 1,
            HostFault::Shape(_) => 2,
            HostFault::Missing(_) => 3,
            HostFault::Range(_) => 4,
            HostFault::WrongParams(_) => 5,
            HostFault::TwoInputs(_) => 6,
            HostFault::TooLong => 7,
        }
    }

    /// The name of the fault, as reports spell it.
    pub fn name(self) -> &'static str
        ensures { result.now ≡ fault_name self }
    {
        match self {
            HostFault::NotJson => "NotJson",
            HostFault::Shape(_) => "Shape",
            HostFault::Missing(_) => "Missing",
            HostFault::Range(_) => "Range",
            HostFault::WrongParams(_) => "WrongParams",
            HostFault::TwoInputs(_) => "TwoInputs",
            HostFault::TooLong => "TooLong",
        }
    }

    // The function whose entry has the fault.
    fn function(self) -> Option<FnId>
        ensures { result ≡ faulty_function self }
    {
        match self {
            HostFault::NotJson | HostFault::TooLong => None,
            HostFault::Shape(f) => f,
            HostFault::Missing(f)
            | HostFault::Range(f)
            | HostFault::WrongParams(f)
            | HostFault::TwoInputs(f) => Some(f),
        }
    }

    // The name of this function in the program.
    fn function_name(self, t: &Typed) -> Option<&[u8]>
        ensures { option_map (λ name. name.now) result ≡ faulty_name (view_typed t.now) self }
    {
        let signature = t.signature(self.function()?)?;
        Some(signature.name.as_slice())
    }

    // The number and the name of the fault.
    fn numbered_name(self, alloc: Global) -> Result<Vec<u8>, AllocError>
        ensures { IfOk result (λ line. line.items ≡ codes "host " ++ decimal (fault_number self) ++ codes " " ++ fault_name self) }
    {
        let mut buffer = Buffer::new();
        let mut line = Vec::from_slice(alloc, b"host ")?;
        line.extend_from_slice(buffer.format(self.number()).as_bytes())?;
        line.push(b' ')?;
        line.extend_from_slice(self.name().as_bytes())?;
        Ok(line)
    }

    /// The line that reports the fault, without a line feed: `host`, the fault's number and name,
    /// and the name of the function whose entry has it, if one has.
    pub fn report_line(self, alloc: Global, t: &Typed) -> Result<Vec<u8>, AllocError>
        ensures { IfOk result (λ line. line.items ≡ report_line (view_typed t.now) self) }
    {
        let mut line = self.numbered_name(alloc)?;
        if let Some(name) = self.function_name(t) {
            line.push(b' ')?;
            line.extend_from_slice(name)?;
        }
        Ok(line)
    }
}

/// Why a host table gives no hosts.
#[derive(Drop, Error)]
pub enum HostError {
    /// Its faults, at least one.
    #[error("the host table has faults")]
    Faults(Listed<HostFault>),
    /// Memory ran out.
    #[error("out of memory")]
    Memory,
}

impl fmt::Debug for HostError {
    fn fmt<W: fmt::Write>(&self, f: &mut fmt::Formatter<W>) -> fmt::Result {
        write!(f, "{self}")
    }
}

impl From<AllocError> for HostError {
    ghost use Rattle.std.specs.Prelude.{◌≡◌};
    ghost use Rattle.host_table.specs.declared.fault.HostError.TheVariants.{Memory};

    ghost from_gives = { λ _ e. e ≡ Memory };

    fn from(_: AllocError) -> Self {
        HostError::Memory
    }
}

impl<T: Drop> From<AllocFailed<T>> for HostError {
    ghost use Rattle.std.specs.Prelude.{◌≡◌};
    ghost use Rattle.host_table.specs.declared.fault.HostError.TheVariants.{Memory};

    ghost from_gives = { λ _ e. e ≡ Memory };

    fn from(_: AllocFailed<T>) -> Self {
        HostError::Memory
    }
}

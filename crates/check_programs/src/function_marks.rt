// What all declarations of a function say of it together.
ghost use Rattle.std.specs.Prelude.{◌≡◌, IfOk};
ghost use Rattle.pt_tree.specs.SpecifierTree.{view_specs};
ghost use Rattle.check_programs.specs.Unions as is;

use check_declarations::{Marks, attributes, marks_among};
use pt_base::Listed;
use pt_tree::Spec;
use std::alloc::{AllocError, Global};

/// The marks of parameters, by their position.
pub type ParamMarks = Listed<Marks>;

/// What all declarations of a function say of it together, those before and those after.
#[derive(Drop)]
pub struct FunctionMarks {
    /// It is marked `priv`.
    pub privileged: bool,
    /// It is marked `declassify`.
    pub declassify: bool,
    /// One of the declarations has a body.
    pub defined: bool,
    pub params: ParamMarks,
}

/// The marks among specifiers.
pub(crate) fn own_marks(alloc: Global, specs: &[Spec]) -> Result<Marks, AllocError>
    ensures { IfOk result (λ m. m ≡ is.own_marks (view_specs specs.now)) }
{
    let attributes = attributes(alloc, specs)?;
    Ok(marks_among(&attributes))
}

/// The marks of two declarations together.
pub(crate) fn both(a: Marks, b: Marks) -> Marks
    ensures { result ≡ is.both a b }
{
    Marks {
        marked: a.marked || b.marked,
        unpriv: a.unpriv || b.unpriv,
        declassify: a.declassify || b.declassify,
    }
}

/// No marks.
pub(crate) const NO_MARKS: Marks = Marks {
    marked: false,
    unpriv: false,
    declassify: false,
};

/// The marks at a position.
pub(crate) fn marks_at(marks: &[Marks], position: usize) -> Marks
    ensures { result ≡ is.marks_at marks.now position }
{
    match marks.get(position) {
        Some(m) => *m,
        None => NO_MARKS,
    }
}

// A slave of an accepted program never computes with a handle: in the classes that the program's
// marks give, its machine stays fine in each step and with each reply. So its handles lie under
// marks.

mod handles;

ghost use Rattle.handle_flow_law.specs.KeptLaws.{NoHandleIsComputedWith};

pub use handles::handles_lie_under_marks;

/// Whatever replies a slave of an accepted program is given, its next step computes with no handle,
/// by the marks of its own signatures.
pub fn no_handle_is_computed_with()
    ensures { NoHandleIsComputedWith }
{}

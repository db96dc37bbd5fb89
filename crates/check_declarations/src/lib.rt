//! What a declaration's specifiers and declarators make of a name, and the table of structs.
#![tactic(auto)]

mod bodies;
mod fault;
mod fields;
mod findings;
mod marks;
mod name_table;
mod objects;
mod specifiers;
mod structs;
mod words;

pub use fault::{FaultKind, TypeFault, arrange, note_if};
pub use findings::Findings;
pub use marks::{Attribute, Attributes, Carrier, Mark, Marks, marks_among, note_attributes};
pub use name_table::NameTable;
pub use objects::{
    ObjectKind, is_fixed, is_mutable_pointer, note_object, note_result, note_size, object_type,
    result_type,
};
pub use specifiers::{Specified, attributes, judge_specifiers};
pub use structs::{
    FieldEntry, Fields, FoundField, StructEntry, Structs, cells_of, declare_struct, field_named,
    has_const, struct_named,
};

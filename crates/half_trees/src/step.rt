// Steps into the parts of objects.

/// What leads into a part of an object: a field of a struct, or an element of an array.
#[derive(Clone, Copy)]
pub(crate) enum Step {
    Field { structure: u32, field: usize },
    Element(u32),
}

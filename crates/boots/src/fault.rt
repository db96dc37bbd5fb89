// Why bytes are no boot.

/// Why bytes give no boot.
#[derive(Clone, Copy)]
pub enum BootError {
    /// The bytes spell no well-formed boot.
    BadBoot,
    /// Memory ran out, or the boot has more than 1,048,576 nodes of code one inside the other.
    Memory,
}

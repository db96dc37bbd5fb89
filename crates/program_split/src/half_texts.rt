// What splitting a program gives.

/// The texts of a program's two halves.
#[derive(Drop)]
pub struct HalfTexts {
    pub slave: Vec<u8>,
    pub monitor: Vec<u8>,
}

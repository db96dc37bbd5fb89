// A checksum of bytes.

/// The checksum Adler-32 (RFC 1950) of bytes.
#[derive(Clone, Copy)]
pub struct Adler {
    a: u32,
    b: u32,
}

impl Adler {
    /// That of no byte.
    pub fn new() -> Adler {
        Adler { a: 1, b: 0 }
    }

    /// Adds bytes.
    pub fn feed(&mut self, bytes: &[u8]) {
        let (mut a, mut b) = (self.a, self.b);
        for byte in bytes {
            a = a.wrapping_add(u32::from(*byte)) % 65_521;
            b = b.wrapping_add(a) % 65_521;
        }
        self.a = a;
        self.b = b;
    }

    /// The checksum as a number.
    pub fn number(self) -> u32 {
        self.b.wrapping_shl(16) | self.a
    }
}

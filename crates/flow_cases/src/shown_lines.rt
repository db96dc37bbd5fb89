// Reports and pictures line by line, as rows show them.
use case_rows::push_shown;
use std::alloc::AllocError;

/// Of more lines than this only the first and the last [`ENDS`] are shown.
const MOST_LINES: usize = 60;

const ENDS: usize = 20;

/// So many bytes of a line are shown.
const MOST_BYTES: usize = 400;

/// What each sum of a checksum is taken modulo.
const MODULUS: u32 = 65_521;

/// Appends lines, each behind this mark. Where they are too many or too long for all to be shown, a last line has
/// the number of all bytes and their checksum Adler-32 (RFC 1950).
///
/// # Errors
///
/// Want of memory.
pub fn push_lines(told: &mut String, mark: &str, bytes: &[u8]) -> Result<(), AllocError> {
    let mut place = Place::new(bytes);
    for byte in bytes {
        if place.column == 0 {
            place.begin_line(told, mark)?;
        }
        if *byte == b'\n' {
            place.end_line(told)?;
        } else {
            place.push(told, *byte)?;
        }
    }
    if place.cut {
        push_sum(told, mark, bytes)?;
    }
    Ok(())
}

// Where in lines the next byte stands.
#[derive(Drop)]
struct Place {
    lines: usize,
    line: usize,
    column: usize,
    // something isn't shown
    cut: bool,
}

impl Place {
    // The beginning of these.
    fn new(bytes: &[u8]) -> Place {
        let mut lines = 0_usize;
        for byte in bytes {
            if *byte == b'\n' {
                lines = lines.saturating_add(1);
            }
        }
        Place {
            lines,
            line: 0,
            column: 0,
            cut: false,
        }
    }

    // The line is one between the first and the last ones.
    fn is_left_out(&self) -> bool {
        self.lines > MOST_LINES && self.line >= ENDS && self.line < self.lines.saturating_sub(ENDS)
    }

    fn begin_line(&mut self, told: &mut String, mark: &str) -> Result<(), AllocError> {
        if !self.is_left_out() {
            return write!(told, "\n{mark}");
        }
        self.cut = true;
        if self.line == ENDS {
            let count = self.lines.saturating_sub(ENDS).saturating_sub(ENDS);
            write!(told, "\n{mark}({count} lines are left out)")?;
        }
        Ok(())
    }

    fn push(&mut self, told: &mut String, byte: u8) -> Result<(), AllocError> {
        if !self.is_left_out() && self.column < MOST_BYTES {
            push_shown(told, byte)?;
        }
        self.column = self.column.saturating_add(1);
        Ok(())
    }

    fn end_line(&mut self, told: &mut String) -> Result<(), AllocError> {
        if !self.is_left_out() && self.column > MOST_BYTES {
            self.cut = true;
            write!(told, "... ({} bytes)", self.column)?;
        }
        self.line = self.line.saturating_add(1);
        self.column = 0;
        Ok(())
    }
}

fn push_sum(told: &mut String, mark: &str, bytes: &[u8]) -> Result<(), AllocError> {
    let mut a = 1_u32;
    let mut b = 0_u32;
    for byte in bytes {
        a = a.wrapping_add(u32::from(*byte)) % MODULUS;
        b = b.wrapping_add(a) % MODULUS;
    }
    write!(told, "\n{mark}({} bytes, sum {b:04x}{a:04x})", bytes.len())
}

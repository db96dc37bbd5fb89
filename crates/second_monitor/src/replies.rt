// What a monitor sends, read from its bytes by the table of messages.

/// How many replies these bytes are, each in its frame; none where they are anything else.
pub fn count_replies(sent: &[u8]) -> Option<u64> {
    let mut rest = sent;
    let mut count: u64 = 0;
    for _ in 0..sent.len() {
        if rest.is_empty() {
            break;
        }
        let (length, behind) = rest.split_first_chunk::<4>()?;
        let length = u32::from_be_bytes(*length);
        let (payload, behind) = behind.split_at_checked(length as usize)?;
        if !is_reply(payload) {
            return None;
        }
        count = count.wrapping_add(1);
        rest = behind;
    }
    Some(count)
}

// A result if there is one, a count and so many cells.
fn is_reply(payload: &[u8]) -> bool {
    let fields = match payload {
        [6, 0, fields @ ..] => Some(fields),
        [6, 1, fields @ ..] => behind_cell(fields),
        _ => None,
    };
    match fields {
        Some(fields) => are_cells(fields),
        None => false,
    }
}

fn are_cells(fields: &[u8]) -> bool {
    let Some((count, cells)) = fields.split_first_chunk::<4>() else {
        return false;
    };
    let mut rest = cells;
    for _ in 0..u32::from_be_bytes(*count) {
        match behind_cell(rest) {
            Some(behind) => rest = behind,
            None => return false,
        }
    }
    rest.is_empty()
}

// What comes behind a number or a handle.
fn behind_cell(fields: &[u8]) -> Option<&[u8]> {
    match fields {
        [0, rest @ ..] => rest.get(16..),
        [1, rest @ ..] => rest.get(8..),
        _ => None,
    }
}

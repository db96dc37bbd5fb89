// Space and comments.
ghost use Rattle.std.specs.Prelude.{◌≡◌, ◌==◌, ◌&&◌, ℕ, ◌≤◌, length, IfSome};
ghost use Rattle.std.specs.List.{prefix_len};
ghost use Rattle.c_lexer.specs.Bytes.{is_space};
ghost use Rattle.c_lexer.specs.Comments.{opens_comment, is_no_line_feed};
ghost use Rattle.c_lexer.specs.Next.{close_of};

/// Whether the byte is a space, a tab, a line feed, a vertical tab, a form feed or a carriage return.
pub fn is_space(byte: u8) -> bool
    ensures { result ≡ is_space byte }
{
    matches!(byte, 9..=13 | b' ')
}

/// Whether a comment begins there.
pub fn opens_comment(rest: &[u8]) -> bool
    ensures { result ≡ opens_comment rest.now }
{
    matches!(rest, [b'/', b'/' | b'*', ..])
}

/// How many bytes stand before the end of the line.
pub fn line_length(rest: &[u8]) -> usize
    ensures length { result ≡ prefix_len is_no_line_feed rest.now }
    ensures within { result ≤ length rest.now }
{
    let mut end = 0;
    while end < rest.len() && rest[end] != b'\n' {
        end += 1;
    }
    end
}

/// How many bytes there are up to past the first `*/`.
pub fn close(rest: &[u8]) -> Option<usize>
    ensures found { result ≡ close_of rest.now }
    ensures within { IfSome result (λ n. n ≤ length rest.now) }
{
    let mut at = 0;
    while at + 1 < rest.len() {
        if is_close(rest[at], rest[at + 1]) {
            return Some(at + 2);
        }
        at += 1;
    }
    None
}

fn is_close(first: u8, second: u8) -> bool
    ensures { result ≡ ((first == 42) && (second == 47)) }
{
    first == b'*' && second == b'/'
}

// The lines of a text, and the words of a line.
ghost use Rattle.std.specs.Prelude.{◌≡◌, ◌==◌, ◌≢◌, ◌<◌, ◌≤◌, ℕ, [], ◌∷◌, not, length, MatchOption, IfSome};
ghost use Rattle.std.specs.List.{prefix_len};
ghost use Rattle.policy.specs.Lines.{lines_of, words_of, is_blank, is_passed_over};

/// The first line of a text that isn't empty, and what follows its line feed.
pub fn first_line(text: &[u8]) -> (&[u8], &[u8])
    requires { 0 < length text.now }
    ensures lines { lines_of text.now ≡ result.0.now ∷ lines_of result.1.now }
    ensures shorter { length result.1.now < length text.now }
{
    let end = line_length(text);
    if end < text.len() {
        (&text[..end], &text[end + 1..])
    } else {
        (text, &[])
    }
}

// How many bytes stand before the first line feed.
fn line_length(text: &[u8]) -> usize
    ensures length { result ≡ prefix_len (λ b. not (b == 10)) text.now }
    ensures within { result ≤ length text.now }
{
    let mut end = 0;
    while end < text.len() && text[end] != b'\n' {
        end += 1;
    }
    end
}

/// Whether the line is empty or begins with `#`.
pub fn is_passed_over(line: &[u8]) -> bool
    ensures { result ≡ is_passed_over line.now }
{
    match line {
        [] => true,
        [first, ..] => *first == b'#',
    }
}

/// The first word of a line and what follows it, if the line has a word.
pub fn first_word(line: &[u8]) -> Option<(&[u8], &[u8])>
    ensures words { MatchOption result (words_of line.now ≡ [])
        (λ p. words_of line.now ≡ p.0.now ∷ words_of p.1.now) }
    ensures shorter { IfSome result (λ p. length p.1.now < length line.now) }
{
    let rest = &line[blank_length(line)..];
    if rest.is_empty() {
        return None;
    }
    Some(rest.split_at(word_length(rest)))
}

// How many blanks stand at the front.
fn blank_length(line: &[u8]) -> usize
    ensures length { result ≡ prefix_len is_blank line.now }
    ensures within { result ≤ length line.now }
{
    let mut end = 0;
    while end < line.len() && is_blank(line[end]) {
        end += 1;
    }
    end
}

// How many bytes stand before the first blank.
fn word_length(line: &[u8]) -> usize
    ensures length { result ≡ prefix_len (λ b. not (is_blank b)) line.now }
    ensures within { result ≤ length line.now }
{
    let mut end = 0;
    while end < line.len() && !is_blank(line[end]) {
        end += 1;
    }
    end
}

fn is_blank(byte: u8) -> bool
    ensures { result ≡ is_blank byte }
{
    byte == b' ' || byte == b'\t'
}

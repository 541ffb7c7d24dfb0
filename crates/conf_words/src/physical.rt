ghost use Rattle.std.specs.Prelude.{◌≡◌, ◌+◌, ◌<◌, ◌≤◌, ◌==◌, [], ◌∷◌, length, true, MatchOption};
ghost use Rattle.std.specs.List.{position};
ghost use Rattle.std.specs.Str.Lines.{lines, strip_carriage_return};
ghost use Rattle.conf_words.specs.Lines.{begins, continues, is_blank as blank, is_number_sign, line_count as count_of_lines, unindented as without_indent};
ghost use Rattle.conf_words.specs.Quoting.{is_space as space};

/// Whether a physical line is empty, or of spaces and tabs alone.
pub fn is_blank(line: &[u8]) -> bool
    ensures { result ≡ blank line.now }
{
    line.iter().all(|byte| is_space(*byte))
}

/// Whether a physical line continues the one before it, if there is one.
pub fn is_continuation(line: &[u8]) -> bool
    ensures { result ≡ continues line.now }
{
    match line.first() {
        Some(byte) => is_space(*byte) && !is_blank(line),
        None => false,
    }
}

/// Whether a physical line begins a comment.
pub fn begins_comment(line: &[u8]) -> bool
    ensures { result ≡ begins is_number_sign line.now }
{
    match line.first() {
        Some(byte) => *byte == b'#',
        None => false,
    }
}

/// A physical line without the spaces and tabs at its beginning.
pub fn unindented(line: &[u8]) -> &[u8]
    ensures { result.now ≡ without_indent line.now }
{
    let mut text = line;
    while let Some((byte, rest)) = text.split_first() {
        if !is_space(*byte) {
            break;
        }
        text = rest;
    }
    text
}

/// Whether a byte is a space or a tab.
fn is_space(byte: u8) -> bool
    ensures { result ≡ space byte }
{
    byte == b' ' || byte == b'\t'
}

/// The first physical line of a text, without its end, and what follows it; `None` where nothing is left.
pub fn cut_line(text: &[u8]) -> Option<(&[u8], &[u8])>
    ensures cut { MatchOption result (text.now ≡ []) (λ cut. lines text.now ≡ cut.0.now ∷ lines cut.1.now) }
    ensures shorter { MatchOption result (text.now ≡ []) (λ cut. length cut.1.now < length text.now) }
{
    if text.is_empty() {
        return None;
    }
    match first_line_feed(text) {
        Some(end) => Some((without_return(&text[..end]), &text[end + 1..])),
        None => Some((text, &text[text.len()..])),
    }
}

/// The index of the first line feed.
fn first_line_feed(text: &[u8]) -> Option<usize>
    ensures { result ≡ position (λ byte. byte == 10) text.now }
{
    text.iter().position(|byte| *byte == b'\n')
}

/// A line without the carriage return directly before its line feed.
fn without_return(line: &[u8]) -> &[u8]
    ensures { result.now ≡ strip_carriage_return line.now }
{
    match line.split_last() {
        Some((b'\r', front)) => front,
        _ => line,
    }
}

/// How many physical lines a text of at most 1,048,576 bytes has: those of `str::lines`, so 0 for the empty text.
pub fn line_count(text: &[u8]) -> u32
    requires { length text.now ≤ 1048576 }
    ensures { result ≡ count_of_lines text.now }
{
    let mut count = 0;
    let mut rest = text;
    while let Some((_, more)) = cut_line(rest) {
        rest = more;
        count += 1;
    }
    count
}

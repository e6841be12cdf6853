ghost use Rattle.std.specs.Prelude.{◌≡◌, ◌≤◌, length};
ghost use Rattle.std.specs.List.{position_or_len};
ghost use Rattle.gr_text.specs.Lines.{is_line_end, without_return_of};

/// How many bytes stand before the first line end, for readers that go through a text line by line.
///
/// In time linear in the line.
pub fn line_len(text: &[u8]) -> usize
    ensures count { result ≡ position_or_len is_line_end text.now }
    ensures within { result ≤ length text.now }
{
    for (i, b) in text.iter().enumerate() {
        if *b == b'\n' {
            return i;
        }
    }
    text.len()
}

/// A line without the carriage return at its end, so that lines that end in both are read as well.
///
/// In constant time.
pub fn without_return(line: &[u8]) -> &[u8]
    ensures { result.now ≡ without_return_of line.now }
{
    match line {
        [text @ .., b'\r'] => text,
        _ => line,
    }
}

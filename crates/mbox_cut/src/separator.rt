//! Which lines are separators.
ghost use Rattle.std.specs.Prelude.{◌≡◌, ◌==◌, length};
ghost use Rattle.mbox_cut.specs.Mbox.{begins_with_from, content_of};

/// Whether the content of a line, given with or without its line end, begins with `From `.
pub fn is_separator(line: &[u8]) -> bool
    ensures { result ≡ begins_with_from line.now }
{
    content(line).starts_with(b"From ")
}

// Whether a line has no bytes before its line end.
pub fn is_empty_line(line: &[u8]) -> bool
    ensures { result ≡ (length (content_of line.now) == 0) }
{
    content(line).is_empty()
}

// A line without its line end.
fn content(line: &[u8]) -> &[u8]
    ensures { result.now ≡ content_of line.now }
{
    if line.ends_with(b"\r\n") {
        &line[..line.len() - 2]
    } else if line.ends_with(b"\n") {
        &line[..line.len() - 1]
    } else {
        line
    }
}

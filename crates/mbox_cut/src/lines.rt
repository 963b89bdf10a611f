//! Where lines end.
ghost use Rattle.std.specs.Prelude.{◌<◌, length};
ghost use Rattle.mbox_cut.specs.Lines.{EndsLine};

use bstr::ByteSlice;

// Where the line that starts at a position ends: after its line feed, or at the end of the bytes.
pub fn end_of_line(bytes: &[u8], start: usize) -> usize
    requires { start < length bytes.now }
    ensures { EndsLine bytes.now start result }
{
    let rest = &bytes[start..];
    match rest.find_byte(b'\n') {
        Some(feed) => start + feed + 1,
        None => bytes.len(),
    }
}

// Spaces in the place of bytes.

ghost use Rattle.std.specs.Prelude.{◌≡◌, ◌+◌, ◌≤◌, length, if◌then◌else◌};
ghost use Rattle.cv_alone.specs.Alone.{is_among, is_in_line, with_spaces};

/// Puts spaces in the place of so many bytes, from one on.
pub fn put_spaces(bytes: &mut [u8], from: usize, count: usize)
    requires { from + count ≤ length bytes.old }
    ensures { bytes.new ≡ with_spaces (λ at _. is_among from count at) bytes.old }
{
    bytes[from..from + count].fill(b' ');
}

// A space, or the byte of a line end.
fn without_text(byte: u8) -> u8
    ensures { result ≡ (if is_in_line byte then 32 else byte) }
{
    if byte == b'\n' || byte == b'\r' {
        byte
    } else {
        b' '
    }
}

/// Leaves nothing but line ends.
pub fn erase(bytes: &mut [u8])
    ensures { bytes.new ≡ with_spaces (λ _ byte. is_in_line byte) bytes.old }
{
    'bytes: for byte in bytes.iter_mut() {
        *byte = without_text(*byte);
    }
}

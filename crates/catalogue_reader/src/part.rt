// The part of a file that a reader reads.
ghost use Rattle.std.specs.Prelude.{◌≡◌, ◌+◌, ◌≤◌, length, take, drop};

// A part of a file.
pub fn cut(file: &[u8], offset: usize, size: usize) -> &[u8]
    requires { offset + size ≤ length file.now }
    ensures { result.now ≡ take size (drop offset file.now) }
{
    let end = offset + size;
    &file[offset..end]
}

// Bytes at a place in a slice.
ghost use Rattle.std.specs.Prelude.{◌≡◌, ◌≤◌, ◌+◌, ◌++◌, length, take, drop};

// Writes bytes over what is at a place.
pub(crate) fn copy_to(buf: &mut [u8], at: usize, bytes: &[u8])
    requires { at + length bytes.now ≤ length buf.old }
    ensures start { take (at + length bytes.now) buf.new ≡ take at buf.old ++ bytes.now }
    ensures behind { drop (at + length bytes.now) buf.new ≡ drop (at + length bytes.now) buf.old }
{
    buf[at..at + bytes.len()].copy_from_slice(bytes);
}

// A buffer whose front is overwritten.
ghost use Rattle.std.specs.Prelude.{◌≡◌, ℕ, ◌≤◌, ◌++◌, length, take, drop};

/// Copies the bytes to the front of `buf`.
pub(crate) fn put_front(buf: &mut [u8], bytes: &[u8])
    requires { length bytes.now ≤ length buf.old }
    ensures front { take (length bytes.now) buf.new ≡ bytes.now }
    ensures room { length buf.new ≡ length buf.old }
    ensures rest { drop (length bytes.now) buf.new ≡ drop (length bytes.now) buf.old }
{
    buf[..bytes.len()].copy_from_slice(bytes);
}

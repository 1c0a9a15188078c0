// Bytes put into an output that the caller lends.
ghost use Rattle.std.specs.Prelude.{◌≡◌, ◌+◌, ◌≤◌, length};
ghost use Rattle.text.specs.Lay.{lay};

// Lays bytes over the output from place i on.
pub fn put_bytes(out: &mut [u8], i: usize, bytes: &[u8])
    requires { i + length bytes.now ≤ length out.old }
    ensures { out.new ≡ lay out.old i bytes.now }
{
    out[i..i + bytes.len()].copy_from_slice(bytes);
}

// Numbers at places that are known to be inside: what another crate calls asks nothing of its caller.
ghost use Rattle.std.specs.Prelude.{◌≡◌, ◌+◌, ◌≤◌, length};
ghost use Rattle.sections.specs.Edit.{part, overwrite};
ghost use Rattle.sections.specs.Le.{le, bytes};

pub fn u16_at(b: &[u8], off: usize) -> u16
    requires { off + 2 ≤ length b.now }
    ensures { result ≡ le (part b.now off 2) }
{
    u16::from_le_bytes([b[off], b[off + 1]])
}

pub fn u32_at(b: &[u8], off: usize) -> u32
    requires { off + 4 ≤ length b.now }
    ensures { result ≡ le (part b.now off 4) }
{
    u32::from_le_bytes([b[off], b[off + 1], b[off + 2], b[off + 3]])
}

pub fn set_u32(b: &mut [u8], off: usize, v: u32)
    requires { off + 4 ≤ length b.old }
    ensures { b.new ≡ overwrite b.old off (bytes 4 v) }
{
    b[off..off + 4].copy_from_slice(&v.to_le_bytes());
}

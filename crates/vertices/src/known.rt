// Numbers at a place that is known to lie inside the slice. Of this crate: what another crate calls asks nothing of its caller.
#![tactic(auto, using(crate::proofs::ByteRunLaws::byte_steps))]

ghost use Rattle.std.specs.Prelude.{◌≡◌, ℕ, ◌<◌, ◌+◌, ◌≤◌, length};
ghost use Rattle.std.proofs.Common.{rules};
ghost use Rattle.sections.specs.Edit.{part, overwrite};
ghost use Rattle.sections.specs.Le.{le, bytes};

// A number stored as its little-endian bytes, at a place of a slice: what a run of them leaves is said of the whole slice. Three implementations and no macro:
// the gate refuses an `impl` that a macro of the repository writes.
pub trait Stored: Copy {
    ghost WIDTH: { ℕ };

    const WIDTH: usize;

    ghost number: { Self → ℕ };

    fn get(b: &[u8], off: usize) -> Self
        requires { off + WIDTH ≤ length b.now }
        ensures { number result ≡ le (part b.now off WIDTH) };

    fn set(self, b: &mut [u8], off: usize)
        requires { off + WIDTH ≤ length b.old }
        ensures { b.new ≡ overwrite b.old off (bytes WIDTH (number self)) };

    ghost some_bytes: { 0 < WIDTH };
}

impl Stored for u8 {
    ghost WIDTH = { 1 };

    const WIDTH: usize = 1;

    ghost number = { λ x. x };

    ghost some_bytes = { Prim.search rules };

    fn get(b: &[u8], off: usize) -> u8 {
        b[off]
    }

    fn set(self, b: &mut [u8], off: usize) {
        b[off] = self;
    }
}

impl Stored for u16 {
    ghost WIDTH = { 2 };

    const WIDTH: usize = 2;

    ghost number = { λ x. x };

    ghost some_bytes = { Prim.search rules };

    fn get(b: &[u8], off: usize) -> u16 {
        u16::from_le_bytes([b[off], b[off + 1]])
    }

    fn set(self, b: &mut [u8], off: usize) {
        b[off..off + 2].copy_from_slice(&self.to_le_bytes());
    }
}

impl Stored for u32 {
    ghost WIDTH = { 4 };

    const WIDTH: usize = 4;

    ghost number = { λ x. x };

    ghost some_bytes = { Prim.search rules };

    fn get(b: &[u8], off: usize) -> u32 {
        u32::from_le_bytes([b[off], b[off + 1], b[off + 2], b[off + 3]])
    }

    fn set(self, b: &mut [u8], off: usize) {
        b[off..off + 4].copy_from_slice(&self.to_le_bytes());
    }
}

// Values by value. A float is carried as its 32 bits, so that a NaN keeps its sign and payload.
ghost use Rattle.std.specs.Prelude.{◌≡◌};

#[derive(Clone, Copy, Debug, PartialEq, Eq)]
pub struct F32 {
    pub bits: u32,
}

#[derive(Clone, Copy, Debug, PartialEq, Eq)]
pub struct Vec2 {
    pub x: F32,
    pub y: F32,
}

#[derive(Clone, Copy, Debug, PartialEq, Eq)]
pub struct Vec3 {
    pub x: F32,
    pub y: F32,
    pub z: F32,
}

#[derive(Clone, Copy, Debug, PartialEq, Eq)]
pub struct Vec4 {
    pub x: F32,
    pub y: F32,
    pub z: F32,
    pub w: F32,
}

// Four bytes, in the order in which the data holds them. The original's `[u8; 4]` as a struct, since contracts name its places, as those of a Vec4; the
// conversions to and from an array would be longer than the four places that spell them out.
#[derive(Clone, Copy, Debug, PartialEq, Eq)]
pub struct Bytes4 {
    pub a: u8,
    pub b: u8,
    pub c: u8,
    pub d: u8,
}

// The bits of infinity. What is above them, the sign left out, is a NaN's.
pub(crate) const INFINITY: u32 = 0x7F80_0000;

// The sign's bit.
pub(crate) const SIGN: u32 = 0x8000_0000;

impl F32 {
    pub const ZERO: F32 = F32 { bits: 0 };

    pub const ONE: F32 = F32 { bits: 0x3F80_0000 };
}

impl Bytes4 {
    pub const WHITE: Bytes4 = Bytes4 {
        a: 255,
        b: 255,
        c: 255,
        d: 255,
    };
}

// `new` and `of` stand at each of the three: the gate refuses an `impl` that a macro of the repository writes, and an array's places have no names.
impl Vec2 {
    pub(crate) fn new(x: F32, y: F32) -> Self
        ensures { result ≡ record { x = x; y = y } }
    {
        Self { x, y }
    }

    // Of the elements 0 and 1.
    pub(crate) fn of<E: Fn(usize) -> F32>(element: E) -> Self
        requires { E.pre element 0 × E.pre element 1 }
        ensures { E.post element 0 result.x × E.post element 1 result.y }
    {
        Self {
            x: element(0),
            y: element(1),
        }
    }
}

impl Vec3 {
    pub const ZERO: Vec3 = Vec3 {
        x: F32::ZERO,
        y: F32::ZERO,
        z: F32::ZERO,
    };

    pub(crate) fn new(x: F32, y: F32, z: F32) -> Self
        ensures { result ≡ record { x = x; y = y; z = z } }
    {
        Self { x, y, z }
    }

    // Of the elements 0 to 2.
    pub(crate) fn of<E: Fn(usize) -> F32>(element: E) -> Self
        requires { E.pre element 0 × E.pre element 1 × E.pre element 2 }
        ensures { E.post element 0 result.x × E.post element 1 result.y × E.post element 2 result.z }
    {
        Self {
            x: element(0),
            y: element(1),
            z: element(2),
        }
    }
}

impl Vec4 {
    pub fn new(x: F32, y: F32, z: F32, w: F32) -> Self
        ensures { result ≡ record { x = x; y = y; z = z; w = w } }
    {
        Self { x, y, z, w }
    }

    // Of the elements 0 to 3.
    pub(crate) fn of<E: Fn(usize) -> F32>(element: E) -> Self
        requires { E.pre element 0 × E.pre element 1 × E.pre element 2 × E.pre element 3 }
        ensures { E.post element 0 result.x × E.post element 1 result.y × E.post element 2 result.z × E.post element 3 result.w }
    {
        Self {
            x: element(0),
            y: element(1),
            z: element(2),
            w: element(3),
        }
    }

    // The first three, without w.
    pub fn xyz(self) -> Vec3
        ensures { result ≡ record { x = self.x; y = self.y; z = self.z } }
    {
        Vec3::new(self.x, self.y, self.z)
    }
}

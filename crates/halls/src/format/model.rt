// What a model's skeleton binding says.
ghost use Rattle.std.specs.Prelude.{◌≡◌, not, ◌/◌, ◌%◌, ◌^◌, eqb};

// The bone that a model hangs off: the top byte of the binding.
pub fn bone_index(skeleton_binding: u32) -> u8
    ensures { result ≡ skeleton_binding / 2 ^ 24 }
{
    let [_, _, _, top] = skeleton_binding.to_le_bytes();
    top
}

// Whether its vertices are skinned, so that no single bone moves them: byte 1 of the binding is not 0.
pub fn is_skinned(skeleton_binding: u32) -> bool
    ensures { result ≡ not (eqb (skeleton_binding / 2 ^ 8 % 256) 0) }
{
    let [_, skinned, _, _] = skeleton_binding.to_le_bytes();
    skinned != 0
}

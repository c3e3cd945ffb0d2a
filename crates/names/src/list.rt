//! A list of names.
ghost use Rattle.std.specs.Prelude.{◌≡◌, ◌≤◌, length};
ghost use Rattle.names.specs.Limits.{max_names};

/// The most names of a list.
pub const MAX_NAMES: usize = 16;

/// Names in the order of their declaration, at most 16. They borrow their bytes from the text.
// Kept as an array with a count: a list of the kit's `arrayvec` would rest on that crate's statements too.
#[derive(Drop)]
pub struct NameList<'a> {
    pub names: [&'a [u8]; MAX_NAMES],
    pub count: usize,
    ghost few: { count ≤ max_names },
    ghost long: { length names ≡ max_names },
}

//! The stack's own record.
ghost use Rattle.std.specs.Prelude.{◌≤◌, length};

/// A stack over a lent slice, its room: the first `len` places of the room are taken, the last of them by the top.
// Kept over a lent slice: the memory of a judge's call is lent or fixed.
#[derive(Drop)]
pub struct Stack<'a, T> {
    pub room: &'a mut [T],
    pub len: usize,
    ghost ok: { len ≤ length room.now },
}

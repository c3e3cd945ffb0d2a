//! A stack over a lent slice of any element type: last in, first out, and full when every place of its room is taken.
//! Refused are exactly a push when full and a pop when empty; a refusal changes nothing.
#![tactic(auto)]

ghost use Rattle.std.specs.Prelude.{◌≡◌, ◌+◌, ◌-◌, ◌<◌, [], ◌∷◌, length, set, Some, None, Ok, Err, MatchBool, ◌==◌, slice_index_or, slice_set};
ghost use Rattle.stack.specs.Held.{held, places, top_of, with_top};

mod room;

pub use room::Stack;

impl<'a, T: Copy> Stack<'a, T> {
    /// An empty stack over the room.
    pub fn new(room: &'a mut [T]) -> Stack<'a, T>
        ensures holds { held result ≡ [] }
        ensures over { result.room.now ≡ room.old }
        ensures lent { result.room.ghost_name ≡ room.entry.ghost_name }
    {
        Stack { room, len: 0 }
    }

    /// How many elements it holds.
    pub fn len(&self) -> usize
        ensures { result ≡ length (held self.now) }
    {
        self.len
    }

    /// How many elements it has room for.
    pub fn places(&self) -> usize
        ensures { result ≡ places self.now }
    {
        self.room.len()
    }

    pub fn is_empty(&self) -> bool
        ensures { result ≡ (length (held self.now) == 0) }
    {
        self.len == 0
    }

    /// Puts `x` on top, or hands it back where the stack is full.
    pub fn push(&mut self, x: T) -> Result<(), T>
        // Kept in three contracts: that the loan stays is said of two states, and no invariant or view of one can say it.
        ensures lent { self.new.room.ghost_name ≡ self.old.room.ghost_name }
        ensures kept { places self.new ≡ places self.old }
        ensures cases { elim result [ Ok _ ↦ (length (held self.old) < places self.old) × (held self.new ≡ x ∷ held self.old) × (self.new.room.now ≡ slice_set self.old.room.now (length (held self.old)) x) | Err y ↦ (length (held self.old) ≡ places self.old) × (y ≡ x) × (self.new ≡ self.old) ] }
    {
        if self.len == self.room.len() {
            return Err(x);
        }
        self.room[self.len] = x;
        self.len += 1;
        Ok(())
    }

    /// Takes the top away, or answers `None` where the stack is empty. The room keeps what it holds.
    pub fn pop(&mut self) -> Option<T>
        ensures lent { self.new.room.ghost_name ≡ self.old.room.ghost_name }
        ensures kept { self.new.room.now ≡ self.old.room.now }
        ensures cases { elim result [ None ↦ (held self.old ≡ []) × (self.new ≡ self.old) | Some x ↦ held self.old ≡ x ∷ held self.new ] }
    {
        let top = self.top()?;
        self.len -= 1;
        Some(top)
    }

    /// The top, which stays.
    pub fn top(&self) -> Option<T>
        ensures { result ≡ top_of (held self.now) }
    {
        self.room[..self.len].last().copied()
    }

    /// Puts `x` in place of the top, and answers what was there; `None` where the stack is empty, which then stays so.
    pub fn replace_top(&mut self, x: T) -> Option<T>
        ensures lent { self.new.room.ghost_name ≡ self.old.room.ghost_name }
        ensures kept { places self.new ≡ places self.old }
        ensures old { result ≡ top_of (held self.old) }
        ensures new { held self.new ≡ with_top x (held self.old) }
        ensures put { elim result [ None ↦ self.new ≡ self.old | Some _ ↦ self.new.room.now ≡ set self.old.room.now (length (held self.old) - 1) x ] }
    {
        let top = self.top()?;
        self.room[self.len - 1] = x;
        Some(top)
    }
}

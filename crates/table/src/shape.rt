ghost use Rattle.std.specs.Prelude.{◌≡◌, Some, None};
ghost use Rattle.table.specs.Bounds.{FewEnough, GoodStart};

/// The counts of a table, within the bounds of a system, and its start state.
#[derive(Clone, Copy)]
pub struct Shape {
    pub(crate) processes: u8,
    pub(crate) classes: u8,
    pub(crate) commands: u8,
    pub(crate) states: u32,
    pub(crate) start: u32,
    ghost few: { FewEnough processes classes commands },
    ghost starts: { GoodStart states start },
}

impl Shape {
    /// The shape of these counts, or none where they are out of bounds or the start is no state.
    pub fn new(processes: u8, classes: u8, commands: u8, states: u32, start: u32) -> Option<Shape>
        ensures { elim result [
          | None ↦ (FewEnough processes classes commands × GoodStart states start → ⊥)
          | Some h ↦ (h.processes ≡ processes) × (h.classes ≡ classes) × (h.commands ≡ commands) × (h.states ≡ states) × (h.start ≡ start)
        ] }
    {
        if !(1..=8).contains(&processes) || classes > 16 || commands > 64 {
            return None;
        }
        if states > 65536 || start >= states {
            return None;
        }
        Some(Shape {
            processes,
            classes,
            commands,
            states,
            start,
        })
    }
}

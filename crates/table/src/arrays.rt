use super::shape::Shape;
use system::Region;

/// A lock written out: the successor of each state by each command, state by state; the class of each
/// command; and the region of each process in each state, state by state.
#[derive(Clone, Copy)]
pub struct Table<'a> {
    pub shape: Shape,
    pub successors: &'a [Option<u32>],
    pub classed: &'a [Option<u8>],
    pub regions: &'a [Region],
}

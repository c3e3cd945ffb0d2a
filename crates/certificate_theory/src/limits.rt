/// What the fields of a certificate are measured by: the kind byte and the numbers of a rank, and the counts of
/// processes, classes and states of the system.
#[derive(Clone, Copy)]
pub struct Limits {
    pub kind: u8,
    pub numbers: u8,
    pub processes: u8,
    pub classes: u8,
    pub states: u32,
}

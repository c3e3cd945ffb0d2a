/// The clauses of the rank rule.
#[derive(Clone, Copy)]
pub enum Clause {
    StartListed,
    NoListedClash,
    SuccessorsListed,
    RowsExact,
    ClassesEnabled,
    RanksFall,
}

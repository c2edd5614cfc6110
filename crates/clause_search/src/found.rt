//! What a search comes to.

/// What a search comes to.
#[derive(Drop)]
pub enum Found {
    /// No assignment satisfies the clauses.
    Refuted,
    /// These values satisfy them, that of variable 1 first.
    Satisfied(Vec<bool>),
    /// Neither, after as many conflicts as were allowed.
    Spent,
}

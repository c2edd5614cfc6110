//! How a search works where the words do not say.

/// How a search works where the words do not say: the word of its strategy, and how many cubes it
/// may close, in digits.
#[derive(Clone, Copy)]
pub struct SearchDefaults {
    pub strategy: &'static str,
    pub budget: &'static str,
}

/// How `check` and `explain` search where the words do not say.
pub const CHECK_DEFAULTS: SearchDefaults = SearchDefaults {
    strategy: "first",
    budget: "10000",
};

/// How `audit` searches where the words do not say.
pub const AUDIT_DEFAULTS: SearchDefaults = SearchDefaults {
    strategy: "forced",
    budget: "100000",
};

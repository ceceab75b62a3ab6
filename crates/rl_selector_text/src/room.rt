//! What the rest of a query text may still have.
/// How many more there may be: parentheses that are open at once, stages and label tests.
#[derive(Clone, Copy)]
pub struct Room {
    pub depth: usize,
    pub stages: usize,
    pub tests: usize,
}

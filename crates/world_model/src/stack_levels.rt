/// Which levels had a stack at some moment.
#[derive(Clone, Copy)]
pub struct StackLevels {
    /// Whether a level had one, by its number from 0 on.
    pub has_stack: [bool; 33],
}

use world_model::StackLevels;

/// What a mark carries: what was there when it was made.
#[derive(Clone, Copy)]
pub struct Moment {
    /// Which levels had a stack.
    pub levels: StackLevels,
    /// The address of the next block.
    pub next_block: u64,
}

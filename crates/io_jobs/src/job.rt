/// What a worker takes to execute a handler.
pub enum Job<T> {
    /// The strand at this place: its first operation.
    Strand(u32),
    /// An operation without a strand.
    Own(T),
}

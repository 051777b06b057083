/// The first of some operations: its number, and its place.
#[derive(Clone, Copy)]
pub(crate) struct First {
    pub(crate) op: u64,
    pub(crate) place: u32,
}

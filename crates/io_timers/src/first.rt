/// The first wait of a timer: when it is due, and its number.
#[derive(Clone, Copy)]
pub(crate) struct First {
    pub(crate) expiry: u64,
    pub(crate) op: u64,
    // the place of its timer
    pub(crate) timer: u32,
}

use asio_types::{Code, OpNo};

/// What a worker sees of an operation that is ready for its handler (Asio reference, Overview, "The
/// Proactor Design Pattern"): with which `error_code` and how many bytes it completed. A posting is
/// ready with `Code::Ok` and 0 as soon as it is called.
#[derive(Clone, Copy, Debug, PartialEq, Eq)]
pub struct Receipt {
    /// The operation.
    pub op: OpNo,
    /// Where it stands among the operations of its lane, in the order in which they became ready.
    pub place: u32,
    /// Its `error_code`.
    pub code: Code,
    /// How many bytes were transferred.
    pub size: u32,
}

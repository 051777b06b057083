use io_reactor::Readiness;

/// What an edge tells of a side, by whether more comes, whether a call has to wait for some of it, and
/// whether an end comes behind.
pub(crate) fn ahead(more: bool, waits: bool, ends: bool) -> Readiness {
    if ends && !waits {
        Readiness::Closed
    } else if more {
        Readiness::Ready
    } else {
        Readiness::Same
    }
}

use io_reactor::{Edge, Edges, Readiness};
use io_rules::Name;
use std::sync::atomic::{AtomicU64, Ordering};

/// The edges of a place that aren't reported yet, each as the generation of its socket and one more, or
/// 0. Any thread puts them there.
#[derive(Drop)]
pub(crate) struct PlaceEdges {
    place: u32,
    read_ready: AtomicU64,
    read_closed: AtomicU64,
    write_ready: AtomicU64,
    write_closed: AtomicU64,
}

/// Reports the edge that a word holds, if it holds one, and if there is room.
fn report(word: &AtomicU64, place: u32, read: Readiness, write: Readiness, edges: &mut Edges) {
    if edges.is_full() {
        return;
    }
    let Some(held) = word.swap(0, Ordering::SeqCst).checked_sub(1) else {
        return;
    };
    let Ok(generation) = u32::try_from(held) else {
        return;
    };
    let name = Name { place, generation };
    edges.push_reserved(Edge { name, read, write });
}

fn put(ready: &AtomicU64, closed: &AtomicU64, readiness: Readiness, generation: u32) {
    let held = generation as u64 + 1;
    match readiness {
        Readiness::Same => {}
        Readiness::Ready => ready.store(held, Ordering::SeqCst),
        Readiness::Closed => closed.store(held, Ordering::SeqCst),
    }
}

impl PlaceEdges {
    pub(crate) fn at(place: u32) -> PlaceEdges {
        PlaceEdges {
            place,
            read_ready: AtomicU64::new(0),
            read_closed: AtomicU64::new(0),
            write_ready: AtomicU64::new(0),
            write_closed: AtomicU64::new(0),
        }
    }

    /// An edge of reads, or of accepts.
    pub(crate) fn put_read(&self, readiness: Readiness, generation: u32) {
        put(&self.read_ready, &self.read_closed, readiness, generation);
    }

    /// An edge of writes, or of a connect.
    pub(crate) fn put_write(&self, readiness: Readiness, generation: u32) {
        put(&self.write_ready, &self.write_closed, readiness, generation);
    }

    /// Reports those for which there is room.
    pub(crate) fn report(&self, edges: &mut Edges) {
        let same = Readiness::Same;
        report(&self.read_ready, self.place, Readiness::Ready, same, edges);
        report(
            &self.read_closed,
            self.place,
            Readiness::Closed,
            same,
            edges,
        );
        report(&self.write_ready, self.place, same, Readiness::Ready, edges);
        report(
            &self.write_closed,
            self.place,
            same,
            Readiness::Closed,
            edges,
        );
    }
}

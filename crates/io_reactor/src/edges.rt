ghost use Rattle.std.specs.Prelude.{◌≡◌, ◌<◌, ◌≤◌, ◌↔◌, ◌∷◌, ◌++◌, [], length, IfOk, IsTrue};
ghost use Rattle.io_reactor.specs.Edges.{most_edges};

use asio_types::NoMemory;
use io_rules::Name;
use std::alloc::Global;
use std::marker::Model;

/// The most edges that one call of `poll` reports; what more is ready is reported by later ones.
pub const MOST_EDGES: usize = 256;

/// What became of one side of a socket.
#[derive(Clone, Copy, Debug, PartialEq, Eq)]
pub enum Readiness {
    /// Nothing.
    Same,
    /// A call is worth trying. It may still have to wait.
    Ready,
    /// The same, and the side is closed or failed: an end or an error comes behind what is there.
    Closed,
}

/// What became ready of a socket (Asio reference, `basic_socket::wait_type`).
#[derive(Clone, Copy, Debug, PartialEq, Eq)]
pub struct Edge {
    /// What the socket was made under.
    pub name: Name,
    /// Its reads, and a listener's accepts (`wait_read`).
    pub read: Readiness,
    /// Its writes, and its connect (`wait_write`).
    pub write: Readiness,
}

/// What a call of `poll` reports, in memory that is taken once. Contracts see the edges.
#[derive(Drop)]
pub struct Edges {
    edges: Vec<Edge>,
}

impl Model for Edges {
    ghost use Rattle.std.specs.Prelude.{List, ◌≤◌, length, vec_capacity};
    ghost use Rattle.io_reactor.specs.Edges.{most_edges};
    ghost use Rattle.io_reactor.specs.declared.edges.Edge.{Edge};

    ghost Value = { List Edge };

    ghost view = { λ e. e.edges.items };

    ghost invariant = { λ e. (length e.edges.items ≤ most_edges)
        × (most_edges ≤ vec_capacity e.edges) };
}

impl Edges {
    /// None, with memory for as many as a call of `poll` reports.
    pub fn make(alloc: Global) -> Result<Edges, NoMemory>
        ensures { IfOk result (λ edges. edges ≡ []) }
    {
        let edges = Vec::with_capacity(alloc, MOST_EDGES)?;
        Ok(Edges { edges })
    }

    /// Those of the latest `poll`.
    pub fn as_slice(&self) -> &[Edge]
        ensures { result.now ≡ self.now }
    {
        self.edges.as_slice()
    }

    /// Forgets them.
    pub fn clear(&mut self)
        ensures { self.new ≡ [] }
    {
        self.edges.clear();
    }

    /// Whether there is room for no other.
    pub fn is_full(&self) -> bool
        ensures { IsTrue result ↔ (most_edges ≤ length self.now) }
    {
        self.edges.len() >= MOST_EDGES
    }

    /// One more. Takes no memory.
    pub fn push_reserved(&mut self, edge: Edge)
        requires { length self.old < most_edges }
        ensures { self.new ≡ self.old ++ edge ∷ [] }
    {
        self.edges.push_reserved(edge);
    }
}

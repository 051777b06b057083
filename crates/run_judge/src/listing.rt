use run_lines::Kind;
use run_names::Names;
use run_overlaps::Claim;
use std::alloc::{AllocError, Global};
use std::collections::HashMap;

/// Claims of one thing that are told of together: by handlers of one name on one strand, or outside on
/// one thread.
#[derive(Clone, Copy, Debug, PartialEq, Eq)]
pub struct Group {
    /// The first of them.
    pub first: Claim,
    pub count: u64,
}

/// The claims of a thing.
#[derive(Drop)]
pub struct Listing {
    pub thing: u64,
    pub count: u64,
    pub groups: Vec<Group>,
}

/// The things of a run, in the order of their first claims.
#[derive(Drop)]
pub struct Things {
    pub all: Vec<Listing>,
    by_thing: HashMap<u64, usize>,
}

/// Whether two claims are by handlers of one name, or by none.
fn has_one_name(names: &Names, one: &Claim, other: &Claim) -> bool {
    match (one.op, other.op) {
        (Some(first), Some(second)) => names.of(Kind::Op, first) == names.of(Kind::Op, second),
        (None, None) => one.thread == other.thread,
        _ => false,
    }
}

fn put_claim(names: &Names, groups: &mut Vec<Group>, claim: &Claim) -> Result<(), AllocError> {
    for group in groups.iter_mut() {
        if group.first.strand == claim.strand && has_one_name(names, &group.first, claim) {
            group.count = group.count.saturating_add(1);
            return Ok(());
        }
    }
    groups.push(Group {
        first: *claim,
        count: 1,
    })?;
    Ok(())
}

impl Things {
    fn put(&mut self, alloc: Global, names: &Names, claim: &Claim) -> Result<(), AllocError> {
        let at = match self.by_thing.get(&claim.thing).copied() {
            Some(at) => at,
            None => {
                let at = self.all.len();
                self.all.push(Listing {
                    thing: claim.thing,
                    count: 0,
                    groups: Vec::new(alloc),
                })?;
                self.by_thing.insert(claim.thing, at)?;
                at
            }
        };
        match self.all.get_mut(at) {
            Some(listing) => {
                listing.count = listing.count.saturating_add(1);
                put_claim(names, &mut listing.groups, claim)
            }
            None => Ok(()),
        }
    }
}

/// The things that these claims are of.
pub fn list_things(alloc: Global, names: &Names, claims: &[Claim]) -> Result<Things, AllocError> {
    let mut things = Things {
        all: Vec::new(alloc),
        by_thing: HashMap::new(alloc),
    };
    for claim in claims {
        things.put(alloc, names, claim)?;
    }
    Ok(things)
}

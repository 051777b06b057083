use crate::watch::Watch;
use run_lines::{Doing, Line};
use run_rules::Frame;
use std::alloc::{AllocError, Global};

/// A claim of a run: by which execution, on which strand, or outside on which thread.
#[derive(Clone, Copy, Debug, PartialEq, Eq)]
pub struct Claim {
    pub thing: u64,
    pub thread: u64,
    pub op: Option<u64>,
    pub strand: Option<u64>,
}

/// A claim of a thing, which is the next line of this thread.
fn claim_of(watch: &Watch, thread: u64, thing: u64) -> Claim {
    let op = match watch.frame(thread) {
        Frame::Execution { op } => Some(op),
        Frame::Outside { .. } => None,
    };
    let strand = match op {
        Some(op) => match watch.called(op) {
            Some(called) => called.strand,
            None => None,
        },
        None => None,
    };
    Claim {
        thing,
        thread,
        op,
        strand,
    }
}

/// Notes the claims of these lines, as far as they may come.
fn note_claims(
    claims: &mut Vec<Claim>,
    watch: &mut Watch,
    lines: &[Line],
) -> Result<(), AllocError> {
    for line in lines {
        if let Doing::Claim { thing } = line.does {
            claims.push(claim_of(watch, line.thread, thing))?;
        }
        let Ok(()) = watch.follow(line) else {
            break;
        };
    }
    Ok(())
}

/// The claims of a run, in the order of its lines, as far as these may come.
pub fn claims_of(alloc: Global, lines: &[Line]) -> Result<Vec<Claim>, AllocError> {
    let mut claims = Vec::new(alloc);
    let mut watch = Watch::new(alloc);
    note_claims(&mut claims, &mut watch, lines)?;
    Ok(claims)
}

ghost use Rattle.std.specs.Prelude.{ℕ, List};
ghost use Rattle.run_lines.specs.declared.line.Line.{Line};
ghost use Rattle.run_orders.specs.declared.order.Step.{Step};
ghost use Rattle.run_orders.specs.Laws.{GuardsSuffice, HandingSuffices, IsOrderOfItself, JoinsSuffice, KeepsForcedApart, KeepsForcedOrder, KeepsGuardedApart, KeepsOneTreeApart};

/// A legal run is an order of itself, with nothing set apart.
pub fn runs_are_orders_of_themselves()
    ensures { (run : List Line) → IsOrderOfItself run }
{}

/// What one tree claims is never held by two threads, in no order: a tree stays on one thread.
pub fn trees_claim_on_one_thread()
    ensures { (run : List Line) (apart : List ℕ) (steps : List Step) → KeepsOneTreeApart run apart steps }
{}

/// Two claims of one thing never overlap if the same strand, mutex or thread guards them.
pub fn guarded_claims_never_overlap()
    ensures { (run : List Line) (apart : List ℕ) (steps : List Step) → KeepsGuardedApart run apart steps }
{}

/// A thing never overlaps if one strand, mutex or thread guards all its claims.
pub fn guarded_things_never_overlap()
    ensures { (run : List Line) → GuardsSuffice run }
{}

/// Two claims of one thing never overlap if one is given back before the other is made in each order.
pub fn forced_claims_never_overlap()
    ensures { (run : List Line) (apart : List ℕ) (steps : List Step) → KeepsForcedApart run apart steps }
{}

/// A thing never overlaps if a join comes behind all claims that something else guards, and before the
/// others, which its thread makes.
pub fn joined_things_never_overlap()
    ensures { (run : List Line) → JoinsSuffice run }
{}

/// What is forced before a line stands before it in each order: its causes, and the ends of executions
/// whose turn on a strand comes before the turn that this line begins.
pub fn forced_lines_keep_their_order()
    ensures { (run : List Line) (apart : List ℕ) (before : List Step) → KeepsForcedOrder run apart before }
{}

/// A thing never overlaps if each claim of it is given back before the next ones are made in each
/// order.
pub fn handed_things_never_overlap()
    ensures { (run : List Line) → HandingSuffices run }
{}

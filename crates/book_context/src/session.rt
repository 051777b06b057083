ghost use Rattle.std.specs.Prelude.{ℕ, Bool, false};
ghost use Rattle.op_handlers.specs.declared.call.Call.{Call};
ghost use Rattle.session_script.specs.Script.{ScriptModel};
ghost use Rattle.book_context.specs.Names.{no_script};

use std::marker::Brand;

/// The names of one session, for contracts alone: a type that is bound by this trait stands for one
/// session, and a caller picks its members where it passes `Brand`. What a context keeps is said in
/// these names.
pub trait Session {
    /// Its script.
    ghost script: { ScriptModel };

    /// Whether its reactor tells its bytes.
    ghost told: { Bool };

    /// The run mark of the handler of each operation, by what it is called with.
    ghost run: { ℕ → Call → ℕ };

    /// The drop mark of the handler of each operation.
    ghost drop: { ℕ → ℕ };

    /// How often its reactor had failed when the session began.
    ghost faults: { ℕ };

    /// Whether others than its handlers may stop the context.
    ghost outside: { Bool };
}

impl Session for Brand {
    ghost script = { no_script };

    ghost told = { false };

    ghost run = { λ n call. 0 };

    ghost drop = { λ n. 0 };

    ghost faults = { 0 };

    ghost outside = { false };
}

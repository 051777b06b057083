ghost use Rattle.std.specs.Prelude.{◌≡◌, ◌<◌, ◌≤◌, ◌^◌, length};
ghost use Rattle.op_handlers.specs.Marks.{drop_mark_of};

use crate::completion::CompletionHandler;
use crate::handler::Handler;
use asio_types::ActNo;

/// The handlers of a session: number n is the handler of act n, or nothing where it was taken. It
/// must be spent.
///
/// It is seen as that list, and by the marks of its handlers as a list of marks.
pub struct Rack<H = Handler> {
    // at each number its handler, or nothing where it was taken
    slots: Vec<Option<H>>,
    // the sum of the drop marks of the handlers that were let go of
    let_go: u128,
    ghost few: { length slots.items < 2 ^ 32 },
}

impl<H> Rack<H> {
    ghost use Rattle.std.specs.Prelude.{◌↔◌, IsSome, IsTrue, slice_get, slice_set, vec_len};
    ghost use Rattle.op_handlers.specs.Rack.{handlers_in, handler_at, let_go_of, IsWholeRack};

    /// The rack of these handlers, where a `None` counts as taken. It takes no memory.
    ///
    /// In `crates/prime_count/src/counter.rt`:
    ///
    /// ```rust
    /// let mut handlers = Vec::with_capacity(alloc, MOST_ACTS as usize)?;
    /// for number in 0..MOST_ACTS {
    ///     handlers.push_reserved(Some(Counter { number, sum }));
    /// }
    /// Ok(Rack::of(handlers))
    /// ```
    pub fn of(handlers: Vec<Option<H>>) -> Rack<H>
        requires { vec_len handlers < 2 ^ 32 }
        ensures { handlers_in result ≡ handlers.items }
    {
        Rack {
            slots: handlers,
            let_go: 0,
        }
    }

    /// How many numbers there are, with those that were taken.
    pub fn count(&self) -> u32
        ensures { result ≡ length (handlers_in self.now) }
    {
        self.slots.len() as u32
    }

    /// Whether no handler was taken. It looks at each number.
    pub fn is_whole(&self) -> bool
        ensures { IsTrue result ↔ IsWholeRack self.now }
    {
        self.slots.iter().all(|slot| slot.is_some())
    }

    /// Whether the handler of an act is there.
    pub fn holds(&self, a: ActNo) -> bool
        ensures { IsTrue result ↔ IsSome (handler_at self.now a) }
    {
        let number = a as usize;
        number < self.slots.len() && self.slots[number].is_some()
    }

    /// The sum of the drop marks of the handlers that were let go of: what the latest `discard_rest`
    /// heard, or `note` was told since; 0 where there was neither.
    pub fn let_go(&self) -> u128
        ensures { result ≡ let_go_of self.now }
    {
        self.let_go
    }

    /// Notes the sum of the drop marks of the handlers that were let go of, for whoever has the rack.
    pub fn note(&mut self, let_go: u128)
        ensures handlers { handlers_in self.new ≡ handlers_in self.old }
        ensures let_go { let_go_of self.new ≡ let_go }
    {
        self.let_go = let_go;
    }

    /// Takes the handler of an act: `None` exactly where the number is not below the count or was
    /// taken.
    pub fn take(&mut self, a: ActNo) -> Option<H>
        ensures taken { result ≡ handler_at self.old a }
        ensures after { handlers_in self.new ≡ slice_set (handlers_in self.old) a None }
    {
        let number = a as usize;
        if number < self.slots.len() {
            self.slots[number].take()
        } else {
            None
        }
    }

    /// Puts a handler at a number where nothing is.
    pub fn put(&mut self, a: ActNo, handler: H)
        requires { slice_get (handlers_in self.old) a ≡ Some None }
        ensures { handlers_in self.new ≡ slice_set (handlers_in self.old) a (Some handler) }
    {
        match self.slots[a as usize].replace(handler) {
            None => {}
            Some(_) => unreachable!(),
        }
    }
}

impl<H: CompletionHandler> Rack<H> {
    ghost use Rattle.op_handlers.specs.Rack.{AllTaken, drop_marks, handlers_in, let_go_of};

    /// Discards the handlers that are left, in rising number, and executes none. The numbers stay,
    /// with nothing at any. Answers the sum of the drop marks, which discarding alone tells, and
    /// keeps it for whoever has the rack (`let_go`).
    pub fn discard_rest(&mut self) -> u128
        ensures taken { AllTaken self.old self.new }
        ensures marks { result ≡ drop_marks H.marks (handlers_in self.old) }
        ensures let_go { let_go_of self.new ≡ drop_marks H.marks (handlers_in self.old) }
        ensures few { result ≤ 2 ^ 96 }
    {
        let mut marks = 0;
        for n in 0..self.count() {
            marks += discarded(self.take(n)) as u128;
        }
        self.let_go = marks;
        marks
    }

    /// Discards the handlers that are left, in rising number, and executes none. Answers the sum of
    /// the drop marks, which discarding alone tells.
    pub fn discard_all(self) -> u128
        ensures marks { result ≡ drop_marks H.marks (handlers_in self) }
        ensures few { result ≤ 2 ^ 96 }
    {
        let Rack { slots, let_go: _ } = self;
        let mut rest = slots.into_iter();
        let mut marks = 0;
        while let Some(slot) = rest.next() {
            marks += discarded(slot) as u128;
        }
        rest.destroy_empty();
        marks
    }
}

/// Destroys the handler of a number, if there is one, without a call, and answers its drop mark, 0
/// for none.
fn discarded<H: CompletionHandler>(slot: Option<H>) -> u64
    ensures { result ≡ drop_mark_of H.marks slot }
{
    match slot {
        Some(handler) => handler.discard(),
        None => 0,
    }
}

//! A box whose value is taken out and put back.
ghost use Rattle.std.specs.Prelude.{◌≡◌, IfOk, IsSome, None, Some, length, replicate};

use asio_types::NoMemory;
use std::alloc::Global;
use std::marker::Model;
use std::mem;

/// One box for a value that goes out and in: nothing is allocated but when it is made. Contracts see
/// the value, if it is in.
#[derive(Drop)]
pub struct Slot<T> {
    // open, so that a value is changed where it lies
    pub inside: Box<Option<T>>,
}

impl<T> Model for Slot<T> {
    ghost use Rattle.std.specs.Prelude.{Option};

    ghost Value = { Option T };

    ghost view = { λ s. s.inside.value };
}

impl<T> Slot<T> {
    /// A box with nothing in it.
    pub fn empty(alloc: Global) -> Result<Slot<T>, NoMemory>
        ensures { IfOk result (λ slot. slot ≡ None) }
    {
        match Box::new(alloc, None) {
            Ok(inside) => Ok(Slot { inside }),
            Err(refused) => match refused.value {
                None => Err(NoMemory),
                Some(_value) => unreachable!(),
            },
        }
    }

    /// Lets go of a box with nothing in it.
    pub fn free(self)
        requires { self ≡ None }
    {
        let Slot { inside } = self;
        match Box::into_inner(inside) {
            None => {}
            Some(_value) => unreachable!(),
        }
    }

    /// Takes the value out.
    pub fn take_out(&mut self) -> T
        requires { IsSome self.old }
        ensures value { self.old ≡ Some result }
        ensures empty { self.new ≡ None }
    {
        match self.inside.take() {
            Some(value) => value,
            None => unreachable!(),
        }
    }

    /// The value, without its box.
    pub fn into_inner(self) -> T
        requires { IsSome self }
        ensures { self ≡ Some result }
    {
        let Slot { inside } = self;
        match Box::into_inner(inside) {
            Some(value) => value,
            None => unreachable!(),
        }
    }

    /// Puts a value in.
    pub fn put_in(&mut self, value: T)
        requires { self.old ≡ None }
        ensures { self.new ≡ Some value }
    {
        match mem::replace(&mut *self.inside, Some(value)) {
            None => {}
            Some(_other) => unreachable!(),
        }
    }

    /// The value.
    pub fn get(&self) -> &T
        requires { IsSome self.now }
        ensures { self.now ≡ Some result.now }
    {
        match self.inside.as_ref().as_ref() {
            Some(value) => value,
            None => unreachable!(),
        }
    }
}

/// So many boxes with nothing in them.
pub fn empty_slots<T>(alloc: Global, count: u32) -> Result<Vec<Slot<T>>, NoMemory>
    ensures { IfOk result (λ slots. slots.items ≡ replicate count None) }
{
    let mut slots = Vec::with_capacity(alloc, count as usize)?;
    for _ in 0..count {
        match Slot::empty(alloc) {
            Ok(slot) => slots.push_reserved(slot),
            Err(refused) => {
                free_slots(slots);
                return Err(refused);
            }
        }
    }
    Ok(slots)
}

/// Lets go of boxes with nothing in them.
pub fn free_slots<T>(slots: Vec<Slot<T>>)
    requires { slots.items ≡ replicate (length slots.items) None }
{
    let mut rest = slots;
    while let Some(slot) = rest.pop() {
        slot.free();
    }
    rest.destroy_empty();
}

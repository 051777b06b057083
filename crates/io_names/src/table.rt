ghost use Rattle.std.specs.Prelude.{◌≡◌, false, true, replicate, IfNone, IfOk, IfSome, None};
ghost use Rattle.io_rules.specs.declared.place.Life.TheVariants as life;
ghost use Rattle.io_rules.specs.Completing.{others_than};
ghost use Rattle.io_rules.specs.Names.{any_free, is_alive, is_free, is_leaving, is_unused, new_place, place_at, with_freed, with_life};
ghost use Rattle.io_rules.specs.Spares.{MayKeep, with_life_of};
ghost use Rattle.std.specs.VecDeque.{deque_capacity};
ghost use Rattle.io_names.specs.Tables.{name_at};

use asio_types::NoMemory;
use io_rules::{Life, Name, Place};
use std::alloc::Global;
use std::collections::VecDeque;
use std::marker::Model;

/// The places of one kind, each with the name that it has now or gets next. Contracts see the places.
#[derive(Drop)]
pub struct NameTable {
    places: Vec<Place>,
    // those where nothing is, each once
    free: VecDeque<u32>,
}

impl Model for NameTable {
    ghost use Rattle.std.specs.Prelude.{◌≤◌, List, length};
    ghost use Rattle.std.specs.VecDeque.{deque_capacity};
    ghost use Rattle.io_rules.specs.declared.place.Place.{Place};
    ghost use Rattle.io_names.specs.Free.{AreFree};

    ghost Value = { List Place };

    ghost view = { λ t. t.places.items };

    ghost invariant = { λ t.
        AreFree t.free.items t.places.items × (length t.places.items ≤ deque_capacity t.free) };
}

/// This place isn't listed any more.
fn unlist(free: &mut VecDeque<u32>, place: u32)
    ensures items { free.new.items ≡ others_than place free.old.items }
    ensures capacity { deque_capacity free.new ≡ deque_capacity free.old }
{
    free.retain(|other| *other != place);
}

impl NameTable {
    /// So many places, all free. Takes memory for all of them; `NoMemory` where it is refused.
    pub fn make(alloc: Global, limit: u32) -> Result<NameTable, NoMemory>
        ensures { IfOk result (λ made. made ≡ replicate limit new_place) }
    {
        let place = Place {
            generation: 0,
            life: Life::Free,
        };
        let places = vec![in alloc; place; limit as usize]?;
        let mut free = VecDeque::with_capacity(alloc, limit as usize)?;
        for at in 0..limit {
            free.push_back_reserved(at);
        }
        Ok(NameTable { places, free })
    }

    /// Keeps a name for what the handler of this operation may make; none exactly where none is free.
    pub fn keep(&mut self, op: u64) -> Option<Name>
        ensures kept { MayKeep self.old None result }
        ensures places { self.new ≡ with_life_of (life.Kept op) result self.old }
    {
        self.take(Life::Kept { op })
    }

    /// Makes what a free name is to name; none exactly where none is free.
    pub fn make_one(&mut self) -> Option<Name>
        ensures made { IfSome result (λ name. is_free self.old name ≡ true) }
        ensures none { IfNone result (any_free self.old ≡ false) }
        ensures places { self.new ≡ with_life_of life.Alive result self.old }
    {
        self.take(Life::Alive)
    }

    /// The place of a free name comes to this.
    fn take(&mut self, to: Life) -> Option<Name>
        requires { is_unused to ≡ false }
        ensures kept { MayKeep self.old None result }
        ensures places { self.new ≡ with_life_of to result self.old }
    {
        match self.free.pop_front() {
            None => None,
            Some(place) => {
                let at = self.places[place as usize];
                self.places[place as usize] = Place {
                    generation: at.generation,
                    life: to,
                };
                Some(Name {
                    place,
                    generation: at.generation,
                })
            }
        }
    }

    /// Something is made under this name, which was kept for it. A name that was free isn't any more.
    pub fn open(&mut self, name: Name)
        ensures { self.new ≡ with_life life.Alive name self.old }
    {
        let place = name.place as usize;
        if place >= self.places.len() {
            return;
        }
        let at = self.places[place];
        let alive = Place {
            generation: at.generation,
            life: Life::Alive,
        };
        if let Life::Free = at.life {
            unlist(&mut self.free, name.place);
            self.places[place] = alive;
            return;
        }
        self.places[place] = alive;
    }

    /// A name that was kept and not used is free again.
    pub fn give_back(&mut self, name: Name)
        ensures { self.new ≡ with_life life.Free name self.old }
    {
        let place = name.place as usize;
        if place >= self.places.len() {
            return;
        }
        let at = self.places[place];
        if let Life::Free = at.life {
            return;
        }
        self.places[place] = Place {
            generation: at.generation,
            life: Life::Free,
        };
        self.free.push_front_reserved(name.place);
    }

    /// What this name names is gone, and its place is free for the next name, if there is one.
    pub fn free(&mut self, name: Name)
        requires { is_unused (place_at self.old name.place).life ≡ false }
        ensures { self.new ≡ with_freed name self.old }
    {
        let place = name.place as usize;
        if place >= self.places.len() {
            return;
        }
        let at = self.places[place];
        if at.generation == u32::MAX {
            self.places[place] = Place {
                generation: at.generation,
                life: Life::Spent,
            };
            return;
        }
        self.places[place] = Place {
            generation: at.generation + 1,
            life: Life::Free,
        };
        self.free.push_back_reserved(name.place);
    }

    /// This name is gone, and what it names keeps its place for now.
    pub fn close(&mut self, name: Name)
        requires { is_unused (place_at self.old name.place).life ≡ false }
        ensures { self.new ≡ with_life life.Closing name self.old }
    {
        if let Some(at) = self.places.get_mut(name.place as usize) {
            at.life = Life::Closing;
        }
    }

    /// The name of what is at this place.
    pub fn name_at(&self, place: u32) -> Name
        ensures { result ≡ name_at self.now place }
    {
        let generation = match self.places.get(place as usize) {
            Some(at) => at.generation,
            None => 0,
        };
        Name { place, generation }
    }

    /// What this name names is there, and its name isn't gone.
    pub fn is_alive(&self, name: Name) -> bool
        ensures { result ≡ is_alive self.now name }
    {
        match self.places.get(name.place as usize) {
            Some(at) => at.generation == name.generation && matches!(at.life, Life::Alive),
            None => false,
        }
    }

    /// This name is gone, and what it names is still there.
    pub fn is_leaving(&self, name: Name) -> bool
        ensures { result ≡ is_leaving self.now name }
    {
        match self.places.get(name.place as usize) {
            Some(at) => at.generation == name.generation && matches!(at.life, Life::Closing),
            None => false,
        }
    }
}

ghost use Rattle.std.specs.Prelude.{◌≡◌};

use std::marker::Model;

/// A value that belongs to a lane.
pub trait Home {
    ghost use Rattle.std.specs.Prelude.{ℕ};

    ghost home_of: { Self → ℕ };

    /// The lane that the value belongs to. It stays the same while the value lies in a table.
    fn lane(&self) -> u32
        ensures { result ≡ home_of self.now };
}

/// The values of all lanes, lane 0 first. Contracts see the list of them.
#[derive(Drop)]
pub struct Homes<T> {
    items: Vec<T>,
}

impl<T> Model for Homes<T> {
    ghost use Rattle.std.specs.Prelude.{List};

    ghost Value = { List T };

    ghost view = { λ h. h.items.items };
}

impl<T> Homes<T> {
    /// The values of a vector. Takes no memory.
    pub fn of(items: Vec<T>) -> Homes<T>
        ensures { result ≡ items.items }
    {
        Homes { items }
    }

    /// The values.
    pub fn as_slice(&self) -> &[T]
        ensures { result.now ≡ self.now }
    {
        self.items.as_slice()
    }

    /// The values as a vector again. Takes no memory.
    pub fn into_vec(self) -> Vec<T>
        ensures { result.items ≡ self }
    {
        let Homes { items } = self;
        items
    }
}

ghost use Rattle.std.specs.Prelude.{◌≡◌};
ghost use Rattle.reactor_script.specs.Plans.{method_number};

/// A method of a reactor that can fail.
#[derive(Clone, Copy, Debug, PartialEq, Eq)]
pub enum Method {
    SetUp,
    Advance,
    ReadSome,
    WriteSome,
}

/// A call that is to fail: the nth call of a method, from 1.
#[derive(Clone, Copy, Debug, PartialEq, Eq)]
pub struct FailAt {
    pub method: Method,
    pub nth: u32,
}

impl Method {
    /// The place of the method in its list, from 0.
    pub(crate) fn number(self) -> u8
        ensures { result ≡ method_number self }
    {
        match self {
            Method::SetUp => 0,
            Method::Advance => 1,
            Method::ReadSome => 2,
            Method::WriteSome => 3,
        }
    }
}

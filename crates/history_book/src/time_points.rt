ghost use Rattle.std.specs.Prelude.{◌≡◌, filter, if◌then◌else◌, map, nat_lt};
ghost use Rattle.history_rules.specs.Time.{least_of, lesser, next_expiry, next_time};
ghost use Rattle.history_rules.specs.Waits.{expiry_in};

use crate::reactor_half::ReactorWorks;
use crate::waiting::expiry_in;
use asio_types::Point;
use history_rules::Wait;

fn lesser(x: u64, least: Option<u64>) -> Option<u64>
    ensures { result ≡ lesser x least }
{
    match least {
        None => Some(x),
        Some(y) => Some(x.min(y)),
    }
}

/// The lesser of an expiry that is still to come and of what may be there.
fn with_expiry(now: u64, expiry: u64, least: Option<u64>) -> Option<u64>
    ensures { result ≡ (if nat_lt now expiry then lesser expiry least else least) }
{
    if now < expiry {
        lesser(expiry, least)
    } else {
        least
    }
}

/// The next expiry of these waits.
fn next_expiry(now: u64, expiries: &[u64], waits: &[Wait]) -> Option<u64>
    ensures { result
        ≡ least_of (filter (λ expiry. nat_lt now expiry) (map (expiry_in expiries.now) waits.now)) }
{
    let mut least = None;
    for wait in waits {
        least = with_expiry(now, expiry_in(expiries, wait), least);
    }
    least
}

impl<'a> ReactorWorks<'a> {
    /// The next expiry of a wait that is pending.
    pub(crate) fn next_expiry(&self) -> Option<u64>
        ensures { result ≡ next_expiry self.now.half }
    {
        next_expiry(
            self.world.now(),
            self.expiries.as_slice(),
            self.waits.as_slice(),
        )
    }

    /// The least time point above now, or that there is none.
    pub(crate) fn next_time(&self) -> Point
        ensures { result ≡ next_time self.now.script self.now.half }
    {
        self.world.next_point(self.next_expiry())
    }
}

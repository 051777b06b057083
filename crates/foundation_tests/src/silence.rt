//! The trait can be met by a reactor that tells no bytes.

ghost use Rattle.std.specs.Prelude.{◌<◌, IsTrue};
ghost use Rattle.stream_rules.specs.World.{HasItsStreams};
ghost use Rattle.reactor_trait.specs.Reactor.{stream_count, IsOpen};

use asio_types::{Failed, Line, Lines, Moved, Point, SetupFault, What, World};
use reactor_trait::{Reactor, SilentReactor};
use std::alloc::Global;
use std::test::Fail;

/// The first stream is read and written, time moves twice, and the stream is read once more and
/// closed.
fn moves<X: Reactor>(reactor: &mut X) -> Result<(Moved, Moved, Point, Moved), Failed>
    requires up { IsTrue (X.state reactor.old).up }
    requires known { 0 < stream_count (X.state reactor.old) }
    requires open { IsOpen (X.state reactor.old) 0 }
{
    let mut buf = [0u8; 4];
    let read = reactor.read_some(0, &mut buf)?;
    let written = reactor.write_some(0, b"ab")?;
    let point = reactor.advance(None)?;
    reactor.advance(None)?;
    let late = reactor.read_some(0, &mut buf)?;
    reactor.close(0);
    Ok((read, written, point, late))
}

/// One session over any reactor.
fn session<X: Reactor>(
    reactor: &mut X,
    alloc: Global,
    world: &World,
) -> Result<(Moved, Moved, Point, Moved), SetupFault>
    requires lines { HasItsStreams world.now }
    requires streams { 0 < world.now.streams }
{
    reactor.set_up(alloc, world)?;
    match moves(reactor) {
        Ok(moved) => Ok(moved),
        Err(Failed) => Err(SetupFault::Failed),
    }
}

#[test]
fn silence_meets_the_trait(rt: HostRuntime) -> Result<(), Fail> {
    let alloc = rt.alloc();
    let line = Line {
        time: 5,
        stream: 0,
        what: What::End,
    };
    let world = World {
        streams: 1,
        lines: Lines::of(vec![in alloc; line]?),
    };
    let mut silence = SilentReactor::empty(alloc);
    let seen = session(&mut silence, alloc, &world)?;
    assert_eq!(rt;
        seen,
        (Moved::NotYet, Moved::NotYet, Point::Time(5), Moved::End)
    );
    Ok(())
}

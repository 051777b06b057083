ghost use Rattle.std.specs.Prelude.{◌≡◌};
ghost use Rattle.io_reactor_mio.specs.Tokens.{name_at, token_of};

use io_rules::Name;
use mio::Token;

/// How many places there can be.
const MOST_PLACES: usize = 0x1_0000_0000;

/// What the waker is registered as. No socket is: places lie below a limit of 32 bits.
pub(crate) const WAKER: Token = Token(usize::MAX);

/// What a socket of this name is registered as.
pub(crate) fn token_of(name: Name) -> Token
    ensures { result.0 ≡ token_of name }
{
    Token(name.generation as usize * MOST_PLACES + name.place as usize)
}

/// The name of what is registered so.
pub(crate) fn name_at(token: Token) -> Name
    ensures { result ≡ name_at token.0 }
{
    let place = token.0 % MOST_PLACES;
    let generation = token.0 / MOST_PLACES;
    Name {
        place: place as u32,
        generation: generation as u32,
    }
}

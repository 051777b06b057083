ghost use Rattle.std.specs.Prelude.{◌≡◌};
ghost use Rattle.io_reactor_mio.specs.Tokens.{name_at, token_of};

use io_rules::Name;

/// No two names are registered alike: what a name is registered as carries it.
pub fn a_token_carries_its_name(name: Name)
    ensures { name_at (token_of name) ≡ name }
{
    let _name = name;
}

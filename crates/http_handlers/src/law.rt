ghost use Rattle.http_handlers.specs.Connections.{IsSaidOnce};

/// What all that came on a connection is answered is one text alone. So by the clause `all` of
/// `Connection::feed` a client is told the same whatever pieces its requests came in.
pub fn all_that_came_has_one_answer()
    ensures { IsSaidOnce }
{}

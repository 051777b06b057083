ghost use Rattle.io_queues.specs.Queued.{LastStays};

/// Of two items that come to a place one after the other the last one stays, as if the first hadn't
/// come: so an item may be taken out by `replace`, changed, and brought back.
pub fn last_item_stays<T>()
    ensures { LastStays T }
{}

ghost use Rattle.chan_core.specs.Runs.{ChannelsKeepOrder};

/// Over every list of calls and completions of a channel that keeps their conditions: whenever
/// nothing is due, the values received, in the order of the receives' completions, and then those
/// of the buffer are the values of the sends that completed with `ChanCode::Ok`, in the order of
/// their calls; and each call of `send` or `receive` completes at most once. A law: it runs nothing.
pub fn channels_keep_order()
    ensures { ChannelsKeepOrder }
{}

ghost use Rattle.std.specs.Prelude.{◌≡◌};
ghost use Rattle.lane_logs.specs.Stand.{base_at, is_round_open, wants_restart};
ghost use Rattle.lane_turns.specs.Openers.{is_running_at, round_of, stand_at};
ghost use Rattle.lane_turns.specs.Workers.{restarts_since};

use session_script::{Pace, Script};

// stops that no clock finds: where no round is open, lanes are shut
pub const SHUT: u64 = 65536;

/// What lanes and workers keep of where the rounds stand.
#[derive(Clone, Copy)]
pub struct RoundNow {
    // how many rounds are closed
    pub closings: u32,
    // whether the restart of the next one was drawn
    pub restarted: bool,
    // the stops that the last restart found, or a number that no stops are where no round is open
    pub base: u64,
    // whether time may pass
    pub running: bool,
}

impl RoundNow {
    /// Whether a restart came since then.
    pub fn restarts_since(self, before: RoundNow) -> bool
        ensures { result ≡ restarts_since before self }
    {
        self.restarted && !(before.closings == self.closings && before.restarted)
    }
}

/// Where the rounds of a session stand.
#[derive(Clone, Copy)]
pub struct RoundStanding {
    // how many draws of the calls of `open` are still to come
    pub opening: u32,
    // how many rounds are closed
    pub closings: u32,
    // whether the restart of the next one was drawn
    pub restarted: bool,
    // the stops that the last restart found
    pub base: u64,
}

impl RoundStanding {
    /// Whether the restart of the next round is still to come.
    pub fn wants_restart(self, script: &Script) -> bool
        ensures { result ≡ wants_restart script.now (stand_at self) }
    {
        match script.rounds().get(self.closings as usize) {
            Some(round) => round.restart && !self.restarted,
            None => false,
        }
    }

    /// Whether a round is open.
    pub fn is_open(self, script: &Script) -> bool
        ensures { result ≡ is_round_open script.now (stand_at self) }
    {
        let left = (self.closings as usize) < script.rounds().len();
        self.opening == 0 && left && !self.wants_restart(script)
    }

    /// The stops with which a lane may begin something.
    fn lane_base(self, script: &Script) -> u64
        ensures { result ≡ base_at script.now (stand_at self) }
    {
        if self.is_open(script) {
            self.base
        } else {
            SHUT
        }
    }

    /// Whether the next round is one in which time may pass.
    pub fn is_running(self, script: &Script) -> bool
        ensures { result ≡ is_running_at script.now (stand_at self) }
    {
        match script.rounds().get(self.closings as usize) {
            Some(round) => matches!(round.pace, Pace::Run),
            None => false,
        }
    }

    /// What lanes and workers keep of it.
    pub fn round(self, script: &Script) -> RoundNow
        ensures { result ≡ round_of script.now (stand_at self) }
    {
        RoundNow {
            closings: self.closings,
            restarted: self.restarted,
            base: self.lane_base(script),
            running: self.is_running(script),
        }
    }
}

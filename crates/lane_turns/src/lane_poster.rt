ghost use Rattle.std.specs.Prelude.{◌≡◌};
ghost use Rattle.session_script.specs.Script.{ScriptModel};
ghost use Rattle.lane_turns.specs.Pens.{PenView};

use crate::calls::draw_call;
use crate::pen::Pen;
use asio_types::{ActNo, Code, Event, OpNo};
use lane_clock::{Change, LaneClock};
use lane_map::LaneMap;
use op_handlers::Ran;
use session_script::Script;
use std::marker::{Brand, Model, PhantomData};
use strand_core::{Answered, Posted, Poster};

/// The names of a script and of a pen as it stands where an execution begins, for contracts alone:
/// who makes a poster picks them.
pub trait PenStart {
    ghost script: { ScriptModel };

    ghost start: { PenView };
}

impl PenStart for Brand {
    ghost use Rattle.lane_logs.specs.Names.{no_script};
    ghost use Rattle.lane_turns.specs.Pens.{no_pen};

    ghost script = { no_script };

    ghost start = { no_pen };
}

/// What an execution of a lane is told to: it draws each event with the lane's pen, and notes the
/// calls. It keeps that the pen has come from its start by the calls that were made, and the room for
/// all that an execution of the script makes.
#[derive(Drop)]
pub struct LanePoster<'c, 'a, S: PenStart> {
    pub clock: &'c LaneClock,
    pub script: &'a Script,
    pub map: &'c LaneMap<'a>,
    pub pen: Pen,
    pub made: Vec<Posted>,
    pub start: PhantomData<S>,
}

impl<'c, 'a, S: PenStart> Model for LanePoster<'c, 'a, S> {
    ghost use Rattle.std.specs.Prelude.{◌≡◌, ◌-◌, ◌≤◌, vec_capacity, vec_len};
    ghost use Rattle.lane_turns.specs.Polling.{most_made};
    ghost use Rattle.lane_turns.specs.Posting.{IsPosting, PosterView};

    ghost Value = { PosterView };

    ghost view = { λ p. record {
      script = p.script.now;
      pen = p.pen;
      made = p.made.items;
      spare = vec_capacity p.made - vec_len p.made;
    } };

    ghost invariant = { λ p. record {
      script : p.script.now ≡ S.script;
      map : p.map.now ≡ p.script.now;
      posting : IsPosting p.clock.now S.start (record {
        script = p.script.now;
        pen = p.pen;
        made = p.made.items;
        spare = vec_capacity p.made - vec_len p.made;
      });
      buffer : most_made S.script ≤ vec_capacity p.made;
    } };
}

impl<'c, 'a, S: PenStart> Poster for LanePoster<'c, 'a, S> {
    ghost use Rattle.std.specs.Prelude.{◌++◌};
    ghost use Rattle.std.proofs.Common.{◌∙◌, ap};
    ghost use Rattle.std.proofs.lemmas.List.{append_assoc};
    ghost use Rattle.lane_turns.specs.Posting.{TakesNext};

    ghost made = { λ poster. poster.made };

    ghost takes = { TakesNext };

    fn begin(&mut self, op: OpNo, code: Code, size: u32) -> u64 {
        let event = Event::Begin { op, code, size };
        let found = self.pen.draw(self.clock, Change::Same, event);
        let begun = found.clock;
        self.made.push_reserved(Posted::Begin {
            op,
            code,
            size,
            begun,
        });
        begun
    }

    fn call(&mut self, act: ActNo, answered: &Answered) {
        let by = Some(answered);
        draw_call(&mut self.pen, self.clock, self.script, self.map, act, by);
        self.made.push_reserved(Posted::Call { act });
    }

    fn back(&mut self, act: ActNo) {
        self.pen.draw(self.clock, Change::Same, Event::Back { act });
        self.made.push_reserved(Posted::Back { act });
    }

    fn end(&mut self, op: OpNo, ran: Ran) {
        let event = Event::End { op, mark: ran.mark };
        self.pen.draw(self.clock, Change::Down, event);
        self.made.push_reserved(Posted::End { op, ran });
    }

    ghost first_part = { λ poster first rest taken part others same.
        taken part (others ++ rest)
        (ap (λ calls. calls ++ rest) same ∙ append_assoc part others rest) };
}

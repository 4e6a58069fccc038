// How far a behaviour is, as it is kept.

ghost use Rattle.std.specs.Prelude.{◌≡◌, ◌<◌, ◌^◌};
ghost use Rattle.boc_runs.specs.declared.stage.Stage.TheVariants.{Asking, Recorded};
ghost use Rattle.boc_dispatch.specs.KeptStages.{request_of};

use boc_runs::stage::{Phase, Stage};
use std::marker::Model;

/// How far a behaviour is, in 8 bytes, since many behaviours wait at once. Contracts see the stage.
#[derive(Drop, Debug)]
pub struct KeptStage {
    place: Place,
    /// A behaviour has few requests, so a byte does for each.
    request: u8,
    row: u32,
}

const _: () = prove!(size_of::<KeptStage>() == 8);

// The kind of a stage, and of its phase.
#[derive(Clone, Copy, Debug)]
enum Place {
    Asking,
    Exchanged,
    Flagging,
    Owning,
    Waiting,
    Ready,
    Running,
    Leaving,
}

impl Model for KeptStage {
    ghost use Rattle.boc_runs.specs.declared.stage.Stage.{Stage};
    ghost use Rattle.boc_dispatch.specs.KeptStages.{kept_stage};

    ghost Value = { Stage };

    ghost view = { λ a. kept_stage a.place a.row a.request };
}

impl KeptStage {
    /// Returns the stage in which the requests below this one are settled, and it is exchanged or not.
    pub fn asking(request: usize, exchanged: bool) -> KeptStage
        requires { request < 2 ^ 8 }
        ensures { result ≡ Asking request exchanged }
    {
        let place = if exchanged {
            Place::Exchanged
        } else {
            Place::Asking
        };
        KeptStage {
            place,
            request: request as u8,
            row: 0,
        }
    }

    /// Returns the stage in which the spawn is recorded under this row, and the behaviour is in this phase.
    pub fn recorded(row: u32, phase: Phase) -> KeptStage
        requires { request_of phase < 2 ^ 8 }
        ensures { result ≡ Recorded row phase }
    {
        let (place, request) = match phase {
            Phase::Flagging(request) => (Place::Flagging, request),
            Phase::Owning => (Place::Owning, 0),
            Phase::Waiting => (Place::Waiting, 0),
            Phase::Ready => (Place::Ready, 0),
            Phase::Running => (Place::Running, 0),
            Phase::Leaving(request) => (Place::Leaving, request),
        };
        KeptStage {
            place,
            request: request as u8,
            row,
        }
    }

    /// Returns the stage.
    #[inline(always)]
    pub fn stage(&self) -> Stage
        ensures { result ≡ self.now }
    {
        let (row, request) = (self.row, self.request as usize);
        let phase = match self.place {
            Place::Asking => {
                return Stage::Asking {
                    request,
                    exchanged: false,
                };
            }
            Place::Exchanged => {
                return Stage::Asking {
                    request,
                    exchanged: true,
                };
            }
            Place::Flagging => Phase::Flagging(request),
            Place::Owning => Phase::Owning,
            Place::Waiting => Phase::Waiting,
            Place::Ready => Phase::Ready,
            Place::Running => Phase::Running,
            Place::Leaving => Phase::Leaving(request),
        };
        Stage::Recorded { row, phase }
    }
}

// What is requested.

ghost use Rattle.std.specs.Prelude.{◌≡◌};
ghost use Rattle.boc_view.specs.Materials.{curve_workers, page_workers, runs_shown, shows_costs, shows_curve, shows_workers, workers_shown};

use boc_commands::{RunFile, Schedule};
use boc_front::Given;
use boc_plans::sharing::Sharing;
use boc_program::count::Workers;
use boc_program::limits::MOST_WORKERS;
use boc_words::{AskedDraws, AskedRuns};

// For how many workers a page is, where no number is given.
const PAGE_WORKERS: u32 = 4;

/// A picture.
#[derive(Clone, Copy, PartialEq, Eq, Debug)]
pub(crate) enum Picture {
    /// Lines of text: the earliest plan, unless others are asked for.
    Text { cowns: bool, curve: bool },
    /// A drawing of the earliest plan, with plans on workers below it: the greedy one where a number of workers is given, and that of a timed run. It may
    /// show the cowns too.
    Plan { cowns: bool },
    /// A drawing of the ends of greedy plans.
    Curve,
    /// A page with all of it.
    Page,
    /// Events of a trace.
    Trace,
}

impl Picture {
    /// Returns the program and the command that draws it.
    pub(crate) fn command(self) -> &'static str {
        match self {
            Picture::Text { .. } => "boc-view text",
            Picture::Plan { .. } => "boc-view plan",
            Picture::Curve => "boc-view curve",
            Picture::Page => "boc-view page",
            Picture::Trace => "boc-view trace",
        }
    }

    /// Returns whether it shows which worker runs what: in the greedy plan for the workers that are asked for, and in a timed run.
    pub(crate) fn shows_workers(self) -> bool
        ensures { result ≡ shows_workers self }
    {
        match self {
            Picture::Text { curve, .. } => !curve,
            Picture::Plan { .. } | Picture::Page | Picture::Trace => true,
            Picture::Curve => false,
        }
    }

    /// Returns whether it shows when the greedy plans for 1, 2, 3 and more workers end.
    pub(crate) fn shows_curve(self) -> bool
        ensures { result ≡ shows_curve self }
    {
        match self {
            Picture::Text { curve, .. } => curve,
            Picture::Curve | Picture::Page => true,
            Picture::Plan { .. } | Picture::Trace => false,
        }
    }

    /// Returns whether it shows what each row and each cown costs, and the program.
    pub(crate) fn shows_costs(self) -> bool
        ensures { result ≡ shows_costs self }
    {
        self == Picture::Page
    }
}

/// What is requested: a picture of a run.
#[derive(Drop)]
pub(crate) struct Wanted {
    pub picture: Picture,
    /// How a program is run.
    pub schedule: Schedule,
    /// Which words say so.
    pub given: Given,
    /// For how many workers there is a greedy plan.
    pub workers: Option<Workers>,
    pub sharing: Sharing,
    /// Whether each row has the ticks that are typical of its def.
    pub typical: bool,
    /// The runs that seeds draw of the program and a page shows, if any.
    pub runs: Option<AskedDraws>,
    /// The path of the file that the input is in, where it isn't standard input.
    pub input: Option<String>,
    /// The file given with the input.
    pub file: Option<RunFile>,
    /// How many columns a text has, where that is given.
    pub width: Option<u32>,
}

impl Wanted {
    /// Returns the workers whose greedy plan is shown, if any: those that are asked for, and for a page 4 where no number is given.
    pub(crate) fn workers_shown(&self) -> Option<Workers>
        ensures { result ≡ workers_shown self.now }
    {
        match self.picture {
            Picture::Page => Some(self.page_workers()),
            picture if picture.shows_workers() => self.workers,
            _ => None,
        }
    }

    /// Returns the workers that a page is for: as many as are asked for, and 4 where no number is given.
    pub(crate) fn page_workers(&self) -> Workers
        ensures { result ≡ page_workers self.now.workers }
    {
        match self.workers {
            Some(workers) => workers,
            None => Workers::new(PAGE_WORKERS).unwrap(),
        }
    }

    /// Returns the runs that a page shows and seeds draw, if any: judged for the workers that the page is for.
    pub(crate) fn runs_shown(&self) -> Option<AskedRuns>
        ensures { result ≡ runs_shown self.now }
    {
        match self.runs {
            Some(draws) => Some(AskedRuns {
                draws,
                workers: Some(self.page_workers()),
                sharing: self.sharing,
                quiet: false,
            }),
            None => None,
        }
    }

    /// Returns the most workers of a curve: as many as are asked for, and 64 for a page, or where no number is given.
    pub(crate) fn most(&self) -> Workers
        ensures { result ≡ curve_workers self.now }
    {
        match (self.picture, self.workers) {
            (Picture::Page, _) | (_, None) => Workers::new(MOST_WORKERS).unwrap(),
            (_, Some(workers)) => workers,
        }
    }
}

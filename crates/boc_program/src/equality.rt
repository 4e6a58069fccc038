// `==` on bodies and on programs: true exactly where contracts see the same value.

ghost use Rattle.std.specs.Prelude.{◌≡◌, ◌↔◌, IsTrue};
ghost use Rattle.boc_program.specs.contracts.body.Body as body;
ghost use Rattle.boc_program.specs.contracts.program.Program as program;
ghost use Rattle.boc_program.specs.memory.Same.{same_by, same_equiv, same_partial};

use crate::body::Body;
use crate::program::Program;
use crate::same::{same_body, same_program};

impl PartialEq for Body {
    ghost eq = { same_by body.the_row.coded };

    ghost laws = { same_partial body.the_row.coded };

    fn eq(&self, other: &Body) -> bool
        ensures eq { result ≡ same_by body.the_row.coded self.now other.now }
        ensures same { IsTrue result ↔ (self.now ≡ other.now) }
    {
        same_body(self, other)
    }
}

impl Eq for Body {
    ghost laws = { same_equiv body.the_row.coded };
}

impl PartialEq for Program {
    ghost eq = { same_by program.the_row.coded };

    ghost laws = { same_partial program.the_row.coded };

    fn eq(&self, other: &Program) -> bool
        ensures eq { result ≡ same_by program.the_row.coded self.now other.now }
        ensures same { IsTrue result ↔ (self.now ≡ other.now) }
    {
        same_program(self, other)
    }
}

impl Eq for Program {
    ghost laws = { same_equiv program.the_row.coded };
}

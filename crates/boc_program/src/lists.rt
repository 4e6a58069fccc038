// Lists that are seen as lists alone, and are compared by their items.

ghost use Rattle.std.specs.Prelude.{◌≡◌, ◌↔◌, IsTrue};

use crate::body::Body;
use crate::cown::Cown;
use std::marker::Model;

/// Declarations of cowns.
#[derive(Drop, Debug)]
pub struct CownList {
    items: Vec<Cown>,
}

impl Model for CownList {
    ghost use Rattle.std.specs.Prelude.{List};
    ghost use Rattle.boc_program.specs.declared.cown.Cown.{Cown};

    ghost Value = { List Cown };

    ghost view = { λ a. a.items.items };
}

impl CownList {
    pub fn new(items: Vec<Cown>) -> CownList
        ensures { result ≡ items.items }
    {
        CownList { items }
    }

    pub fn as_slice(&self) -> &[Cown]
        ensures { result.now ≡ self.now }
    {
        &self.items
    }
}

/// Bodies.
#[derive(Drop, Debug)]
pub struct BodyList {
    items: Vec<Body>,
}

impl Model for BodyList {
    ghost use Rattle.std.specs.Prelude.{List};
    ghost use Rattle.boc_program.specs.declared.body.Body.{Body};

    ghost Value = { List Body };

    ghost use Rattle.std.specs.Coded.{codes};
    ghost use Rattle.boc_program.specs.memory.Stored.{coded_Code};

    ghost coded = { Prim.hlevel (codes, coded_Code) };

    ghost view = { λ a. a.items.items };
}

impl BodyList {
    pub fn new(items: Vec<Body>) -> BodyList
        ensures { result ≡ items.items }
    {
        BodyList { items }
    }

    pub fn as_slice(&self) -> &[Body]
        ensures { result.now ≡ self.now }
    {
        &self.items
    }
}

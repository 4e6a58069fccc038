// Declarations of cowns.

ghost use Rattle.std.specs.Prelude.{◌≡◌};
ghost use Rattle.boc_program.specs.Sizes.{members};

use crate::text::Name;

/// A cown, or an array of `size` cowns, with the value that each has at the start.
#[derive(Drop, Debug)]
pub struct Cown {
    pub name: Name,
    pub size: Option<u32>,
    pub initial: i64,
}

impl Cown {
    /// Returns how many cowns it declares.
    pub fn members(&self) -> usize
        ensures { result ≡ members self.now.size }
    {
        match self.size {
            None => 1,
            Some(size) => size as usize,
        }
    }
}

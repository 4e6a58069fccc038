// The versions of record texts.

ghost use Rattle.std.specs.Prelude.{◌≡◌, MatchOption};
ghost use Rattle.boc_record.specs.RecordTexts.{Version as Spelling, version_number};
ghost use Rattle.boc_record.specs.Versions.{spelling};

/// How a text spells a record. The first version doesn't say which cowns a row wrote: it stands for all of them.
#[derive(Clone, Copy, PartialEq, Eq, Debug)]
pub enum Version {
    First,
    Second,
}

impl Version {
    /// Returns the version with this number.
    pub fn of_number(number: u32) -> Option<Version>
        ensures { MatchOption result ((v : Spelling) → number ≡ version_number v → ⊥) (λ version. number ≡ version_number (spelling version)) }
    {
        match number {
            1 => Some(Version::First),
            2 => Some(Version::Second),
            _ => None,
        }
    }
}

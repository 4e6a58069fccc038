// Laws of names: the text of a file of names has one reading, and a run, a record and a file give everything one name.

ghost use Rattle.std.specs.Prelude.{◌≡◌, ℕ, List};
ghost use Rattle.std.specs.List.{AllByRecursion};
ghost use Rattle.boc_program.specs.declared.program.Program.{Program};
ghost use Rattle.boc_runs.specs.Run.{Member};
ghost use Rattle.boc_names.specs.declared.names.Names.{Names};
ghost use Rattle.boc_names.specs.Grouping.{IsGrouping};
ghost use Rattle.boc_names.specs.Names.{AreNamesOf, AreNumbers, CallTheSame, Text};
ghost use Rattle.boc_names.specs.NamesFile.{IsLine, IsNamedBy, Line, lines_text};

/// A text is that of one list of lines at most, so it gives each row and each cown one name at most.
pub fn file_has_one_reading()
    ensures { (lines others : List Line) → AllByRecursion IsLine lines → AllByRecursion IsLine others → lines_text lines ≡ lines_text others → lines ≡ others }
{}

/// Texts have one grouping at most.
pub fn texts_have_one_grouping()
    ensures { (texts : List Text) (numbers others : List ℕ) (names other_names : List Text) → IsGrouping texts numbers names
        → IsGrouping texts others other_names → (numbers ≡ others) × (names ≡ other_names) }
{}

/// Everything has one name at most: in a run of a program with these defs, by numbers, and by a file that is laid over the same names.
pub fn everything_has_one_name()
    ensures run { (program : Program) (called : List Text) (members : List Member) (names other : Names) → AreNamesOf program called members names
        → AreNamesOf program called members other → CallTheSame names other }
    ensures numbers { (rows cowns : ℕ) (names other : Names) → AreNumbers rows cowns names → AreNumbers rows cowns other → CallTheSame names other }
    ensures file { (text : Text) (base other names others : Names) → CallTheSame base other → IsNamedBy text base names → IsNamedBy text other others
        → CallTheSame names others }
{}

// What is declared at the top of a text, and the look-ups there.

ghost use Rattle.std.specs.Prelude.{◌≡◌, find, position, map};
ghost use Rattle.std.specs.List.{list_any};
ghost use Rattle.std.specs.Option.{option_map, option_copied};
ghost use Rattle.std.specs.Str.{bytes_eq};
ghost use Rattle.boc_reader.specs.Names.{slot_of, global, callee, kind_of, among, top_names, is_free};
ghost use Rattle.boc_reader.specs.Views.{name_of};
ghost use Rattle.boc_reader.specs.Resolving.{names_of, cown_names, global_of, callee_of, declared_of};

use crate::shape::Spot;
use boc_program::short::CownNo;

/// A cown, or an array of `size` cowns, that is declared at the top: the number of its first cown.
#[derive(Clone, Copy)]
pub struct Global<'a> {
    pub name: &'a str,
    pub first: CownNo,
    pub size: Option<u32>,
}

/// A def: how many arguments and cowns it takes.
#[derive(Clone, Copy)]
pub struct Callee<'a> {
    pub name: &'a str,
    pub args: usize,
    pub cowns: usize,
}

/// What is declared at the top of the whole text. Of two declarations of a name the first counts.
#[derive(Drop)]
pub struct Top<'a> {
    pub cowns: Vec<Global<'a>>,
    pub defs: Vec<Callee<'a>>,
}

/// What a body sees in addition to the names in scope: the top, and its cown parameters.
#[derive(Clone, Copy)]
pub struct Outside<'t, 'a> {
    pub top: &'t Top<'a>,
    pub held: &'t [Spot<'a>],
}

fn find_cown<'t, 'a>(cowns: &'t [Global<'a>], name: &str) -> Option<&'t Global<'a>>
    ensures { option_copied result ≡ find (λ g. bytes_eq g.name.now name.now) cowns.now }
{
    cowns.iter().find(|g| g.name == name)
}

fn find_def(defs: &[Callee<'_>], name: &str) -> Option<usize>
    ensures { result ≡ position (λ d. bytes_eq d.name.now name.now) defs.now }
{
    defs.iter().position(|d| d.name == name)
}

fn find_parameter(held: &[Spot<'_>], name: &str) -> Option<usize>
    ensures { result ≡ position (λ spot. bytes_eq spot.name.now name.now) held.now }
{
    held.iter().position(|spot| spot.name == name)
}

fn is_cown(cowns: &[Global<'_>], name: &str) -> bool
    ensures { result ≡ list_any (λ g. bytes_eq g.name.now name.now) cowns.now }
{
    cowns.iter().any(|g| g.name == name)
}

fn is_def(defs: &[Callee<'_>], name: &str) -> bool
    ensures { result ≡ list_any (λ d. bytes_eq d.name.now name.now) defs.now }
{
    defs.iter().any(|d| d.name == name)
}

fn is_known(scope: &[&str], name: &str) -> bool
    ensures { result ≡ list_any (λ known. bytes_eq known.now name.now) scope.now }
{
    scope.contains(&name)
}

/// Returns whether a name is that of one of these cowns.
pub fn is_cown_name(cowns: &[Global<'_>], name: &str) -> bool
    ensures { result ≡ among (cown_names (map global_of cowns.now)) name.now }
{
    is_cown(cowns, name)
}

/// Returns whether a name is that of one of these cowns or defs.
pub fn is_declared(cowns: &[Global<'_>], defs: &[Callee<'_>], name: &str) -> bool
    ensures { result ≡ among (top_names (record { cowns = map global_of cowns.now; defs = map callee_of defs.now })) name.now }
{
    is_cown(cowns, name) || is_def(defs, name)
}

/// Returns whether a name is one of several.
pub fn is_name(names: &[&str], name: &str) -> bool
    ensures { result ≡ among (names_of names.now) name.now }
{
    is_known(names, name)
}

/// Returns the place of a cown parameter.
pub fn parameter_of(held: &[Spot<'_>], name: &str) -> Option<usize>
    ensures { result ≡ slot_of (map name_of held.now) name.now }
{
    find_parameter(held, name)
}

impl<'a> Top<'a> {
    /// Returns the cown, or the array of cowns, of a name.
    pub fn cown(&self, name: &str) -> Option<Global<'a>>
        ensures { option_map global_of result ≡ global (declared_of self.now) name.now }
    {
        find_cown(&self.cowns, name).copied()
    }

    /// Returns the kind of a def, and the def.
    pub fn def(&self, name: &str) -> Option<(usize, Callee<'a>)>
        ensures kind { option_map (λ r. r.0) result ≡ kind_of (declared_of self.now) name.now }
        ensures callee { option_map (λ r. callee_of r.1) result ≡ callee (declared_of self.now) name.now }
    {
        let place = find_def(&self.defs, name)?;
        Some((place + 1, self.defs[place]))
    }

    /// Returns whether a name may be declared: it is neither at the top nor in scope.
    pub fn leaves_free(&self, scope: &[&str], name: &str) -> bool
        ensures { result ≡ is_free (declared_of self.now) (names_of scope.now) name.now }
    {
        !is_declared(&self.cowns, &self.defs, name) && !is_known(scope, name)
    }
}

// What behaviours are called.

ghost use Rattle.std.specs.Prelude.{◌≡◌, ◌++◌, IfOk, OnOk};
ghost use Rattle.boc_names.specs.Names.{args_text, behaviour_text, more_args, texts_of};

use crate::held::CownNames;
use crate::texts::text_at;
use boc_eval::Instance;
use boc_text::put_signed;
use std::alloc::{AllocError, Global};

// Appends arguments to others.
fn put_more_args(text: &mut Vec<u8>, args: &[i64]) -> Result<(), AllocError>
    ensures { OnOk result (text.new.items ≡ text.old.items ++ more_args args.now) }
{
    match args {
        [] => Ok(()),
        [first, others @ ..] => {
            text.extend_from_slice(b", ")?;
            put_signed(text, *first)?;
            put_more_args(text, others)
        }
    }
}

// Appends the arguments of a behaviour to a text.
fn put_args(text: &mut Vec<u8>, args: &[i64]) -> Result<(), AllocError>
    ensures { OnOk result (text.new.items ≡ text.old.items ++ args_text args.now) }
{
    match args {
        [] => Ok(()),
        [first, others @ ..] => {
            put_signed(text, *first)?;
            put_more_args(text, others)
        }
    }
}

/// Returns what a behaviour is called: main, or the def's name, the arguments, and the cowns in the order of the parameters; main is the first of the defs.
/// `AllocError` says that memory was refused.
pub fn behaviour_text(
    alloc: Global,
    defs: &[Vec<u8>],
    cowns: &CownNames,
    instance: &Instance,
) -> Result<Vec<u8>, AllocError>
    ensures { IfOk result (λ text. text.items
        ≡ behaviour_text (texts_of defs.now) cowns.now instance.now.kind instance.now.args.items instance.now.cowns.items) }
{
    let mut text = Vec::new(alloc);
    if instance.kind == 0 {
        text.extend_from_slice(b"main")?;
        return Ok(text);
    }
    text.extend_from_slice(text_at(defs, instance.kind))?;
    text.push(b'(')?;
    put_args(&mut text, &instance.args)?;
    text.push(b';')?;
    cowns.put_held(&mut text, &instance.cowns)?;
    text.push(b')')?;
    Ok(text)
}

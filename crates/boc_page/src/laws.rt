// The law of a data block: it has one text.

ghost use Rattle.std.specs.Prelude.{◌≡◌, Option};
ghost use Rattle.boc_names.specs.Names.{Text};
ghost use Rattle.boc_page.specs.declared.block.Block.{Block};
ghost use Rattle.boc_page.specs.Blocks.{IsBlock};

/// Proves that the data block of these has one text.
pub fn block_has_one_text()
    ensures { (block : Block) (source : Option Text) (text other : Text) → IsBlock block source text → IsBlock block source other → text ≡ other }
{}

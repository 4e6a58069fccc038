// Laws of windows.

ghost use Rattle.std.specs.Prelude.{ℕ, List, Option};
ghost use Rattle.boc_runs.specs.declared.rows.Row.{Row as Kept};
ghost use Rattle.boc_cut.specs.declared.table.CownUse.{CownUse};
ghost use Rattle.boc_cut.specs.declared.table.Row.{Row};
ghost use Rattle.boc_cut.specs.Windows.{AreSpawned, AreOrigins, HasOrderOf};

/// Proves that rows which share a cown in a window are rows of the stream that share one, and are spawned there in the same order.
///
/// It needs that the rows of a window come from a table whose rows are spawned by lines of the stream.
pub fn window_has_order_of_stream()
    ensures { (text : List ℕ) (rows : List Row) (uses : List CownUse) (kept : List ℕ) (made : List Kept) (origins : List (Option ℕ))
        → AreSpawned text rows uses → AreOrigins rows uses kept made origins → HasOrderOf text made origins }
{}

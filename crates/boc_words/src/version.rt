// The version of the program.

/// The version of `boc`, and on a line of its own the kit that it is proved and built with. It is what `boc --version` prints.
///
/// This is the one place of the sources that holds them. The manifest of a shipped program names the same kit.
pub const VERSION: &str = "boc 0.2.0\nrattle-kit-13f logic dac8208d650f15bf\n";

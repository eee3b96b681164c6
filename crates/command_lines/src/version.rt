//! Which programs these are.

/// The version of the programs, and the kit that they are proved and built with. A program cannot see the kit: this
/// text is what `--version` prints. `bench/correct/names`, with which the gate begins, refuses another name than that
/// of `rt version`, and `tools/release` packs only what a kit of this name has built.
pub const VERSION: &str = "1.0.0 (rattle-kit-13f)";

//! The version of a machine file or a tool table.
ghost use Rattle.std.specs.Prelude.{◌≡◌};
ghost use Rattle.toml.specs.View.{view};
ghost use Rattle.ngc_machine_figures.specs.Version as spec;

use ngc_machine_files::whole_at;
use toml::Value;

/// Returns whether the tree of a machine file or a tool table is one of version 3.
pub fn is_written(tree: &Value) -> bool
    ensures { result ≡ spec.is_written (view tree.now) }
{
    match whole_at(tree, "version") {
        Some(version) => version == 3,
        None => false,
    }
}

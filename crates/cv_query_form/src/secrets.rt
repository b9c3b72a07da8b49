ghost use Rattle.std.specs.Prelude.{◌≡◌};
ghost use Rattle.cv_directory.specs.Tables.{seen};
ghost use Rattle.cv_query_form.specs.Held.{valued};

use cv_directory::Directory;
use cv_syntax_trees::sites::Sort;

/// Whether a name is a variable with values of a type.
pub fn has_values(sites: &Directory, x: u32) -> bool
    ensures { result ≡ valued (seen sites.now) x }
{
    matches!(sites.sort(x), Some(Sort::OfType(_)))
}

ghost use Rattle.std.specs.Prelude.{◌≡◌, List};
ghost use Rattle.cv_pool.specs.KindTree.{KindTree};
ghost use Rattle.cv_script.specs.Views.{items_of_view};
ghost use Rattle.cv_kernel.specs.Reducings.{reducing_of_items};

use cv_script::StepView;

/// An equivalence, and the variable that stands for its key, by their names.
#[derive(Clone, Copy)]
pub struct Reducing {
    pub equivalence: u32,
    pub key: u32,
}

/// The equivalence and the key of a cryptographic step by its items, where it is one.
pub(crate) fn reducing_by(view: StepView) -> Option<Reducing>
    ensures { (trees : List KindTree) → result ≡ reducing_of_items (items_of_view trees view) }
{
    match view {
        StepView::Crypto { equiv, x } => Some(Reducing {
            equivalence: equiv.0,
            key: x.0,
        }),
        _ => None,
    }
}

ghost use Rattle.std.specs.Prelude.{◌≡◌, List, Some};
ghost use Rattle.cv_outside.specs.words.Forms.{Asked, IsForm, Text};
ghost use Rattle.cv_outside.specs.words.Words.{command_read};

/// Words in plain form ask for what the form says.
pub fn plain_forms_are_read()
    ensures { (program : Text) (words : List Text) (asked : Asked)
        → IsForm program words asked → command_read words ≡ Some asked }
{}

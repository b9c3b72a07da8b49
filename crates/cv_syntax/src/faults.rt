// The first fault of a tree in preorder, where each node inherits a state from above. The laws are lemmas over any states
// and kinds of fault; the crates that walk a tree state them of their own.
ghost use Rattle.std.specs.Prelude.{◌≡◌, map};
ghost use Rattle.cv_syntax.specs.faults.Walk.{first_fault};
ghost use Rattle.cv_syntax.specs.faults.Worked.{nesting, trees};

/// Small trees with the first replication that stands below another one.
pub fn worked_nesting()
    ensures { map (λ t. first_fault nesting 0 0 t.0) trees ≡ map (λ t. t.1) trees }
{}

// Small games with the node that breaks a rule of array scope first.

ghost use Rattle.std.specs.Prelude.{◌≡◌, [], ◌∷◌, None, Some};
ghost use Rattle.cv_syntax_trees.specs.declared.head.Head.TheVariants.{Eq, Par, Stop, Yes, Yield};
ghost use Rattle.cv_syntax_trees.specs.Tree.{Node, lone};
ghost use Rattle.cv_syntax_trees.specs.Builders.{branch, event, find, input, leaf, output, read};
ghost use Rattle.cv_scope_rules.specs.declared.fault.Fault.TheVariants.{Channel, Replications, TwoSites, Unscoped};
ghost use Rattle.cv_scope_rules.specs.Scope.{first_scope_fault};
ghost use Rattle.cv_scope_rules.specs.Worked.{answers_twice, assignment, call, cell_found, constants, finds, finds_index, key, reads_below_two, reads_without_definition, repl, replicated, restriction, sends, starts, test, tests_cells};

/// Worked games on reads: below their definitions, beside them, and at other indices than the current ones.
pub fn worked_reads()
    ensures alone { first_scope_fault [] reads_without_definition ≡ Some (11, Unscoped) }
    ensures listed { first_scope_fault [] (finds (cell_found ∷ [])) ≡ None }
    ensures unlisted { first_scope_fault [] (finds []) ≡ Some (14, Unscoped) }
    ensures undefined { first_scope_fault [] (starts (sends 4)) ≡ Some (2, Unscoped) }
    ensures defined { first_scope_fault [] (starts (restriction 4 (sends 4))) ≡ None }
    ensures itself { first_scope_fault [] (starts (assignment 4 (leaf 4) (lone Yield)))
        ≡ Some (2, Unscoped) }
    ensures received { first_scope_fault [] (input 3 [] ((9, 5) ∷ []) (sends 9)) ≡ None }
    ensures constant { first_scope_fault constants (starts (sends 20)) ≡ None }
    ensures undeclared { first_scope_fault [] (starts (sends 20)) ≡ Some (2, Unscoped) }
    ensures current { first_scope_fault []
        (repl 1 (input 3 (1 ∷ []) [] (event 11 (leaf 1 ∷ []) (lone Yield)))) ≡ None }
    ensures past { first_scope_fault [] (Node Par (repl 1 (lone Stop)) (starts (sends 1)))
        ≡ Some (5, Unscoped) }
    ensures other { first_scope_fault [] (starts (test (restriction 4 (lone Yield)) (sends 4)))
        ≡ Some (6, Unscoped) }
    ensures ordered { first_scope_fault [] (reads_below_two (leaf 1 ∷ leaf 7 ∷ [])) ≡ None }
    ensures swapped { first_scope_fault [] (reads_below_two (leaf 7 ∷ leaf 1 ∷ []))
        ≡ Some (5, Unscoped) }
{}

/// Worked games on `defined` lists: what their cells, their condition and their body read, and what else does not.
pub fn worked_lists()
    ensures earlier { first_scope_fault []
        (starts (tests_cells (leaf 4 ∷ read 10 (leaf 4 ∷ []) ∷ []) (lone Yes) (lone Yield)))
        ≡ None }
    ensures later { first_scope_fault []
        (starts (tests_cells (read 10 (leaf 4 ∷ []) ∷ leaf 4 ∷ []) (lone Yes) (lone Yield)))
        ≡ Some (4, Unscoped) }
    ensures tested { first_scope_fault []
        (starts (tests_cells (leaf 4 ∷ []) (lone Yes) (lone Yield))) ≡ None }
    ensures condition { first_scope_fault []
        (starts (tests_cells (leaf 4 ∷ []) (Node Eq (leaf 4) (leaf 4)) (lone Yield))) ≡ None }
    ensures no_list { first_scope_fault []
        (starts (tests_cells [] (Node Eq (leaf 4) (leaf 4)) (lone Yield))) ≡ Some (4, Unscoped) }
    ensures otherwise { first_scope_fault []
        (starts (tests_cells (leaf 4 ∷ []) (lone Yes) (sends 4))) ≡ Some (7, Unscoped) }
    ensures own { first_scope_fault []
        (starts (find 1 (branch ((9, 2) ∷ []) [] (Node Eq (leaf 9) (leaf 9)) (lone Yield) ∷ [])
        (lone Yield))) ≡ None }
    ensures not_own { first_scope_fault []
        (starts (find 1 (branch ((9, 2) ∷ []) [] (lone Yes) (lone Yield) ∷ []) (sends 9)))
        ≡ Some (6, Unscoped) }
{}

/// Worked games on sites: in different branches, below each other, side by side, and under other replications.
pub fn worked_sites()
    ensures branches { first_scope_fault []
        (starts (test (restriction 4 (lone Yield)) (restriction 4 (sends 4)))) ≡ None }
    ensures below { first_scope_fault []
        (starts (restriction 4 (test (restriction 4 (lone Yield)) (lone Yield))))
        ≡ Some (4, TwoSites) }
    ensures twice { first_scope_fault [] (input 3 [] ((4, 5) ∷ (4, 5) ∷ []) (lone Yield))
        ≡ Some (0, TwoSites) }
    ensures beside { first_scope_fault []
        (Node Par (input 3 [] [] (restriction 4 (lone Yield)))
        (input 8 [] [] (restriction 4 (lone Yield)))) ≡ Some (5, TwoSites) }
    ensures indices { first_scope_fault []
        (starts (find 1 (finds_index ∷ finds_index ∷ []) (lone Yield))) ≡ None }
    ensures otherwise { first_scope_fault []
        (starts (find 1 (finds_index ∷ []) (restriction 9 (lone Yield)))) ≡ None }
    ensures inside { first_scope_fault []
        (starts (find 1 (branch ((9, 2) ∷ []) [] (lone Yes) (restriction 9 (lone Yield)) ∷ [])
        (lone Yield))) ≡ Some (4, TwoSites) }
    ensures replicated { first_scope_fault []
        (starts (test (output 6 [] [] (repl 1 (input 8 (1 ∷ []) [] (restriction 4 (lone Yield)))))
        (restriction 4 (lone Yield)))) ≡ Some (8, TwoSites) }
    ensures labels { first_scope_fault []
        (starts (find 1 (finds_index ∷ []) (find 1 [] (lone Yield)))) ≡ Some (5, TwoSites) }
    ensures labels_apart { first_scope_fault []
        (starts (test (find 1 [] (lone Yield)) (find 1 [] (lone Yield)))) ≡ None }
{}

/// Worked contexts: a key and the result of a call are read below them alone, have one site as other variables do, and are
/// no index.
pub fn worked_oracles()
    ensures called { first_scope_fault [] (starts (key 4 (call 10 1 (leaf 4 ∷ []) (sends 10))))
        ≡ None }
    ensures unkeyed { first_scope_fault [] (starts (call 10 1 (leaf 4 ∷ []) (key 4 (lone Yield))))
        ≡ Some (2, Unscoped) }
    ensures itself { first_scope_fault []
        (starts (key 4 (call 10 1 (leaf 4 ∷ leaf 10 ∷ []) (lone Yield)))) ≡ Some (4, Unscoped) }
    ensures keyed_twice { first_scope_fault [] (starts (key 4 (key 4 (lone Yield))))
        ≡ Some (2, TwoSites) }
    ensures called_twice { first_scope_fault []
        (starts (key 4 (call 10 1 (leaf 4 ∷ []) (call 10 2 (leaf 4 ∷ []) (lone Yield)))))
        ≡ Some (4, TwoSites) }
    ensures branches { first_scope_fault [] (starts (test (key 4 (lone Yield)) (key 4 (sends 4))))
        ≡ None }
    ensures index { first_scope_fault [] (repl 4 (input 3 (4 ∷ []) [] (key 4 (lone Yield))))
        ≡ Some (0, Replications) }
{}

/// Worked games on channels: with other indices than the current ones, and with several inputs.
pub fn worked_channels()
    ensures forgotten { first_scope_fault [] (repl 1 (input 3 [] [] (lone Yield)))
        ≡ Some (1, Channel) }
    ensures sent { first_scope_fault [] (repl 1 (input 3 (1 ∷ []) [] (output 6 [] [] (lone Stop))))
        ≡ Some (2, Channel) }
    ensures swapped { first_scope_fault [] (repl 1 (repl 7 (input 3 (7 ∷ 1 ∷ []) [] (lone Yield))))
        ≡ Some (2, Channel) }
    ensures beside { first_scope_fault []
        (Node Par (input 3 [] [] (lone Yield)) (input 3 [] [] (lone Yield))) ≡ Some (3, Channel) }
    ensures branches { first_scope_fault [] (answers_twice 5 5) ≡ None }
    ensures types { first_scope_fault [] (answers_twice 5 13) ≡ Some (7, Channel) }
{}

/// Worked games on replications: too many, an index that is bound twice or is a variable, and the first of two faults.
pub fn worked_replications()
    ensures eight { first_scope_fault [] (replicated (1 ∷ 2 ∷ 3 ∷ 4 ∷ 5 ∷ 6 ∷ 7 ∷ 8 ∷ [])) ≡ None }
    ensures nine { first_scope_fault [] (replicated (1 ∷ 2 ∷ 3 ∷ 4 ∷ 5 ∷ 6 ∷ 7 ∷ 8 ∷ 9 ∷ []))
        ≡ Some (9, Replications) }
    ensures again { first_scope_fault [] (replicated (1 ∷ 2 ∷ 1 ∷ [])) ≡ Some (2, Replications) }
    ensures beside { first_scope_fault [] (Node Par (repl 1 (lone Stop)) (repl 1 (lone Stop)))
        ≡ None }
    ensures variable { first_scope_fault []
        (repl 4 (input 3 (4 ∷ []) [] (restriction 4 (lone Yield)))) ≡ Some (0, Replications) }
    ensures many_indices { first_scope_fault []
        (starts (find 1 (branch ((21, 2) ∷ (22, 2) ∷ (23, 2) ∷ (24, 2) ∷ (25, 2) ∷ (26, 2)
        ∷ (27, 2) ∷ (28, 2) ∷ (29, 2) ∷ []) [] (lone Yes) (lone Yield) ∷ []) (lone Yield)))
        ≡ Some (2, Replications) }
    ensures first { first_scope_fault []
        (Node Par (repl 1 (input 3 [] [] (lone Yield))) (starts (sends 4))) ≡ Some (2, Channel) }
{}

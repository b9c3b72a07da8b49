ghost use Rattle.std.specs.Prelude.{◌≡◌, ◌↔◌, ℕ, suc, List, [], ◌∷◌, Option, Ok, Err, Some, None};
ghost use Rattle.cv_syntax_trees.specs.Declarations.{Declaration};
ghost use Rattle.cv_syntax_trees.specs.Tree.{Tree, lone};
ghost use Rattle.cv_syntax_trees.specs.declared.head.Head.TheVariants.{Stop};
ghost use Rattle.cv_parse_notation.specs.Reads.{Found, found, Syntax, Nesting};
ghost use Rattle.cv_parse_notation.specs.Spells.{Use};
ghost use Rattle.cv_parse_notation.specs.Whole.{Dead};
ghost use Rattle.cv_parse_notation.specs.declared.sign.Sign.{Sign};
ghost use Rattle.cv_parse_grammar.specs.Files.{IsFile, IsSomeFile, read_whole};
ghost use Rattle.cv_parse_grammar.specs.Filled.{filled_at};
ghost use Rattle.cv_parse_grammar.specs.Identities.{AreDistinct, ids_of};
ghost use Rattle.cv_parse_grammar.specs.Names.{Uses, NameFault, NameTwice, NameUnknown, AreNamed, IsNameFault, name_fault};
ghost use Rattle.cv_parse_grammar.specs.Rules.{File};
ghost use Rattle.cv_parse_grammar.specs.Whole.{IsRead, IsMisnamed, Unread, Misnamed, outcome};
ghost use Rattle.cv_parse_grammar.specs.Worked.{declarations, equivalences, tests, searches, arrays, nested, reserved, repeated, local_first, bound_first, unbound, unknown, later};
ghost use Rattle.cv_parse_grammar.specs.Expected.{declared, equated, tested, testing, searched, searching, arrayed, arraying};
ghost use Rattle.cv_parse_grammar.specs.declared.role.Role.{Role};

/// Reading by the next token takes the files of the grammar and nothing else. So tokens spell at most one
/// file, with one tree and one list of uses of names. Where reading names a token as a fault of syntax, no
/// file begins with the tokens through that one. And one level more takes all files that were taken.
pub fn reading_is_exact()
    ensures sound { (n : ℕ) (tokens : List Sign) (x : Found Role File) →
        read_whole n tokens ≡ Ok x → IsFile n tokens x.value x.uses [] }
    ensures complete { (n : ℕ) (tokens : List Sign) (f : File) (uses : List (Use Role)) →
        IsFile n tokens f uses [] → read_whole n tokens ≡ found f uses [] }
    ensures faults { (n : ℕ) (tokens : List Sign) (left : ℕ) →
        read_whole n tokens ≡ Err (Syntax left) → Dead (IsSomeFile n) tokens left }
    ensures deeper { (n : ℕ) (tokens : List Sign) (f : File) (uses : List (Use Role)) →
        IsFile n tokens f uses [] → IsFile (suc n) tokens f uses [] }
{}

/// The rules of names are decided from left to right: no fault is found exactly where every use of a name
/// obeys its rule, and else the fault of the first use that breaks its rule.
pub fn names_are_decided()
    ensures none { (uses : Uses) → name_fault uses ≡ None ↔ AreNamed uses }
    ensures first { (uses : Uses) (f : NameFault) → name_fault uses ≡ Some f ↔ IsNameFault uses f }
{}

/// What is computed of a file is what is meant: it is accepted with its declarations, its proof block and its
/// game exactly where the grammar and the rules of names hold, and refused for a name exactly where the
/// grammar holds and that use of a name is the first that breaks its rule. So a file says one thing only.
pub fn files_are_decided()
    ensures accepted { (tokens : List Sign) (decls : List Declaration) (script : Option (ℕ × ℕ)) (game : Tree) →
        outcome tokens ≡ Ok (decls, (script, game)) ↔ IsRead tokens decls script game }
    ensures misnamed { (tokens : List Sign) (f : NameFault) →
        outcome tokens ≡ Err (Misnamed f) ↔ IsMisnamed tokens f }
{}

/// A file declares no name twice, and none as `bool`, whose number is 0.
pub fn declarations_are_distinct()
    ensures { (tokens : List Sign) (decls : List Declaration) (script : Option (ℕ × ℕ)) (game : Tree) →
        IsRead tokens decls script game → AreDistinct (0 ∷ ids_of decls) }
{}

/// Filling changes nothing in what it has filled, whatever first definitions the variables have and whatever
/// replications stand above: a second filling with the same ones gives the same tree.
pub fn filling_is_settled()
    ensures { (sites : ℕ → Option ℕ) (now : List ℕ) (text : Tree) →
        filled_at sites now (filled_at sites now text) ≡ filled_at sites now text }
{}

/// Small files with what they say: each kind of declaration, a collision and an equivalence, nested tests,
/// a search in an array with plain reads, written indices, and as many parentheses as there are levels.
pub fn worked_files()
    ensures declarations { IsRead declarations declared None (lone Stop) }
    ensures equivalences { IsRead equivalences equated None (lone Stop) }
    ensures tests { IsRead tests tested None testing }
    ensures searches { IsRead searches searched (Some (72, 67)) searching }
    ensures arrays { IsRead arrays arrayed None arraying }
    ensures nested { IsRead (nested 199) [] None (lone Stop) }
{}

/// Small files that are refused: a reserved word is no name, one parenthesis is too many, a name is declared
/// twice, or after an equation or an equivalence has bound it, a name of an equivalence is declared later, a
/// parameter is not declared, and an index is read before it is bound. The number counts the tokens left.
pub fn refused_files()
    ensures reserved { outcome reserved ≡ Err (Unread (Syntax 4)) }
    ensures nested { outcome (nested 200) ≡ Err (Unread (Nesting 201)) }
    ensures repeated { outcome repeated ≡ Err (Misnamed (NameTwice 4)) }
    ensures local_first { outcome local_first ≡ Err (Misnamed (NameTwice 6)) }
    ensures bound_first { outcome bound_first ≡ Err (Misnamed (NameTwice 6)) }
    ensures unbound { outcome unbound ≡ Err (Misnamed (NameUnknown 36)) }
    ensures unknown { outcome unknown ≡ Err (Misnamed (NameUnknown 2)) }
    ensures later { outcome later ≡ Err (Misnamed (NameUnknown 11)) }
{}

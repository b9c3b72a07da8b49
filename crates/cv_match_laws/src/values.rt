// Laws of the values of instances of the functions of a left side.

ghost use Rattle.std.specs.Prelude.{◌≡◌, List, Some};
ghost use Rattle.cv_syntax_trees.specs.Declarations.{Declaration};
ghost use Rattle.cv_meaning.specs.Memory.{Indices, Store};
ghost use Rattle.cv_meaning.specs.Side.{Arrays, OracleCall};
ghost use Rattle.cv_meaning.specs.Tapes.{Tape};
ghost use Rattle.cv_meaning.specs.Terms.{value};
ghost use Rattle.cv_meaning.specs.contexts.Groups.{Function};
ghost use Rattle.cv_meaning.specs.contexts.Finds.{Oracles};
ghost use Rattle.cv_meaning.specs.contexts.Bodies.{function_called, reply};
ghost use Rattle.cv_scope_rules.specs.Phrases.{HasConstantsOf};
ghost use Rattle.cv_scene.specs.Instances.{Instance, filled};
ghost use Rattle.cv_scene.specs.LeftTerms.{IsLeftFunction};
ghost use Rattle.cv_scene.specs.Standing.{HasNoConstant, HasValuesOf};

/// A left function answers a call with the value of the body that is filled with an instance's terms, where
/// these have the values of the call: the key's, those that are drawn for the coins, and the arguments. So it
/// is whatever the side has assigned before.
pub fn instances_have_the_values_of_answers()
    ensures { (ds : List Declaration) (o : Oracles) (f : Function) (I : Instance) (at : Indices)
        (m : Store) (t : Tape) (arrays : Arrays) (call : OracleCall) →
        HasConstantsOf ds o.setting → HasNoConstant o.setting at → IsLeftFunction ds o.group f →
        function_called o call.number ≡ Some f → HasValuesOf o.setting at m t f I call →
        (reply o t arrays call).value ≡ value o.setting at m (filled o.group f I) }
{}

ghost use Rattle.std.specs.Prelude.{◌≡◌, ◌<◌, ◌^◌, ◌∷◌, ℕ, None, List, length};
ghost use Rattle.cv_pool.specs.KindTree.{KindTree};
ghost use Rattle.cv_pool.specs.Nodes.{ChildBelow};
ghost use Rattle.cv_syntax_trees.specs.Tree.{Node};
ghost use Rattle.cv_syntax.specs.PoolTrees.{tree_at};
ghost use Rattle.cv_syntax_trees.specs.declared.head.Head.TheVariants.{Cases};
ghost use Rattle.cv_scene.specs.lines.Lines as derivations;
ghost use Rattle.cv_scene.specs.lines.Lines.{Lines, lines_of, statements};
ghost use Rattle.cv_derive_lines.specs.declared.lines.Line.TheVariants as line;
ghost use Rattle.cv_derive_lines.specs.declared.lines.Claim.TheVariants as claim;
ghost use Rattle.cv_derive_lines.specs.Views.{AreBelow, IsClaimBelow, front, in_front, statement_of};

use cv_syntax::{Head, NodeId, Opened, Pool, read_node};

/// What a line says.
#[derive(Clone, Copy)]
pub enum Claim {
    /// The term is true.
    Holds(Option<NodeId>),
    /// The cell is defined.
    IsDefined(Option<NodeId>),
}

/// A line of a derivation.
#[derive(Clone, Copy)]
pub enum Line {
    By {
        claim: Claim,
        reason: Option<NodeId>,
    },
    Cases {
        condition: Option<NodeId>,
        first: Option<NodeId>,
        second: Option<NodeId>,
        conclusion: Option<NodeId>,
    },
}

/// What a tree is that is no line.
fn no_line() -> Line
    ensures { result ≡ line.By (claim.Holds None) None }
{
    Line::By {
        claim: Claim::Holds(None),
        reason: None,
    }
}

/// A line by cases.
fn cases(pool: &Pool, node: Opened) -> Line
    requires { ChildBelow (length pool.now.trees) node.second }
    ensures line { (rest : Lines) → in_front pool.now.trees result rest
        ≡ front (Node Cases (tree_at pool.now.trees node.first) (tree_at pool.now.trees node.second))
        rest }
    ensures live { (n : ℕ) → ChildBelow n node.first → ChildBelow n node.second
        → AreBelow n result }
{
    let Some(k) = node.second else {
        return no_line();
    };
    let blocks = read_node(pool, k);
    let Some(m) = blocks.second else {
        return no_line();
    };
    let last = read_node(pool, m);
    Line::Cases {
        condition: node.first,
        first: blocks.first,
        second: last.first,
        conclusion: last.second,
    }
}

/// The line that an item of a derivation is.
pub fn line_of(pool: &Pool, item: Option<NodeId>) -> Line
    requires { ChildBelow (length pool.now.trees) item }
    ensures line { (rest : Lines) → in_front pool.now.trees result rest
        ≡ front (tree_at pool.now.trees item) rest }
    ensures live { (n : ℕ) → ChildBelow n item → AreBelow n result }
{
    let Some(n) = item else {
        return no_line();
    };
    let node = read_node(pool, n);
    match node.head {
        Head::Line => Line::By {
            claim: Claim::Holds(node.first),
            reason: node.second,
        },
        Head::Defined => Line::By {
            claim: Claim::IsDefined(node.first),
            reason: node.second,
        },
        Head::Cases => cases(pool, node),
        _ => no_line(),
    }
}

/// What a line says.
#[tactic(auto, unfolding(cv_scene::specs::lines::Lines::statements))]
pub fn claim_of(line: Line) -> Claim
    ensures claim { (trees : List KindTree) (rest : Lines) → statements (in_front trees line rest)
        ≡ statement_of trees result ∷ statements rest }
    ensures live { (n : ℕ) → AreBelow n line → IsClaimBelow n result }
{
    match line {
        Line::By { claim, .. } => claim,
        Line::Cases { conclusion, .. } => Claim::Holds(conclusion),
    }
}

/// How many lines there are, those inside blocks too.
pub fn count(pool: &Pool, lines: Option<NodeId>) -> u32
    requires live { ChildBelow (length pool.now.trees) lines }
    requires fits { derivations.count (lines_of (tree_at pool.now.trees lines)) < 2 ^ 32 }
    ensures { result ≡ derivations.count (lines_of (tree_at pool.now.trees lines)) }
{
    let mut total = 0;
    let mut at = lines;
    'lines: while let Some(k) = at {
        let node = read_node(pool, k);
        match line_of(pool, node.first) {
            Line::By { .. } => {
                total += 1;
                at = node.second;
            }
            Line::Cases { first, second, .. } => {
                total += count(pool, first);
                total += count(pool, second);
                total += 1;
                at = node.second;
            }
        }
    }
    total
}

// What declarations ask of the sizes of types, and whether types of at most three values can have them.
use cv_explain_source::{Kind, Located, Page, arguments_of, items_of, kind_of, nodes_of, opened};
use cv_syntax::{Class, Decl, Head, NameId, NodeId, Work};

/// The most values of a type that are tried.
const MOST_VALUES: u32 = 3;

/// The most demands that are looked at.
const MOST_DEMANDS: usize = 100;

/// The number of the name `bool`.
const BOOL: u32 = 0;

/// Values of a type that are told apart: one, or one for each list of arguments of a function.
#[derive(Clone, Copy)]
enum Values {
    One,
    Lists(u32),
}

/// That a type has as many values as two kinds of them together, or as those of a function that is `[data]` alone: by that function, or by an
/// equation that says that a value of the one kind is none of the other.
#[derive(Clone, Copy)]
enum Demand {
    Injection {
        function: u32,
        ty: u32,
    },
    Difference {
        equation: NodeId,
        ty: u32,
        left: Values,
        right: Values,
    },
}

/// The type of which something is asked.
fn result_of(demand: Demand) -> u32 {
    match demand {
        Demand::Injection { ty, .. } | Demand::Difference { ty, .. } => ty,
    }
}

/// The two sides of an equation that says that they differ.
fn sides_of(work: &Work, body: Option<NodeId>) -> Option<(NodeId, NodeId)> {
    let node = opened(&work.pool, body)?;
    let first = opened(&work.pool, node.first)?;
    let both = match node.head {
        Head::Not => first,
        Head::Eq => {
            let second = opened(&work.pool, node.second)?;
            match (first.head, second.head) {
                (Head::Eq, Head::No) => first,
                (Head::No, Head::Eq) => second,
                _ => return None,
            }
        }
        _ => return None,
    };
    match both.head {
        Head::Eq => Some((both.first?, both.second?)),
        _ => None,
    }
}

/// The variable that a term is, where it is one.
fn variable_of(work: &Work, term: NodeId) -> Option<u32> {
    match opened(&work.pool, Some(term))?.head {
        Head::Leaf(x) => match work.decls.class(NameId(x)) {
            Class::Free => Some(x),
            _ => None,
        },
        _ => None,
    }
}

/// Whether a name stands in a tree.
fn stands_in(page: &mut Page, work: &Work, tree: NodeId, x: u32) -> bool {
    for (_number, _n, node) in &nodes_of(page, &work.pool, &[tree]) {
        if matches!(node.head, Head::Leaf(y) if x == y) {
            return true;
        }
    }
    false
}

/// Whether terms are variables, none twice, and none of them stands in a tree.
fn are_own_variables(page: &mut Page, work: &Work, terms: &[NodeId], other: NodeId) -> bool {
    let mut seen = Vec::new(page.alloc());
    for term in terms {
        match variable_of(work, *term) {
            Some(x) if !seen.contains(&x) && !stands_in(page, work, other, x) => {
                page.push(&mut seen, x);
            }
            _ => return false,
        }
    }
    true
}

/// The values that a term has, whatever a term beside it is: those of a function that is `[data]` at variables of its own, and else one.
fn values_of(page: &mut Page, work: &Work, term: NodeId, other: NodeId) -> Values {
    let Some(node) = opened(&work.pool, Some(term)) else {
        return Values::One;
    };
    let Head::Apply(f) = node.head else {
        return Values::One;
    };
    let terms = items_of(page, &work.pool, node.first);
    match work.decls.class(NameId(f)) {
        Class::Fun { data_like: true } if are_own_variables(page, work, &terms, other) => {
            Values::Lists(f)
        }
        _ => Values::One,
    }
}

/// The type of a term of an equation.
fn type_of(page: &mut Page, work: &Work, equation: NodeId, term: NodeId) -> Option<u32> {
    let located = Located {
        is_equivalence: false,
        root: equation,
        before: 0,
        number: 0,
        term,
        node: opened(&work.pool, Some(term))?,
        parent: None,
        position: 0,
    };
    match kind_of(page, work, located, term) {
        Kind::Type(ty) => Some(ty),
        _ => None,
    }
}

/// What an equation asks for, where it says that two terms differ.
fn difference(page: &mut Page, work: &Work, equation: NodeId) -> Option<Demand> {
    let body = opened(&work.pool, Some(equation))?.second;
    let (left, right) = sides_of(work, body)?;
    Some(Demand::Difference {
        equation: body?,
        ty: type_of(page, work, equation, left)?,
        left: values_of(page, work, left, right),
        right: values_of(page, work, right, left),
    })
}

/// What a declaration asks of the sizes of types.
fn demand_of(page: &mut Page, work: &Work, decl: Decl) -> Option<Demand> {
    match decl {
        Decl::Name {
            id,
            class: Class::Fun { data_like: true },
            result: Some(ty),
            ..
        } => Some(Demand::Injection {
            function: id.0,
            ty: ty.0,
        }),
        Decl::Equation(equation) => difference(page, work, equation),
        _ => None,
    }
}

/// What the declarations ask of the sizes of types, the first of it where it is much.
fn demands_of(page: &mut Page, work: &Work) -> Vec<Demand> {
    let mut demands = Vec::new(page.alloc());
    for k in 0..work.decls.len() {
        if let Some(decl) = work.decls.get(k) {
            if let Some(demand) = demand_of(page, work, *decl) {
                if demands.len() < MOST_DEMANDS {
                    page.push(&mut demands, demand);
                }
            }
        }
    }
    demands
}

/// How many lists of arguments a function has, or one more than are tried, where types have these sizes.
fn lists_of(page: &mut Page, work: &Work, function: u32, sizes: &[u32]) -> u32 {
    let mut count = 1_u32;
    for ty in &arguments_of(page, work, function) {
        let size = sizes.get(*ty as usize).copied().unwrap_or(1);
        count = count.saturating_mul(size).min(MOST_VALUES + 1);
    }
    count
}

/// How many values these are.
fn count_of(page: &mut Page, work: &Work, values: Values, sizes: &[u32]) -> u32 {
    match values {
        Values::One => 1,
        Values::Lists(function) => lists_of(page, work, function, sizes),
    }
}

/// How many values a demand asks for, where types have these sizes.
fn asked_of(page: &mut Page, work: &Work, demand: Demand, sizes: &[u32]) -> u32 {
    match demand {
        Demand::Injection { function, .. } => lists_of(page, work, function, sizes),
        Demand::Difference { left, right, .. } => {
            let first = count_of(page, work, left, sizes);
            first.saturating_add(count_of(page, work, right, sizes))
        }
    }
}

/// The most values of a type that are tried; `bool` has two.
fn most_of(ty: u32) -> u32 {
    if ty == BOOL { 2 } else { MOST_VALUES }
}

/// Gives each type as many values as the demands ask for, once; the first demand for more than are tried, and whether a type got more.
fn raise(
    page: &mut Page,
    work: &Work,
    demands: &[Demand],
    sizes: &mut Vec<u32>,
) -> (Option<(Demand, u32)>, bool) {
    let mut is_more = false;
    for demand in demands {
        let asked = asked_of(page, work, *demand, sizes);
        let ty = result_of(*demand);
        if let Some(size) = sizes.get_mut(ty as usize) {
            if asked > most_of(ty) {
                return (Some((*demand, asked)), true);
            }
            if asked > *size {
                *size = asked;
                is_more = true;
            }
        }
    }
    (None, is_more)
}

/// The sizes of types by the numbers of their names, where nothing is asked of them.
fn least_sizes(page: &mut Page, work: &Work) -> Vec<u32> {
    let mut sizes = Vec::new(page.alloc());
    for name in 0..work.names.len() {
        page.push(&mut sizes, if name == BOOL { 2 } else { 1 });
    }
    sizes
}

/// A demand that types of at most three values can't meet beside the others, and how many values it asks for at least.
fn unmet(page: &mut Page, work: &Work, demands: &[Demand]) -> Option<(Demand, u32)> {
    let mut sizes = least_sizes(page, work);
    for _ in 0..demands.len().saturating_mul(4) {
        match raise(page, work, demands, &mut sizes) {
            (None, false) => return None,
            (None, true) => {}
            (found, _) => return found,
        }
    }
    None
}

/// Says of a demand why it is one.
fn say_demand(page: &mut Page, work: &Work, demand: Demand) {
    match demand {
        Demand::Injection { function, .. } => {
            page.quote("", &work.names, function);
            page.say(" is [data]");
        }
        Demand::Difference { equation, .. } => {
            page.say("by the equation ");
            page.quote_term(work, equation);
        }
    }
}

/// Adds a type to a list, where it isn't there; whether it wasn't.
fn add_type(page: &mut Page, types: &mut Vec<u32>, ty: u32) -> bool {
    let is_new = !types.contains(&ty);
    if is_new {
        page.push(types, ty);
    }
    is_new
}

/// Adds the results of functions that are `[data]` and take a type of a list; whether there was one.
fn add_results(page: &mut Page, work: &Work, demands: &[Demand], types: &mut Vec<u32>) -> bool {
    let mut is_more = false;
    for demand in demands {
        if let Demand::Injection { function, ty } = *demand {
            for argument in &arguments_of(page, work, function) {
                if types.contains(argument) && add_type(page, types, ty) {
                    is_more = true;
                }
            }
        }
    }
    is_more
}

/// The types that have at least as many values as a type, by functions that are `[data]`.
fn types_from(page: &mut Page, work: &Work, demands: &[Demand], ty: u32) -> Vec<u32> {
    let mut types = Vec::new(page.alloc());
    page.push(&mut types, ty);
    for _ in demands {
        if !add_results(page, work, demands, &mut types) {
            return types;
        }
    }
    types
}

/// The types of which a function takes values beside one of a type that has as many as its result: those have one value.
fn singles_by(page: &mut Page, work: &Work, function: u32, from: &[u32]) -> Vec<u32> {
    let mut singles = Vec::new(page.alloc());
    let arguments = arguments_of(page, work, function);
    let beside = arguments.iter().filter(|ty| from.contains(*ty)).count();
    for ty in &arguments {
        if beside > 1 || (beside == 1 && !from.contains(ty)) {
            let _is_new = add_type(page, &mut singles, *ty);
        }
    }
    singles
}

/// Says that a type has one value by a function.
fn say_single(page: &mut Page, work: &Work, single: u32, function: u32, ty: u32) {
    page.name("  type ", &work.names, single);
    page.say(" has one value in each interpretation that satisfies the declarations: function ");
    page.name("", &work.names, function);
    page.say(" is [data], and takes ");
    let mut mark = "(";
    for argument in &arguments_of(page, work, function) {
        page.name(mark, &work.names, *argument);
        mark = ", ";
    }
    page.name(") to ", &work.names, ty);
    page.say("\n");
}

/// Says of each type that has one value, whatever the interpretation, by which function, once.
fn remark_singles(page: &mut Page, work: &Work, demands: &[Demand]) {
    let mut seen = Vec::new(page.alloc());
    for demand in demands {
        if let Demand::Injection { function, ty } = *demand {
            let from = types_from(page, work, demands, ty);
            for single in &singles_by(page, work, function, &from) {
                if add_type(page, &mut seen, *single) {
                    say_single(page, work, *single, function, ty);
                }
            }
        }
    }
}

/// Says of declarations that types of at most three values can't have them, or else which types have one value.
pub fn remark_sizes(page: &mut Page, work: &Work) {
    let demands = demands_of(page, work);
    let Some((demand, asked)) = unmet(page, work, &demands) else {
        return remark_singles(page, work, &demands);
    };
    page.say("  no interpretation with at most 3 values of each type satisfies the declarations: ");
    say_demand(page, work, demand);
    page.name(", so ", &work.names, result_of(demand));
    page.number(" has at least ", u64::from(asked));
    page.say(" values\n");
}

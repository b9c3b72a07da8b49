// Where bytes, tokens and syntax nodes of a file stand in its text, what trees say of names, and text that is written piece by piece.
#![tactic(auto)]

mod aligning;
mod locating;
mod page;
mod source;
mod spots;
mod tokens;
mod words;

pub use aligning::{Positions, positions_of};
pub use locating::{
    Kind, Located, arguments_of, first_of, function_name, functions_of, is_term, items_of, kind_of,
    locate, node_at, nodes_of, opened, query_of, second_of, sites_of, size_of, trees, variables_of,
    wanted_kind,
};
pub use page::{Page, entry_of};
pub use source::{Source, spot_at};
pub use spots::{Spot, caret_line, line_at, spot_of};
pub use tokens::Text;

//! The models of a project over one another: which relations the text of a query names, which models stand before a
//! model and are named by it, and each model's node with its definition, its parents' places and its fingerprint. Its
//! contract: `are_apart` tells the first name that stands twice, and `nodes_of` gives the nodes of files in an order,
//! or their first fault, as `specs/nodes/Apart.antt` and `Nodes.antt` there say.

mod apart;
mod earlier;
mod nodes;
mod reads;

pub use apart::are_apart;
pub use earlier::{Earlier, Place};
pub use nodes::nodes_of;
pub use reads::text_reads;

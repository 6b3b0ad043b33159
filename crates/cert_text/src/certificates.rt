use crate::nodes::Node;
use query_base::{Claim, Query};

/// A claim about a query, and a tree of reasons why no game contradicts it.
#[derive(Drop)]
pub struct Cert {
    /// What is claimed of the query.
    pub claim: Claim,
    /// What is claimed about.
    pub query: Query,
    /// The root of the tree, at depth 0.
    pub root: Node,
}

//! The text of certificates. A certificate is a claim about a query and a tree of reasons, written in lines.
#![tactic(auto)]

mod argument_writing;
mod arguments;
mod cert_writing;
mod certificates;
mod claims;
mod clocks;
mod faults;
mod formats;
mod head_writing;
mod headers;
mod heads;
mod laws;
mod line_writing;
mod lines;
mod node_lines;
mod nodes;
mod query_lines;
mod query_reading;
mod reading;
mod reasons;
mod sketch_lines;
mod sketch_reading;
mod sketch_writing;

pub use argument_writing::push_duals;
pub use arguments::read_duals;
pub use cert_writing::{body_line, write_cert};
pub use certificates::Cert;
pub use claims::{read_claim, write_claim};
pub use clocks::Clock;
pub use faults::CertFault;
pub use formats::fits_format;
pub use head_writing::write_head;
pub use headers::read_root_line;
pub use heads::{Format, Head, read_head_line, root_line_of};
pub use laws::{
    heads_lead_to_the_root, no_long_lines, one_fault_each, one_text_each, one_text_of_a_claim,
    one_text_of_a_line,
};
pub use line_writing::write_line;
pub use lines::{first_line, without_end};
pub use node_lines::{BodyLine, NodeLine, read_line};
pub use nodes::{Body, Kid, Kids, Node};
pub use query_lines::write_query_lines;
pub use query_reading::{FirstQuery, take_fen, take_odds, take_query};
pub use reading::{read_cert, read_kid_line};
pub use reasons::Reason;
pub use sketch_lines::read_sketch_line;

//! Pictures of networks: what a drawing of a plan shows, and how it is spelled for Mermaid and for Graphviz. It is for
//! programs that show networks, as `draw` does. The contracts are those of `Drawing`, which has each process and each
//! connection of the plan once, and of the two spellings, in which every quoted text reads back.
#![tactic(auto)]

mod boxes;
mod dot;
mod drawing;
mod edges;
mod folding;
mod fronts;
mod givens;
mod labels;
mod mermaid;
mod of;
mod ports;
mod print;
mod quote;
mod rows;
mod settings;

pub use drawing::{Drawing, Edge, Given, Mark, Node, Remark, Remarks, Row, Setting};
pub use ports::{input_text, output_text};
pub use quote::{Form, a_quoted_text_reads_back, put_quoted};
pub use rows::each_process_stands_in_its_boxes;

//! The text of a drawing.
use crate::drawing::Drawing;
use crate::quote::Form;
use crate::{dot, mermaid};
use std::alloc::{AllocError, Global};

impl Drawing {
    ghost use Rattle.std.specs.Prelude.{◌≡◌, IfOk};
    ghost use Rattle.flow_drawing.specs.Spelling.{drawing_text};

    /// The text of a drawing in one of the languages. Its form is this project's own.
    pub fn print(&self, alloc: Global, form: Form) -> Result<Vec<u8>, AllocError>
        ensures { IfOk result (λ text. text.items ≡ drawing_text form self.now) }
    {
        let mut out = Vec::new(alloc);
        let rows = self.rows.as_slice();
        let givens = self.givens.as_slice();
        let edges = self.edges.as_slice();
        match form {
            Form::Mermaid => {
                out.extend_from_slice(b"graph LR\n")?;
                mermaid::put_rows(&mut out, rows)?;
                mermaid::put_givens(&mut out, givens)?;
                mermaid::put_edges(&mut out, edges)?;
            }
            Form::Dot => {
                out.extend_from_slice(b"digraph {\nrankdir=LR\nnode [shape=box]\n")?;
                dot::put_rows(&mut out, rows)?;
                dot::put_givens(&mut out, givens)?;
                dot::put_edges(&mut out, edges)?;
                out.extend_from_slice(b"}\n")?;
            }
        }
        Ok(out)
    }
}

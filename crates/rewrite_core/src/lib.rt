//! The rewriting of an executable: what is taken, and the new file.
#![tactic(auto)]

mod laws;
mod lay;
mod layout;
mod places;
mod placing;
mod rewriter;

pub use laws::{agreement_laws, layout_laws};
pub use rewriter::{RewriteError, Rewritten, rewrite};

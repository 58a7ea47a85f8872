//! What does compiling a module come to, by its texts, and how is that delivered?
//!
//! What is decided of a module is decided by the texts as they stand (`specs/Decisions`), one case for each kind of
//! it; what goes with a decision is `specs/Verdicts`, and `specs/Outcome` puts both together. A `Verdict` has what was
//! decided, with what goes with it in hand: `deliver` puts the object, or prints the listing, the limit that is
//! passed, or that there is no text. What is counted of the module Big is `specs/Big` and `specs/Counts`, and
//! `print_summary` prints it. Nothing here works on streams: who does is the layer above. The law `one_outcome` says
//! that a module has one outcome over given files.
#![tactic(auto)]

mod answer;
mod counting;
mod delivering;
mod laws;
mod limit;
mod printing;
mod summary;
mod verdict;

pub use answer::{Answer, Stop};
pub use counting::{sizes_of, tokens_of};
pub use delivering::deliver;
pub use laws::{
    diagnostics_have_lines, one_outcome, one_summary, refusals_have_lines, wrong_imports_have_lines,
};
pub use limit::Limit;
pub use printing::print_summary;
pub use summary::{Counts, Summary};
pub use verdict::Verdict;

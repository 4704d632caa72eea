//! Iterated local search (ParamILS framework, Hutter et al., JAIR 36) over any comparison.
#![tactic(auto)]

mod beginning;
mod comparer;
mod course;
mod drawing;
mod entries;
mod ils;
mod moment;
mod neighbours;
mod purpose;
mod replies;
mod stage;
mod upcoming;

pub use comparer::Comparer;
pub use entries::Entries;
pub use ils::{Ils, keep_incumbents};
pub use stage::Stage;

//! How far a search is between two comparisons.
ghost use Rattle.std.specs.Prelude.{◌≡◌, IfOk};

use crate::purpose::Purpose;
use objective::Memory;

/// How far the search is between two comparisons.
#[derive(Drop)]
pub(crate) struct Course {
    /// What the present comparison is for.
    pub purpose: Purpose,
    /// The number of the next draw.
    pub event: u64,
    /// The budget is used up.
    pub over: bool,
}

impl Course {
    /// The same.
    pub(crate) fn copy(&self) -> Result<Course, Memory>
        ensures { IfOk result (λ c. c ≡ self.now) }
    {
        Ok(Course {
            purpose: self.purpose.copy()?,
            event: self.event,
            over: self.over,
        })
    }
}

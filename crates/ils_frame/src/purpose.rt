//! What the present comparison is for.
ghost use Rattle.ils_frame.specs.UpcomingComparison.{purpose_along};
ghost use Rattle.std.specs.Prelude.{◌≡◌, IfOk};

use crate::neighbours::Neighbours;
use objective::Memory;
use param_space::Config;

/// What follows an improvement.
#[derive(Drop)]
pub(crate) enum After {
    /// The first turn of the outer search.
    First,
    /// The comparison of what was found with the best so far.
    Turn {
        /// The turns that are left.
        more: u32,
        /// The best so far.
        ils: Config,
    },
}

impl After {
    /// The same.
    pub(crate) fn copy(&self) -> Result<After, Memory>
        ensures { IfOk result (λ a. a ≡ self.now) }
    {
        match self {
            After::First => Ok(After::First),
            After::Turn { more, ils } => Ok(After::Turn {
                more: *more,
                ils: ils.copy()?,
            }),
        }
    }
}

/// What the present comparison is for.
#[derive(Drop)]
pub(crate) enum Purpose {
    /// The opening evaluation.
    Opening,
    /// A random configuration is tried in place of the current one.
    Trying {
        /// The random configurations that are left.
        more: u32,
        /// The random one.
        challenger: Config,
        /// The current one.
        current: Config,
    },
    /// A neighbour is tried in an improvement.
    Improving {
        /// What follows the improvement.
        after: After,
        /// The comparisons that are left for it.
        left: u32,
        /// The current configuration.
        current: Config,
        /// Its neighbours, from the one that is tried on.
        around: Neighbours,
    },
    /// What an improvement found is compared with the best so far.
    Returning {
        /// The turns that are left.
        more: u32,
        /// What was found.
        found: Config,
        /// The best so far.
        ils: Config,
    },
}

/// The same improvement.
fn copy_improving(
    after: &After,
    left: u32,
    current: &Config,
    around: &Neighbours,
) -> Result<Purpose, Memory>
    ensures { IfOk result (λ p. p ≡ Purpose.Improving after.now left current.now around.now) }
{
    Ok(Purpose::Improving {
        after: after.copy()?,
        left,
        current: current.copy()?,
        around: around.copy()?,
    })
}

impl Purpose {
    /// The same.
    pub(crate) fn copy(&self) -> Result<Purpose, Memory>
        ensures { IfOk result (λ p. p ≡ self.now) }
    {
        match self {
            Purpose::Opening => Ok(Purpose::Opening),
            Purpose::Trying {
                more,
                challenger,
                current,
            } => Ok(Purpose::Trying {
                more: *more,
                challenger: challenger.copy()?,
                current: current.copy()?,
            }),
            Purpose::Improving {
                after,
                left,
                current,
                around,
            } => copy_improving(after, *left, current, around),
            Purpose::Returning { more, found, ils } => Ok(Purpose::Returning {
                more: *more,
                found: found.copy()?,
                ils: ils.copy()?,
            }),
        }
    }

    /// The next neighbour of the same list is tried. Takes no memory.
    pub(crate) fn advance(&mut self)
        ensures { self.new ≡ purpose_along self.old }
    {
        if let Purpose::Improving { left, around, .. } = self {
            *left = left.saturating_sub(1);
            around.advance();
        }
    }
}

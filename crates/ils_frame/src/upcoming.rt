//! Which comparison is next.
ghost use Rattle.std.specs.Prelude.{if◌then◌else◌, ◌≡◌, ◌<◌, ◌≤◌, ◌^◌, IfOk};
ghost use Rattle.param_space.specs.Configurations.{IsConfig};
ghost use Rattle.ils_frame.specs.AllowedPurposes.{IsPurposeAllowed};
ghost use Rattle.ils_face.specs.Setups.{setup_of};
ghost use Rattle.ils_frame.specs.Moments.{GoesOnFrom};
ghost use Rattle.ils_frame.specs.NextComparison;
ghost use Rattle.ils_frame.specs.UpcomingComparison.{among_of, upcoming_seen, MakesReady};

use crate::drawing::{neighbours_in_order, perturbed, random_config, restarts};
use crate::moment::Moment;
use crate::neighbours::Neighbours;
use crate::purpose::{After, Purpose};
use ils_face::Rules;
use objective::Memory;
use param_space::Config;

/// What comes of a list of neighbours.
#[derive(Drop)]
pub(crate) enum Among {
    /// Its first one is compared.
    Compared {
        /// What for.
        purpose: Purpose,
        /// The neighbour.
        first: Config,
        /// The current configuration.
        second: Config,
    },
    /// No comparison is left.
    Spent,
    /// The list is empty, so the improvement is over.
    Over {
        /// What follows it.
        after: After,
        /// The configuration that it came to.
        found: Config,
    },
}

/// The next comparison, made ready.
#[derive(Drop)]
pub(crate) enum Upcoming {
    /// That of the next neighbour in the present list, with no further draw.
    Along {
        /// The neighbour.
        first: Config,
        /// The current configuration.
        second: Config,
    },
    /// Another one.
    Begin {
        /// What for.
        purpose: Purpose,
        /// The challenger.
        first: Config,
        /// The one that it is compared with.
        second: Config,
        /// The number of the next draw.
        event: u64,
    },
    /// The search is over.
    End {
        /// The number of the next draw.
        event: u64,
    },
}

/// What comes of a list of neighbours, with so many comparisons left.
fn first_among(
    after: After,
    left: u32,
    current: Config,
    neighbours: Vec<Config>,
) -> Result<Among, Memory>
    ensures { IfOk result (λ a. a ≡ among_of after left current neighbours.items) }
{
    if neighbours.is_empty() {
        return Ok(Among::Over {
            after,
            found: current,
        });
    }
    if left == 0 {
        return Ok(Among::Spent);
    }
    let around = Neighbours::new(neighbours)?;
    let (first, second) = (around.tried().copy()?, current.copy()?);
    let purpose = Purpose::Improving {
        after,
        left: left - 1,
        current,
        around,
    };
    Ok(Among::Compared {
        purpose,
        first,
        second,
    })
}

/// What an improvement found is compared with the best so far.
fn returning(more: u32, ils: Config, found: Config, event: u64) -> Result<Upcoming, Memory>
    ensures { IfOk result (λ u. u ≡ Upcoming.Begin (Purpose.Returning more found ils) found ils event) }
{
    let (first, second) = (found.copy()?, ils.copy()?);
    Ok(Upcoming::Begin {
        purpose: Purpose::Returning { more, found, ils },
        first,
        second,
        event,
    })
}

/// A turn of the outer search begins: the best so far is perturbed, and what comes of that
/// is improved.
fn next_turn(rules: &Rules, moment: Moment, turns: u32, ils: Config) -> Result<Upcoming, Memory>
    requires { GoesOnFrom rules.now moment (2 ^ 59) ils }
    ensures { let setup = setup_of rules.now in
        MakesReady result (NextComparison.next_turn setup moment.compared turns ils moment.event) }
{
    let Moment {
        alloc,
        compared,
        event,
    } = moment;
    if turns == 0 {
        return Ok(Upcoming::End { event });
    }
    let best = ils.copy()?;
    let far = perturbed(alloc, rules, ils, event)?;
    let drawn = event + u64::from(rules.strength);
    let around = neighbours_in_order(alloc, rules, &far, drawn)?;
    let after = After::Turn {
        more: turns - 1,
        ils: best.copy()?,
    };
    let left = rules.budget - compared;
    match first_among(after, left, far, around)? {
        Among::Compared {
            purpose,
            first,
            second,
        } => Ok(Upcoming::Begin {
            purpose,
            first,
            second,
            event: drawn + 1,
        }),
        Among::Spent => Ok(Upcoming::End { event: drawn + 1 }),
        Among::Over {
            after: _after,
            found,
        } => returning(turns - 1, best, found, drawn + 1),
    }
}

/// What follows an improvement.
fn next_after(
    rules: &Rules,
    moment: Moment,
    after: After,
    found: Config,
) -> Result<Upcoming, Memory>
    requires { GoesOnFrom rules.now moment (2 ^ 59) found }
    ensures { let setup = setup_of rules.now in
        MakesReady result (NextComparison.next_after setup moment.compared after found moment.event) }
{
    match after {
        After::First => next_turn(rules, moment, rules.budget + 1, found),
        After::Turn { more, ils } => returning(more, ils, found, moment.event),
    }
}

/// An improvement goes on with these neighbours, or what follows it comes.
fn improving(
    rules: &Rules,
    moment: Moment,
    after: After,
    left: u32,
    current: Config,
    neighbours: Vec<Config>,
) -> Result<Upcoming, Memory>
    requires { GoesOnFrom rules.now moment (2 ^ 59) current }
    ensures { let next = NextComparison.next_improving (setup_of rules.now) moment.compared after left current in
        MakesReady result (next neighbours.items moment.event) }
{
    match first_among(after, left, current, neighbours)? {
        Among::Compared {
            purpose,
            first,
            second,
        } => Ok(Upcoming::Begin {
            purpose,
            first,
            second,
            event: moment.event,
        }),
        Among::Spent => Ok(Upcoming::End {
            event: moment.event,
        }),
        Among::Over { after, found } => next_after(rules, moment, after, found),
    }
}

/// The next random configuration is tried, or else the first improvement begins.
fn next_tried(rules: &Rules, moment: Moment, more: u32, current: Config) -> Result<Upcoming, Memory>
    requires { GoesOnFrom rules.now moment (2 ^ 58) current }
    ensures { let setup = setup_of rules.now in
        MakesReady result (NextComparison.next_tried setup moment.compared more current moment.event) }
{
    let Moment {
        alloc,
        compared,
        event,
    } = moment;
    if more == 0 {
        let around = neighbours_in_order(alloc, rules, &current, event)?;
        let left = rules.budget - compared;
        return improving(rules, moment.after(1), After::First, left, current, around);
    }
    let challenger = random_config(alloc, rules, event)?;
    let (first, second) = (challenger.copy()?, current.copy()?);
    Ok(Upcoming::Begin {
        purpose: Purpose::Trying {
            more: more - 1,
            challenger,
            current,
        },
        first,
        second,
        event: event + 1,
    })
}

/// An improvement begins anew at a neighbour that has won.
fn next_won(
    rules: &Rules,
    moment: Moment,
    after: &After,
    left: u32,
    winner: &Config,
) -> Result<Upcoming, Memory>
    requires { GoesOnFrom rules.now moment (2 ^ 58) winner.now }
    ensures { let setup = setup_of rules.now in
        MakesReady result (NextComparison.next_won setup moment.compared after.now left winner.now moment.event) }
{
    let around = neighbours_in_order(moment.alloc, rules, winner, moment.event)?;
    let (after, current) = (after.copy()?, winner.copy()?);
    improving(rules, moment.after(1), after, left, current, around)
}

/// The coin decides whether the next turn begins at the best so far or at random.
fn next_restarted(
    rules: &Rules,
    moment: Moment,
    more: u32,
    best: &Config,
) -> Result<Upcoming, Memory>
    requires { GoesOnFrom rules.now moment (2 ^ 58) best.now }
    ensures { let setup = setup_of rules.now in
        MakesReady result (NextComparison.next_restarted setup moment.compared more best.now moment.event) }
{
    if restarts(rules, moment.event) {
        let anew = random_config(moment.alloc, rules, moment.event + 1)?;
        return next_turn(rules, moment.after(2), more, anew);
    }
    next_turn(rules, moment.after(1), more, best.copy()?)
}

/// Another neighbour of the same list is tried, or what follows the improvement comes.
fn next_along(
    rules: &Rules,
    moment: Moment,
    after: &After,
    left: u32,
    current: &Config,
    around: &Neighbours,
) -> Result<Upcoming, Memory>
    requires { GoesOnFrom rules.now moment (2 ^ 59) current.now }
    ensures { let purpose = Purpose.Improving after.now left current.now around.now in
        let next = NextComparison.next_improving (setup_of rules.now) moment.compared after.now left current.now in
        IfOk result (λ u. upcoming_seen purpose moment.event u ≡ next around.now.rest moment.event) }
{
    let Some(neighbour) = around.next() else {
        let (after, found) = (after.copy()?, current.copy()?);
        return next_after(rules, moment, after, found);
    };
    if left == 0 {
        return Ok(Upcoming::End {
            event: moment.event,
        });
    }
    let (first, second) = (neighbour.copy()?, current.copy()?);
    Ok(Upcoming::Along { first, second })
}

/// The challenger where it has won, else the other one.
fn chosen<'a>(won: bool, challenger: &'a Config, other: &'a Config) -> &'a Config
    ensures { result.now ≡ (if won then challenger.now else other.now) }
{
    if won { challenger } else { other }
}

/// What follows when the present comparison came to this. Nothing changes.
pub(crate) fn next(
    rules: &Rules,
    moment: Moment,
    purpose: &Purpose,
    won: bool,
) -> Result<Upcoming, Memory>
    requires allowed { IsPurposeAllowed (IsConfig rules.now.space) purpose.now }
    requires few { moment.event < 2 ^ 57 }
    requires within { moment.compared ≤ rules.now.budget }
    ensures { let next = NextComparison.next (setup_of rules.now) moment.compared purpose.now won moment.event in
        IfOk result (λ u. upcoming_seen purpose.now moment.event u ≡ next) }
{
    match purpose {
        Purpose::Opening => {
            let start = rules.space.default_config()?;
            next_tried(rules, moment, rules.initial, start)
        }
        Purpose::Trying {
            more,
            challenger,
            current,
        } => {
            let kept = chosen(won, challenger, current).copy()?;
            next_tried(rules, moment, *more, kept)
        }
        Purpose::Improving {
            after,
            left,
            current,
            around,
        } => {
            if won {
                let winner = around.tried();
                next_won(rules, moment, after, *left, winner)
            } else {
                next_along(rules, moment, after, *left, current, around)
            }
        }
        Purpose::Returning { more, found, ils } => {
            let best = chosen(won, found, ils);
            next_restarted(rules, moment, *more, best)
        }
    }
}

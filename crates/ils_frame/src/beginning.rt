//! The begin of a comparison.
ghost use Rattle.std.specs.Prelude.{◌≡◌, ◌≤◌, not, None, IfOk, []};
ghost use Rattle.ils_face.specs.Rules.{AreRules};
ghost use Rattle.ils_frame.specs.Machine;
ghost use Rattle.ils_frame.specs.Machine.{is_spent, begun_within, machine_after, machine_of};
ghost use Rattle.ils_face.specs.Setups.{setup_of};
ghost use Rattle.ils_frame.specs.Comparers.{question_in};
ghost use Rattle.ils_frame.specs.UpcomingComparison.{upcoming_seen};

use crate::comparer::Comparer;
use crate::course::Course;
use crate::moment::Moment;
use crate::purpose::Purpose;
use crate::stage::Stage;
use crate::upcoming::{Upcoming, next};
use ils_face::Rules;
use objective::Memory;
use param_space::Config;
use std::alloc::Global;

/// Begins a comparison where one is left in the budget, and says whether there was one.
/// Takes no memory.
fn begins<C: Comparer>(comparer: &mut C, rules: &Rules, first: Config, second: Config) -> bool
    requires ready { question_in (C.parts.stage comparer.old) ≡ None }
    requires within { (C.parts.last comparer.old).compared ≤ rules.now.budget }
    ensures comparer { comparer.new ≡ begun_within C.parts rules.now.budget comparer.old first second }
    ensures left { result ≡ not (is_spent C.parts rules.now.budget comparer.old) }
{
    let compared = comparer.compared();
    if compared == rules.budget {
        return false;
    }
    comparer.begin(first, second, compared + 1);
    true
}

/// The next comparison begins, or the search is over. Takes no memory.
pub(crate) fn begin<C: Comparer>(
    comparer: &mut C,
    course: &mut Course,
    rules: &Rules,
    upcoming: Upcoming,
)
    requires ready { question_in (C.parts.stage comparer.old) ≡ None }
    requires within { (C.parts.last comparer.old).compared ≤ rules.now.budget }
    ensures { let next = upcoming_seen course.old.purpose course.old.event upcoming in
        machine_of comparer.new course.new ≡ Machine.begin C.parts (setup_of rules.now) comparer.old next }
{
    match upcoming {
        Upcoming::Along { first, second } => {
            course.purpose.advance();
            course.over = !begins(comparer, rules, first, second);
        }
        Upcoming::Begin {
            purpose,
            first,
            second,
            event,
        } => {
            course.purpose = purpose;
            course.event = event;
            course.over = !begins(comparer, rules, first, second);
        }
        Upcoming::End { event } => {
            course.purpose = Purpose::Opening;
            course.event = event;
            course.over = true;
        }
    }
}

/// The course of a search whose comparer was just opened: where nothing is asked, the first
/// comparison begins.
pub(crate) fn set_out<C: Comparer>(
    alloc: Global,
    rules: &Rules,
    comparer: &mut C,
) -> Result<Course, Memory>
    requires opened { comparer.old ≡ C.at_open rules.now }
    requires ruled { AreRules rules.now }
    ensures { let first = C.at_open rules.now in
        IfOk result (λ course. machine_of comparer.new course ≡ machine_after C.parts first rules.now []) }
{
    let mut course = Course {
        purpose: Purpose::Opening,
        event: 0,
        over: false,
    };
    if comparer.stage() == Stage::Asking {
        return Ok(course);
    }
    let compared = comparer.compared();
    let moment = Moment {
        alloc,
        compared,
        event: 0,
    };
    let upcoming = next(rules, moment, &course.purpose, false)?;
    begin(comparer, &mut course, rules, upcoming);
    Ok(course)
}

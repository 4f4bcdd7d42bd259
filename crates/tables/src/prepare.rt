// The checks that come before a search, and its figures.
ghost use Rattle.std.specs.Prelude.{◌≡◌, ℕ, ◌+◌, ◌*◌, ◌<◌, ◌≤◌, [], ◌∷◌};
ghost use Rattle.faults.specs.Checks.{Checked};
ghost use Rattle.tables.specs.Plans.{allowance_of, width_of};
ghost use Rattle.tables.specs.Searches.{Planned, figures_check, room_checks};

use crate::net::Net;
use crate::plan::{Plan, Query};
use faults::{Fault, check_range};

const MAX_BOUND: u64 = 50_000_000;

const MAX_TOLERANCE: u64 = 1000;

fn check_figures(bound: u32, tolerance: u16) -> Result<(), Fault>
    ensures { Checked (figures_check bound tolerance ∷ []) result }
{
    check_range(bound.into(), 0..=MAX_BOUND)?;
    check_range(tolerance.into(), 0..=MAX_TOLERANCE)
}

// How much a route may pass the bound.
fn allowance(bound: u32, tolerance: u16) -> u32
    requires { tolerance ≤ 1000 }
    ensures figure { result ≡ allowance_of bound tolerance }
    ensures most { result ≤ bound }
{
    (bound as u64 * tolerance as u64 / 1000) as u32
}

fn bucket_width(allowance: u32, points: usize) -> u32
    requires { allowance < 1000000000 }
    ensures figure { result ≡ width_of allowance points }
    ensures wide { 0 < result }
{
    if points <= 1 {
        1
    } else {
        (1 + allowance as usize / (points - 1)) as u32
    }
}

// The figures of a search, or why it is refused.
pub fn prepare(net: Net, query: Query) -> Result<Plan, Fault>
    ensures { Planned net.entry.points query.source query.bound query.tolerance result }
{
    check_figures(query.bound, query.tolerance)?;
    let points = net.points;
    if query.source as usize >= points {
        return Err(Fault::NoPoint(query.source));
    }
    let allowance = allowance(query.bound, query.tolerance);
    let width = bucket_width(allowance, points);
    let ceiling = query.bound + allowance;
    let buckets = ceiling / width + 1;
    Ok(Plan {
        points,
        source: query.source as usize,
        bound: query.bound,
        ceiling,
        width,
        buckets,
    })
}

// Refuses the first table that is too short, with the places wanted.
pub fn check_room(plan: Plan, outcomes: usize, slots: usize, labels: usize) -> Result<(), Fault>
    ensures { Checked (room_checks plan.points (plan.points * plan.buckets) outcomes slots labels) result }
{
    if outcomes < plan.points || slots < plan.points {
        return Err(Fault::TooShort(plan.points as u64));
    }
    let places = plan.places();
    if labels < places {
        return Err(Fault::TooShort(places as u64));
    }
    Ok(())
}

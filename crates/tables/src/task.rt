// A search that is planned.
ghost use Rattle.tables.specs.Tables.{Joined};

use crate::plan::Plan;
use crate::table::Link;

// The figures of a search, and the links that it goes over.
#[derive(Clone, Copy)]
pub struct Task<'l> {
    pub plan: Plan,
    pub links: &'l [Link],
    ghost joined: { Joined plan.points links.now },
}

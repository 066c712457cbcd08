// The plan of a query over the small tables, and the rows that its steps leave.

use crate::ends::{Done, Stop};
use crate::files::{CATALOG, sources};
use ssb_answer::{Database, Watch};
use ssb_load::{Catalog, PIECE_SIZE};
use std::alloc::Global;
use std::io::Write;

// A query whose plan has a line of each kind.
const PLANNED: &str = "select sum(lo_revenue) as revenue, d_year \
from lineorder, date, supplier where lo_orderdate = d_datekey and lo_suppkey = s_suppkey \
and lo_quantity < 25 and lo_discount < lo_quantity and s_region in ('ASIA', 'EUROPE') \
and (d_year = 1993 or s_city = 'x') group by d_year having count(*) > 0 order by d_year desc";

// No step takes any time.
#[derive(Drop)]
struct Still;

impl Watch for Still {
    fn lap(&mut self) -> u64 {
        0
    }
}

/// Tells the plan of the query.
pub(crate) fn tell_plan<W: Write + Drop>(alloc: Global, writer: W) -> Result<Done, Stop> {
    let mut writer = writer;
    let catalog = Catalog::read(alloc, CATALOG)?;
    let mut sources = sources(alloc)?;
    if sources.len() != catalog.tables().len() {
        return Err(Stop::Wrong);
    }
    let database = Database::load_alone(alloc, &catalog, &mut sources, PIECE_SIZE)?;
    let plan = database.analyze(alloc, PLANNED, &mut Still)?;
    match writer.write_all(plan.as_bytes()) {
        Ok(()) => Ok(Done::Written),
        Err(_) => Err(Stop::Wrong),
    }
}

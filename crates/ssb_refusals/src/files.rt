// The small tables, and a query over them.

ghost use Rattle.std.specs.Prelude.{◌≡◌, [], IfOk};
ghost use Rattle.std.specs.List.{All};

use crate::ends::Stop;
use ssb_answer::Database;
use ssb_job::Job;
use ssb_load::{Catalog, In, PIECE_SIZE};
use std::alloc::{AllocError, Global};
use std::sync::Arc;

pub(crate) const CATALOG: &[u8] = b"lineorder|lo_orderdate|int|null
lineorder|lo_suppkey|int|null\nlineorder|lo_quantity|int|null
lineorder|lo_extendedprice|int|null\nlineorder|lo_discount|int|null
lineorder|lo_revenue|int|null\ndate|d_datekey|int|key\ndate|d_year|int|null
supplier|s_suppkey|int|key\nsupplier|s_region|text|null\nsupplier|s_city|text|null\n";

pub(crate) const FACTS: &[u8] = b"19930101|1|10|100|1|99|\n19930101|2|24|200|3|194|
19940101|1|25|300|2|294|\n19940101|3|30|400|5|380|\n19930101|9|5|500|2|490|
|1|7|600|1|594|\n19930101|1|20|700||700|\n";

pub(crate) const DATES: &[u8] = b"19930101|1993|\n19940101|1994|\n";

pub(crate) const SUPPLIERS: &[u8] = b"1|ASIA|CHINA    1|\n2|EUROPE|FRANCE   0|\n3|||\n";

pub(crate) const REVENUE: &str = "select sum(lo_revenue), d_year, s_region \
from lineorder, date, supplier where lo_orderdate = d_datekey and lo_suppkey = s_suppkey \
group by d_year, s_region order by d_year, s_region";

/// The tables' readers, in the catalog's order.
pub(crate) fn readers(alloc: Global) -> Result<Vec<&'static [u8]>, AllocError> {
    Ok(vec![in alloc; FACTS, DATES, SUPPLIERS]?)
}

/// The tables as sources of which nothing was read.
pub(crate) fn sources(alloc: Global) -> Result<Vec<In<&'static [u8]>>, AllocError>
    ensures { IfOk result (λ sources. All (λ s. s.given.items ≡ []) sources.items) }
{
    Ok(vec![in alloc; In::new(FACTS), In::new(DATES), In::new(SUPPLIERS)]?)
}

/// The job of a query over the tables of a catalog.
pub(crate) fn job_over(
    alloc: Global,
    catalog: &[u8],
    sources: Vec<In<&[u8]>>,
    text: &str,
) -> Result<Arc<Job, Global>, Stop> {
    let mut sources = sources;
    let catalog = Catalog::read(alloc, catalog)?;
    if sources.len() != catalog.tables().len() {
        return Err(Stop::Wrong);
    }
    let database = Database::load_alone(alloc, &catalog, &mut sources, PIECE_SIZE)?;
    Ok(database.job(alloc, text)?)
}

/// The job of the query over the small tables.
pub(crate) fn small_job(alloc: Global) -> Result<Arc<Job, Global>, Stop> {
    job_over(alloc, CATALOG, sources(alloc)?, REVENUE)
}

// A table of numbers that all differ, and the sum of the squares of each: as many groups as rows, so that groups outgrow
// their room more than once, and an expression of two columns.

use crate::ends::Stop;
use crate::files::job_over;
use ssb_cells::Value;
use ssb_groups::{Group, Groups, Total};
use ssb_job::Job;
use ssb_load::In;
use std::alloc::{AllocError, Global};
use std::sync::Arc;

const CATALOG: &[u8] = b"numbers|number|int|null\n";

// The numbers from 1 to 40.
const NUMBERS: &[u8] = b"1\n2\n3\n4\n5\n6\n7\n8\n9\n10\n11\n12\n13\n14\n15\n16\n17\n18\n19\n20
21\n22\n23\n24\n25\n26\n27\n28\n29\n30\n31\n32\n33\n34\n35\n36\n37\n38\n39\n40\n";

const SQUARES: &str = "select sum(number * number), number from numbers group by number";

fn sources(alloc: Global) -> Result<Vec<In<&'static [u8]>>, AllocError> {
    Ok(vec![in alloc; In::new(NUMBERS)]?)
}

/// The job of squaring the numbers.
pub(crate) fn numbers_job(alloc: Global) -> Result<Arc<Job, Global>, Stop> {
    job_over(alloc, CATALOG, sources(alloc)?, SQUARES)
}

// Whether a group has the square of one number, from the least to the most.
fn is_one_of(group: &Group, least: i64, most: i64) -> bool {
    match (group.key.as_slice(), group.totals.as_slice()) {
        ([Value::Int(number)], [Total::Number(square)]) => {
            let wide = i128::from(*number);
            least <= *number && *number <= most && *square == wide.wrapping_mul(wide)
        }
        _ => false,
    }
}

/// An error where the groups are others than those of `count` numbers, from the least to the most, or a
/// growth was refused.
pub(crate) fn are_squares(
    alloc: Global,
    groups: &Groups,
    count: usize,
    least: i64,
    most: i64,
) -> Result<(), Stop> {
    if groups.group_count() != count {
        return Err(Stop::Wrong);
    }
    let mut group = Group::new(alloc);
    for at in 0..groups.group_count() {
        groups.read_group(at, &mut group)?;
        if !is_one_of(&group, least, most) {
            return Err(Stop::Wrong);
        }
    }
    Ok(())
}

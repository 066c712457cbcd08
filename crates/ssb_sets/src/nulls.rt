// Rows by the flags of nulls.

ghost use Rattle.std.specs.Prelude.{◌≡◌, ◌<◌, ◌||◌, not, slice_index_or, length, pos};
ghost use Rattle.std.specs.List.{All, filter};
ghost use Rattle.ssb_packed.specs.Lent.{flag_at};
ghost use Rattle.ssb_sets.specs.Checks.{passes};
ghost use Rattle.ssb_sets.specs.Passing.{passes_at};
ghost use Rattle.ssb_sets.specs.Values.{IsWithin, eight_byte_bounds, values_in};

use crate::check::Check;
use crate::values::ValueSlice;
use ssb_packed::flag_at;

/// Leaves the rows that are not null, by the flags of the nulls.
pub fn keep_values(nulls: &[u64], rows: &mut Vec<u32>)
    ensures { rows.new.items ≡ filter (λ r. not (flag_at nulls.now r)) rows.old.items }
{
    if nulls.is_empty() {
        return;
    }
    rows.retain(|row| !flag_at(nulls, *row));
}

impl Check {
    // Whether a row is null, or its value passes.
    fn is_null_or_passes(&self, values: ValueSlice<'_>, nulls: &[u64], row: u32) -> bool
        requires { row < length (values_in values) }
        ensures says { result ≡ (flag_at nulls.now row || passes_at (passes self.now) (values_in values.entry) row) }
        ensures within { IsWithin eight_byte_bounds (slice_index_or (values_in values.entry) row (pos 0)) }
    {
        let passes = self.passes(values.get(row as usize));
        flag_at(nulls, row) || passes
    }

    /// Leaves the rows that are null, and those whose value passes. It takes no memory.
    pub fn keep_with_nulls(&self, values: ValueSlice<'_>, nulls: &[u64], rows: &mut Vec<u32>)
        requires { All (λ r. r < length (values_in values)) rows.old.items }
        ensures rows { rows.new.items ≡ filter (λ r. flag_at nulls.now r || passes_at (passes self.now) (values_in values.entry) r) rows.old.items }
        ensures within { All (λ r. IsWithin eight_byte_bounds (slice_index_or (values_in values.entry) r (pos 0))) rows.old.items }
    {
        let mut left = 0;
        for i in 0..rows.len() {
            let row = rows[i];
            rows[left] = row;
            if self.is_null_or_passes(values, nulls, row) {
                left += 1;
            }
        }
        rows.truncate(left);
    }
}

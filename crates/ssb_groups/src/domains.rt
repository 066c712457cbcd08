// The domains of a job's group columns.

ghost use Rattle.std.specs.Prelude.{◌≡◌, ◌<◌, ◌≤◌, ◌^◌, [], IfNone, IfOk, IfSome, map};
ghost use Rattle.ssb_terms.specs.declared.rule.ColType.TheVariants as kinds;
ghost use Rattle.ssb_groups.specs.Keys.{AreDomains, domain_by, domain_of};
ghost use Rattle.ssb_groups.specs.Refs.{AreAllColumns, IsColumn};
ghost use Rattle.ssb_keys.specs.Domains.{IsLawful, radix};
ghost use Rattle.ssb_plan.specs.Inputs.{key_span};
ghost use Rattle.ssb_plan.specs.Spans.{span_of};

use ssb_cells::{Column, Table};
use ssb_keys::Domain;
use ssb_plan::{ColumnRef, Span};
use ssb_terms::ColType;
use std::alloc::{AllocError, Global};

// How many keys there may be where they are numbers: 2^62.
const MOST: u64 = 0x4000_0000_0000_0000;

// That of numbers in a span, where there are few enough.
fn domain_of_numbers(span: Span) -> Option<Domain>
    ensures some { IfSome result (λ d. d ≡ domain_by kinds.Int [] span) }
    ensures few { IfSome result (λ d. radix d ≤ 2 ^ 62) }
    ensures lawful { IfSome result IsLawful }
    ensures none { IfNone result (2 ^ 62 < radix (domain_by kinds.Int [] span)) }
{
    let Span { least, greatest } = span;
    if greatest < least {
        return Some(Domain::Numbers { least, radix: 1 });
    }
    let width = greatest.abs_diff(least);
    if width > MOST - 2 {
        return None;
    }
    Some(Domain::Numbers {
        least,
        radix: width + 2,
    })
}

// That of a column, where it has few enough values.
fn domain_in(column: &Column, span: Span) -> Option<Domain>
    requires span { span ≡ span_of column.now.values }
    ensures some { IfSome result (λ d. d ≡ domain_by column.now.kind column.now.values span) }
    ensures few { IfSome result (λ d. radix d ≤ 2 ^ 62) }
    ensures lawful { IfSome result IsLawful }
    ensures none { IfNone result (2 ^ 62 < radix (domain_by column.now.kind column.now.values span)) }
{
    match column.kind() {
        ColType::Int => domain_of_numbers(span),
        ColType::Text => Some(Domain::Codes {
            radix: u64::from(column.text_count()) + 1,
        }),
    }
}

fn domain_of(tables: &[Table], column: ColumnRef, span: Span) -> Option<Domain>
    requires column { IsColumn tables.now column }
    requires span { span ≡ key_span tables.now column }
    ensures some { IfSome result (λ d. d ≡ domain_of tables.now column) }
    ensures few { IfSome result (λ d. radix d ≤ 2 ^ 62) }
    ensures lawful { IfSome result IsLawful }
    ensures none { IfNone result (2 ^ 62 < radix (domain_of tables.now column)) }
{
    let table = &tables[column.table];
    domain_in(table.column(column.column), span)
}

// Those of columns, where there may be at most 2^62 keys.
pub(crate) fn domains_of(
    alloc: Global,
    tables: &[Table],
    columns: &[ColumnRef],
    spans: &[Span],
) -> Result<Option<Vec<Domain>>, AllocError>
    requires columns { AreAllColumns tables.now columns.now }
    requires spans { spans.now ≡ map (key_span tables.now) columns.now }
    ensures { IfOk result (AreDomains (map (domain_of tables.now) columns.now)) }
{
    let mut domains = Vec::with_capacity(alloc, columns.len())?;
    let mut size: u128 = 1;
    for at in 0..columns.len() {
        let Some(domain) = domain_of(tables, columns[at], spans[at]) else {
            return Ok(None);
        };
        size *= u128::from(domain.radix());
        if size > u128::from(MOST) {
            return Ok(None);
        }
        domains.push(domain)?;
    }
    Ok(Some(domains))
}

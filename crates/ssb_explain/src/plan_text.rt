// The text of a plan.

ghost use Rattle.std.specs.Prelude.{◌≡◌, ◌++◌, IfOk, OnOk, map, slice_get, string_bytes};
ghost use Rattle.ssb_explain.specs.Explained as spec;
ghost use Rattle.ssb_explain.specs.Explained.{IsExplained};
ghost use Rattle.ssb_plan.specs.Build.{IsPlan};
ghost use Rattle.ssb_spelling.specs.Titles.{aggregate_title};

use crate::group_count::groups_by;
use crate::lines::{Shown, put_count};
use crate::members::put_parted;
use ssb_catalog::Catalog;
use ssb_job::Job;
use ssb_query::{BoundColumn, BoundOrder, Origin};
use ssb_spelling::{put_aggregate, put_condition, put_name, put_title};
use ssb_trees::{Aggregate, Filter};
use std::alloc::{AllocError, Global};

// From so many groups on batches are told of.
const MANY_GROUPS: u32 = 1_000;

// Puts a line of texts, where there are any.
fn put_list(out: &mut String, head: &str, texts: &[String]) -> Result<(), AllocError>
    ensures { OnOk result (string_bytes out.new ≡ string_bytes out.old ++ spec.list_line head.now (map string_bytes texts.now)) }
{
    if texts.is_empty() {
        return Ok(());
    }
    out.push_str(head)?;
    out.push_str(": ")?;
    put_parted(out, texts)?;
    out.push_str("\n")
}

fn put_direction(out: &mut String, descending: bool) -> Result<(), AllocError>
    ensures { OnOk result (string_bytes out.new ≡ string_bytes out.old ++ spec.direction descending) }
{
    if descending {
        return out.push_str(" desc");
    }
    Ok(())
}

// Puts the line of batches, where groups may be many.
fn put_batch(out: &mut String, groups: u32) -> Result<(), AllocError>
    ensures { OnOk result (string_bytes out.new ≡ string_bytes out.old ++ spec.batch_line groups) }
{
    if groups < MANY_GROUPS {
        return Ok(());
    }
    out.push_str("batch: up to ")?;
    put_count(out, groups as usize)?;
    out.push_str(" groups, so 8 or 64 may be faster\n")
}

impl<'a> Shown<'a> {
    fn column_text(self, column: BoundColumn) -> Result<String, AllocError>
        ensures { IfOk result (λ text. string_bytes text ≡ spec.named self.entry.catalog.now self.entry.job.now.query column) }
    {
        let mut text = String::new(self.alloc);
        put_name(&mut text, self.catalog, self.query(), column)?;
        Ok(text)
    }

    fn aggregate_text(self, aggregate: &Aggregate<BoundColumn>) -> Result<String, AllocError>
        ensures { IfOk result (λ text. string_bytes text ≡ aggregate_title (spec.named self.entry.catalog.now self.entry.job.now.query) aggregate.now) }
    {
        let mut text = String::new(self.alloc);
        put_aggregate(&mut text, self.catalog, self.query(), aggregate)?;
        Ok(text)
    }

    // Puts the title of the select column at a place.
    fn put_title_at(self, out: &mut String, place: usize) -> Result<(), AllocError>
        ensures { OnOk result (string_bytes out.new ≡ string_bytes out.old ++ spec.title_or_none self.entry.catalog.now self.entry.job.now.query (slice_get self.entry.job.now.query.items place)) }
    {
        match self.query().items.as_slice().get(place) {
            Some(item) => put_title(out, self.catalog, self.query(), item),
            None => Ok(()),
        }
    }

    fn order_text(self, order: BoundOrder) -> Result<String, AllocError>
        ensures { IfOk result (λ text. string_bytes text ≡ spec.order_text self.entry.catalog.now self.entry.job.now.query order) }
    {
        let mut text = String::new(self.alloc);
        self.put_title_at(&mut text, order.item)?;
        put_direction(&mut text, order.descending)?;
        Ok(text)
    }

    fn column_texts(self, columns: &[BoundColumn]) -> Result<Vec<String>, AllocError>
        ensures { IfOk result (λ texts. map string_bytes texts.items ≡ map (spec.named self.entry.catalog.now self.entry.job.now.query) columns.now) }
    {
        let mut texts = Vec::new(self.alloc);
        for column in columns {
            texts.push(self.column_text(*column)?)?;
        }
        Ok(texts)
    }

    fn aggregate_texts(
        self,
        aggregates: &[Aggregate<BoundColumn>],
    ) -> Result<Vec<String>, AllocError>
        ensures { IfOk result (λ texts. map string_bytes texts.items ≡ map (aggregate_title (spec.named self.entry.catalog.now self.entry.job.now.query)) aggregates.now) }
    {
        let mut texts = Vec::new(self.alloc);
        for aggregate in aggregates {
            texts.push(self.aggregate_text(aggregate)?)?;
        }
        Ok(texts)
    }

    fn order_texts(self, orders: &[BoundOrder]) -> Result<Vec<String>, AllocError>
        ensures { IfOk result (λ texts. map string_bytes texts.items ≡ map (spec.order_text self.entry.catalog.now self.entry.job.now.query) orders.now) }
    {
        let mut texts = Vec::new(self.alloc);
        for order in orders {
            texts.push(self.order_text(*order)?)?;
        }
        Ok(texts)
    }

    fn put_having(self, out: &mut String, having: &Option<Filter<Origin>>) -> Result<(), AllocError>
        ensures { OnOk result (string_bytes out.new ≡ string_bytes out.old ++ spec.having_line self.entry.catalog.now self.entry.job.now.query having.now) }
    {
        match having {
            None => Ok(()),
            Some(condition) => {
                out.push_str("having: ")?;
                put_condition(out, &self.names(), condition)?;
                out.push_str("\n")
            }
        }
    }

    /// Puts the lines of how rows are joined.
    pub fn put_joined(self, out: &mut String) -> Result<(), AllocError>
        ensures { OnOk result (string_bytes out.new ≡ string_bytes out.old ++ spec.join_text self.entry.catalog.now self.entry.job.now self.entry.plan.now) }
    {
        let plan = self.plan;
        self.put_fact(out)?;
        self.put_filter(out, self.query().fact, &plan.filter)?;
        self.put_dimensions(out, true, &plan.accesses)?;
        self.put_dimensions(out, false, &plan.accesses)?;
        self.put_residual(out, &plan.rest)
    }

    // The most groups that there may be.
    fn group_count(self) -> u32
        requires { IsPlan self.job.now.query self.job.now.tables self.plan.now }
        ensures { result ≡ spec.group_count self.entry.job.now }
    {
        let rows = self.row_count(self.query().fact);
        let tables = self.job.tables().as_slice();
        groups_by(tables, &self.plan.keys, &self.plan.spans, rows)
    }

    // Puts the lines of what is done with the groups.
    fn put_grouped(self, out: &mut String) -> Result<(), AllocError>
        ensures { OnOk result (string_bytes out.new ≡ string_bytes out.old ++ spec.grouped_text self.entry.catalog.now self.entry.job.now.query) }
    {
        let query = self.query();
        let aggregates = self.aggregate_texts(query.aggregates.as_slice())?;
        let orders = self.order_texts(query.orders.as_slice())?;
        put_list(out, "aggregates", &aggregates)?;
        self.put_having(out, &query.having)?;
        put_list(out, "order", &orders)
    }

    /// Puts the lines of what is made of the rows that are kept.
    pub fn put_answer(self, out: &mut String) -> Result<(), AllocError>
        requires { IsPlan self.job.now.query self.job.now.tables self.plan.now }
        ensures { OnOk result (string_bytes out.new ≡ string_bytes out.old ++ spec.answer_text self.entry.catalog.now self.entry.job.now) }
    {
        let groups = self.column_texts(self.query().groups.as_slice())?;
        put_list(out, "groups", &groups)?;
        put_batch(out, self.group_count())?;
        self.put_grouped(out)
    }
}

/// The text of what a job does, a line a step, in the order in which they are done: the fact table and what is asked
/// of it alone; the dimensions with conjuncts of their own and then the others, each with how many of its rows stay;
/// the conjuncts that are tested on whole combinations; groups, and that batches may help where they may be many;
/// aggregates, HAVING and ORDER BY.
///
/// The catalog is that which its query was bound to.
///
/// # Errors
///
/// Only where a growth was refused.
pub fn explain(alloc: Global, catalog: &Catalog, job: &Job) -> Result<String, AllocError>
    ensures { IfOk result (λ text. IsExplained catalog.now job.now (string_bytes text)) }
{
    let shown = Shown {
        alloc,
        catalog,
        job,
        plan: job.plan(),
    };
    let mut text = String::new(alloc);
    shown.put_joined(&mut text)?;
    shown.put_answer(&mut text)?;
    Ok(text)
}

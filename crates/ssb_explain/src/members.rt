// The values that a filter of a column lets pass, as text.

ghost use Rattle.std.specs.Prelude.{◌≡◌, ◌++◌, ◌<◌, ◌∷◌, ℤ, List, None, not, codes, All, IfOk, OnOk, length, map, string_bytes};
ghost use Rattle.ssb_cells.specs.Codes.{texts_of};
ghost use Rattle.std.specs.Option.{option_copied};
ghost use Rattle.ssb_explain.specs.Members as spec;
ghost use Rattle.ssb_explain.specs.Members.{table_or_none};
ghost use Rattle.ssb_spelling.specs.Conditions as spelling;
ghost use Rattle.ssb_terms.specs.declared.rule.ColType.TheVariants as kinds;

use itoa::Buffer;
use ssb_cells::{Column, Table};
use ssb_plan::{ColumnFilter, ValueSet};
use ssb_sets::NumberSet;
use ssb_spelling::{put_number, put_quoted};
use ssb_terms::ColType;
use std::alloc::{AllocError, Global};

/// The numbers from one to another.
#[derive(Clone, Copy)]
pub struct Interval {
    /// The least, where there is one.
    pub low: Option<i64>,
    /// The greatest, where there is one.
    pub high: Option<i64>,
}

// How many members are shown.
const SHOWN: usize = 8;

fn low_from(cut: i64) -> Option<i64>
    ensures { result ≡ spec.low_from cut }
{
    if cut == i64::MIN { None } else { Some(cut) }
}

fn high_below(cut: i64) -> Option<i64>
    ensures { result ≡ spec.high_below cut }
{
    if cut == i64::MIN { None } else { Some(cut - 1) }
}

fn put_up_to(
    intervals: &mut Vec<Interval>,
    low: Option<i64>,
    high: Option<i64>,
) -> Result<(), AllocError>
    ensures { OnOk result (intervals.new.items ≡ intervals.old.items ++ spec.up_to low high) }
{
    if high.is_some() {
        intervals.push(Interval { low, high })?;
    }
    Ok(())
}

// Goes over a cut: gives the interval that ends there, where the numbers below it are in the set, and says where one
// that begins there begins.
fn turn(
    intervals: &mut Vec<Interval>,
    has: bool,
    low: Option<i64>,
    cut: i64,
) -> Result<Option<i64>, AllocError>
    ensures { IfOk result (λ next. (cuts : List ℤ) → intervals.new.items ++ spec.intervals_from (not has) next cuts ≡ intervals.old.items ++ spec.intervals_from has low (cut ∷ cuts)) }
{
    if !has {
        return Ok(low_from(cut));
    }
    put_up_to(intervals, low, high_below(cut))?;
    Ok(None)
}

// The intervals of a set, by its cuts and by whether it has the numbers below them.
fn intervals_of(alloc: Global, first: bool, cuts: &[i64]) -> Result<Vec<Interval>, AllocError>
    ensures { IfOk result (λ all. all.items ≡ spec.intervals_from first None cuts.now) }
{
    let mut intervals = Vec::new(alloc);
    let mut has = first;
    let mut low = None;
    for at in 0..cuts.len() {
        low = turn(&mut intervals, has, low, cuts[at])?;
        has = !has;
    }
    if has {
        intervals.push(Interval { low, high: None })?;
    }
    Ok(intervals)
}

fn put_end(out: &mut String, end: Option<i64>) -> Result<(), AllocError>
    ensures { OnOk result (string_bytes out.new ≡ string_bytes out.old ++ spec.end_text end) }
{
    match end {
        Some(number) => put_number(out, number),
        None => Ok(()),
    }
}

fn is_single(interval: Interval) -> bool
    ensures { result ≡ spec.is_single interval.low interval.high }
{
    match (interval.low, interval.high) {
        (Some(low), Some(high)) => low == high,
        _ => false,
    }
}

fn interval_text(alloc: Global, interval: Interval) -> Result<String, AllocError>
    ensures { IfOk result (λ text. string_bytes text ≡ spec.interval_text interval) }
{
    let mut text = String::new(alloc);
    put_end(&mut text, interval.low)?;
    if !is_single(interval) {
        text.push_str("..")?;
        put_end(&mut text, interval.high)?;
    }
    Ok(text)
}

fn interval_texts(alloc: Global, intervals: &[Interval]) -> Result<Vec<String>, AllocError>
    ensures { IfOk result (λ texts. map string_bytes texts.items ≡ map spec.interval_text intervals.now) }
{
    let mut texts = Vec::with_capacity(alloc, intervals.len())?;
    for interval in intervals {
        texts.push(interval_text(alloc, *interval)?)?;
    }
    Ok(texts)
}

fn code_text(alloc: Global, column: &Column, code: u32) -> Result<String, AllocError>
    requires kind { column.now.kind ≡ kinds.Text }
    requires code { code < length (texts_of column.now.values) }
    ensures { IfOk result (λ text. string_bytes text ≡ spec.code_text (texts_of column.now.values) code) }
{
    let mut text = String::new(alloc);
    put_quoted(&mut text, column.spelt(code))?;
    Ok(text)
}

// The codes that a set has, of so many.
fn codes_in(alloc: Global, set: &NumberSet, count: u32) -> Result<Vec<u32>, AllocError>
    ensures { IfOk result (λ all. all.items ≡ spec.codes_in set.now count) }
{
    let mut all = Vec::new(alloc);
    for code in 0..count {
        if set.has(i64::from(code)) {
            all.push(code)?;
        }
    }
    Ok(all)
}

fn code_texts(alloc: Global, column: &Column, all: &[u32]) -> Result<Vec<String>, AllocError>
    requires kind { column.now.kind ≡ kinds.Text }
    requires there { All (λ code. code < length (texts_of column.now.values)) all.now }
    ensures { IfOk result (λ texts. map string_bytes texts.items ≡ map (spec.code_text (texts_of column.now.values)) all.now) }
{
    let mut texts = Vec::with_capacity(alloc, all.len())?;
    for code in all {
        texts.push(code_text(alloc, column, *code)?)?;
    }
    Ok(texts)
}

fn put_more(out: &mut String, count: usize) -> Result<(), AllocError>
    ensures { OnOk result (string_bytes out.new ≡ string_bytes out.old ++ spec.more_text count) }
{
    if count == 0 {
        return Ok(());
    }
    let mut buffer = Buffer::new();
    out.push_str(" and ")?;
    out.push_str(buffer.format(count))?;
    out.push_str(" more")
}

// Puts texts, each behind a comma.
fn put_further(out: &mut String, texts: &[String]) -> Result<(), AllocError>
    ensures { OnOk result (string_bytes out.new ≡ string_bytes out.old ++ spelling.further (codes ", ") (map string_bytes texts.now)) }
{
    for text in texts {
        out.push_str(", ")?;
        out.push_str(text.as_str())?;
    }
    Ok(())
}

// Puts texts, parted by commas.
pub(crate) fn put_parted(out: &mut String, texts: &[String]) -> Result<(), AllocError>
    ensures { OnOk result (string_bytes out.new ≡ string_bytes out.old ++ spelling.parted (codes ", ") (map string_bytes texts.now)) }
{
    let Some((first, rest)) = texts.split_first() else {
        return Ok(());
    };
    out.push_str(first.as_str())?;
    put_further(out, rest)
}

// The first values as one text, with how many more there are; of none, nothing.
fn together(alloc: Global, texts: &[String], more: usize) -> Result<Vec<String>, AllocError>
    ensures { IfOk result (λ all. map string_bytes all.items ≡ spec.together (map string_bytes texts.now) more) }
{
    let mut all = Vec::new(alloc);
    if texts.is_empty() {
        return Ok(all);
    }
    let mut text = String::new(alloc);
    put_parted(&mut text, texts)?;
    put_more(&mut text, more)?;
    all.push(text)?;
    Ok(all)
}

fn number_texts(alloc: Global, set: &NumberSet) -> Result<Vec<String>, AllocError>
    ensures { IfOk result (λ texts. map string_bytes texts.items ≡ spec.shown spec.interval_text (spec.intervals_of set.now)) }
{
    let intervals = intervals_of(alloc, set.first, &set.cuts)?;
    let count = intervals.len().min(SHOWN);
    let texts = interval_texts(alloc, &intervals[..count])?;
    together(alloc, &texts, intervals.len() - count)
}

fn letter_texts(alloc: Global, column: &Column, set: &NumberSet) -> Result<Vec<String>, AllocError>
    requires { column.now.kind ≡ kinds.Text }
    ensures { IfOk result (λ texts. map string_bytes texts.items ≡ spec.shown (spec.code_text (texts_of column.now.values)) (spec.codes_in set.now (length (texts_of column.now.values)))) }
{
    let all = codes_in(alloc, set, column.text_count())?;
    let count = all.len().min(SHOWN);
    let texts = code_texts(alloc, column, &all[..count])?;
    together(alloc, &texts, all.len() - count)
}

fn value_texts(alloc: Global, column: &Column, set: &NumberSet) -> Result<Vec<String>, AllocError>
    ensures { IfOk result (λ texts. map string_bytes texts.items ≡ spec.value_texts column.now.kind column.now set.now) }
{
    match column.kind() {
        ColType::Int => number_texts(alloc, set),
        ColType::Text => letter_texts(alloc, column, set),
    }
}

fn members_of(alloc: Global, column: &Column, set: &ValueSet) -> Result<Vec<String>, AllocError>
    ensures { IfOk result (λ texts. map string_bytes texts.items ≡ spec.members_of column.now set.now) }
{
    let mut texts = value_texts(alloc, column, &set.numbers)?;
    if set.null.is_true() {
        texts.push(String::from_str(alloc, "null")?)?;
    }
    Ok(texts)
}

// The members of the set of a filter of a table's column.
fn members(
    alloc: Global,
    table: Option<&Table>,
    filter: &ColumnFilter,
) -> Result<Vec<String>, AllocError>
    ensures { IfOk result (λ texts. map string_bytes texts.items ≡ spec.members (table_or_none (option_copied table.entry)) filter.now) }
{
    match table {
        Some(table) if filter.column < table.column_count() => {
            members_of(alloc, table.column(filter.column), &filter.set)
        }
        _ => Ok(Vec::new(alloc)),
    }
}

// Puts texts, parted by commas; of none, that there is nothing.
fn put_parted_or_nothing(out: &mut String, texts: &[String]) -> Result<(), AllocError>
    ensures { OnOk result (string_bytes out.new ≡ string_bytes out.old ++ spec.parted_or_nothing (map string_bytes texts.now)) }
{
    if texts.is_empty() {
        return out.push_str("nothing");
    }
    put_parted(out, texts)
}

// Puts the members of the set of a filter of a table's column.
pub(crate) fn put_members(
    out: &mut String,
    alloc: Global,
    table: Option<&Table>,
    filter: &ColumnFilter,
) -> Result<(), AllocError>
    ensures { OnOk result (string_bytes out.new ≡ string_bytes out.old ++ spec.parted_or_nothing (spec.members (table_or_none (option_copied table.entry)) filter.now)) }
{
    let texts = members(alloc, table, filter)?;
    put_parted_or_nothing(out, &texts)
}

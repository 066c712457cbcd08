// The lines of a catalog.

ghost use Rattle.std.specs.Prelude.{◌≡◌, ◌++◌, IfOk, OnOk, string_bytes};
ghost use Rattle.ssb_files.specs.Listing.{column_line, role_word, table_lines, type_word};

use ssb_catalog::{ColumnDef, TableDef};
use ssb_terms::{ColType, Role};
use std::alloc::{AllocError, Global};

fn type_word(kind: ColType) -> &'static str
    ensures { result.now ≡ type_word kind }
{
    match kind {
        ColType::Int => "int",
        ColType::Text => "text",
    }
}

fn role_word(role: Role) -> &'static str
    ensures { result.now ≡ role_word role }
{
    match role {
        Role::Key => "key",
        Role::Need => "need",
        Role::Nullable => "null",
    }
}

// Puts a word and a mark behind a text.
fn push_word(text: &mut String, word: &str, mark: &str) -> Result<(), AllocError>
    ensures { OnOk result (string_bytes text.new ≡ string_bytes text.old ++ (word.now ++ mark.now)) }
{
    text.push_str(word)?;
    text.push_str(mark)
}

// Puts the line of a column behind others.
fn push_column(text: &mut String, table: &str, column: &ColumnDef) -> Result<(), AllocError>
    ensures { OnOk result (string_bytes text.new ≡ string_bytes text.old ++ column_line table.now column.now) }
{
    push_word(text, table, "|")?;
    push_word(text, column.name.as_str(), "|")?;
    push_word(text, type_word(column.rule.kind), "|")?;
    push_word(text, role_word(column.rule.role), "\n")
}

/// The lines of a catalog that define a table: the table, the column, its type and its role.
///
/// # Errors
///
/// `AllocError` where a growth was refused.
pub fn table_lines(alloc: Global, table: &TableDef) -> Result<String, AllocError>
    ensures { IfOk result (λ text. string_bytes text ≡ table_lines table.now) }
{
    let mut text = String::new(alloc);
    for column in table.columns() {
        push_column(&mut text, table.name(), column)?;
    }
    Ok(text)
}

// The names of columns, as they are written.

use ssb_terms::Name;

/// A column, with its table's name where that is written.
pub struct ColumnName {
    /// The table's name, where it stands in front.
    pub table: Option<Name>,
    /// The column's name.
    pub column: Name,
}

// Written out, as those of `select.rt`: letting go of a value is then one call wherever one is in hand.
impl Drop for ColumnName {
    fn drop(self) {
        let ColumnName { table, column } = self;
        drop(table);
        drop(column);
    }
}

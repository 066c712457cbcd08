// What a query asks for, as it is written.

use crate::named::ColumnName;
use sqlite_items::Items;
use ssb_terms::Name;
use ssb_trees::{Aggregate, Filter};

/// What an item of the select list gives.
pub enum Output {
    /// A column's value.
    Column(ColumnName),
    /// What is computed over rows.
    Aggregate(Aggregate<ColumnName>),
}

// Written out, as each below: letting go of a value is then one call wherever one is in hand.
impl Drop for Output {
    fn drop(self) {
        match self {
            Output::Column(name) => drop(name),
            Output::Aggregate(aggregate) => drop(aggregate),
        }
    }
}

/// An item of the select list.
pub struct Item {
    /// What it gives.
    pub output: Output,
    /// The name that AS gives it.
    pub alias: Option<Name>,
}

impl Drop for Item {
    fn drop(self) {
        let Item { output, alias } = self;
        drop(output);
        drop(alias);
    }
}

/// What the answer is ordered by.
pub enum Key {
    /// The item of this name.
    Name(Name),
    /// The item at this place of the select list, counted from 1.
    Position(u64),
}

impl Drop for Key {
    fn drop(self) {
        match self {
            Key::Name(name) => drop(name),
            Key::Position(_) => {}
        }
    }
}

/// A key of ORDER BY.
pub struct Order {
    /// What is compared.
    pub key: Key,
    /// Whether the greatest come first.
    pub descending: bool,
}

impl Drop for Order {
    fn drop(self) {
        let Order { key, descending: _ } = self;
        drop(key);
    }
}

/// A query, as it is written. Names are in lower case.
pub struct Select {
    /// The select list.
    pub items: Items<Item>,
    /// The tables of FROM.
    pub from: Items<Name>,
    /// The condition of WHERE.
    pub condition: Option<Filter<ColumnName>>,
    /// The columns of GROUP BY; none where it is not there.
    pub groups: Items<ColumnName>,
    /// The condition of HAVING, in which an aggregate may stand for a column.
    pub having: Option<Filter<Output>>,
    /// The keys of ORDER BY; none where it is not there.
    pub orders: Items<Order>,
}

// Written out, so that the crates above need no proof of how its parts are let go.
impl Drop for Select {
    fn drop(self) {
        let Select {
            items,
            from,
            condition,
            groups,
            having,
            orders,
        } = self;
        drop(items);
        drop(from);
        drop(condition);
        drop(groups);
        drop(having);
        drop(orders);
    }
}

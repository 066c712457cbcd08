// The tables of the benchmark, a line for each column.

use ssb_terms::{ColType, Role, Rule};

// A column: its name, and its type and role.
#[derive(Clone, Copy)]
pub(crate) struct Line(pub(crate) &'static str, pub(crate) Rule);

const KEY: Rule = Rule {
    kind: ColType::Int,
    role: Role::Key,
};

const INT: Rule = Rule {
    kind: ColType::Int,
    role: Role::Nullable,
};

const TEXT: Rule = Rule {
    kind: ColType::Text,
    role: Role::Nullable,
};

pub(crate) const LINEORDER: [Line; 17] = [
    Line("lo_orderkey", INT),
    Line("lo_linenumber", INT),
    Line("lo_custkey", INT),
    Line("lo_partkey", INT),
    Line("lo_suppkey", INT),
    Line("lo_orderdate", INT),
    Line("lo_orderpriority", TEXT),
    Line("lo_shippriority", TEXT),
    Line("lo_quantity", INT),
    Line("lo_extendedprice", INT),
    Line("lo_ordtotalprice", INT),
    Line("lo_discount", INT),
    Line("lo_revenue", INT),
    Line("lo_supplycost", INT),
    Line("lo_tax", INT),
    Line("lo_commitdate", INT),
    Line("lo_shipmode", TEXT),
];

pub(crate) const CUSTOMER: [Line; 8] = [
    Line("c_custkey", KEY),
    Line("c_name", TEXT),
    Line("c_address", TEXT),
    Line("c_city", TEXT),
    Line("c_nation", TEXT),
    Line("c_region", TEXT),
    Line("c_phone", TEXT),
    Line("c_mktsegment", TEXT),
];

pub(crate) const SUPPLIER: [Line; 7] = [
    Line("s_suppkey", KEY),
    Line("s_name", TEXT),
    Line("s_address", TEXT),
    Line("s_city", TEXT),
    Line("s_nation", TEXT),
    Line("s_region", TEXT),
    Line("s_phone", TEXT),
];

pub(crate) const PART: [Line; 9] = [
    Line("p_partkey", KEY),
    Line("p_name", TEXT),
    Line("p_mfgr", TEXT),
    Line("p_category", TEXT),
    Line("p_brand1", TEXT),
    Line("p_color", TEXT),
    Line("p_type", TEXT),
    Line("p_size", INT),
    Line("p_container", TEXT),
];

pub(crate) const DATE: [Line; 17] = [
    Line("d_datekey", KEY),
    Line("d_date", TEXT),
    Line("d_dayofweek", TEXT),
    Line("d_month", TEXT),
    Line("d_year", INT),
    Line("d_yearmonthnum", INT),
    Line("d_yearmonth", TEXT),
    Line("d_daynuminweek", INT),
    Line("d_daynuminmonth", INT),
    Line("d_daynuminyear", INT),
    Line("d_monthnuminyear", INT),
    Line("d_weeknuminyear", INT),
    Line("d_sellingseason", TEXT),
    Line("d_lastdayinweekfl", TEXT),
    Line("d_lastdayinmonthfl", TEXT),
    Line("d_holidayfl", TEXT),
    Line("d_weekdayfl", TEXT),
];

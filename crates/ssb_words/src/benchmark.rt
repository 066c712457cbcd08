// The benchmark's queries.

ghost use Rattle.std.specs.Prelude.{◌≡◌};
ghost use Rattle.std.specs.Map.{lookup};
ghost use Rattle.std.specs.Option.{option_map};
ghost use Rattle.std.specs.Str.{bytes_eq};
ghost use Rattle.ssb_words.specs.Benchmark.{named_texts};

const Q1_1: &str = "select sum(lo_extendedprice*lo_discount) as revenue
from lineorder, date
where lo_orderdate = d_datekey and d_year = 1993
and lo_discount between 1 and 3 and lo_quantity < 25;
";

const Q1_2: &str = "select sum(lo_extendedprice*lo_discount) as revenue
from lineorder, date
where lo_orderdate = d_datekey and d_yearmonthnum = 199401
and lo_discount between 4 and 6 and lo_quantity between 26 and 35;
";

const Q1_3: &str = "select sum(lo_extendedprice*lo_discount) as revenue
from lineorder, date
where lo_orderdate = d_datekey and d_weeknuminyear = 6 and d_year = 1994
and lo_discount between 5 and 7 and lo_quantity between 26 and 35;
";

// The second flight: what sales of parts made, with this condition on parts and suppliers.
macro_rules! sales_of_parts {
    ($condition:literal) => {
        concat!(
            "select sum(lo_revenue), d_year, p_brand1
from lineorder, date, part, supplier
where lo_orderdate = d_datekey and lo_partkey = p_partkey
and lo_suppkey = s_suppkey
",
            $condition,
            "
group by d_year, p_brand1 order by d_year, p_brand1;
",
        )
    };
}

const Q2_1: &str = sales_of_parts!("and p_category = 'MFGR#12' and s_region = 'AMERICA'");

const Q2_2: &str = sales_of_parts!(
    "and p_brand1 between 'MFGR#2221' and 'MFGR#2228' and s_region = 'ASIA'"
);

const Q2_3: &str = sales_of_parts!("and p_brand1 = 'MFGR#2221' and s_region = 'EUROPE'");

// The third flight: what sales between customers and suppliers by such places made, with these conditions.
macro_rules! sales_between {
    ($place:literal, $conditions:literal) => {
        concat!(
            "select c_",
            $place,
            ", s_",
            $place,
            ", d_year, sum(lo_revenue) as revenue
from customer, lineorder, supplier, date
where lo_custkey = c_custkey and lo_suppkey = s_suppkey
and lo_orderdate = d_datekey
",
            $conditions,
            "
group by c_",
            $place,
            ", s_",
            $place,
            ", d_year order by d_year asc, revenue desc;
",
        )
    };
}

const Q3_1: &str = sales_between!(
    "nation",
    "and c_region = 'ASIA' and s_region = 'ASIA'
and d_year >= 1992 and d_year <= 1997"
);

const Q3_2: &str = sales_between!(
    "city",
    "and c_nation = 'UNITED STATES' and s_nation = 'UNITED STATES'
and d_year >= 1992 and d_year <= 1997"
);

const Q3_3: &str = sales_between!(
    "city",
    "and (c_city = 'UNITED KI1' or c_city = 'UNITED KI5')
and (s_city = 'UNITED KI1' or s_city = 'UNITED KI5')
and d_year >= 1992 and d_year <= 1997"
);

const Q3_4: &str = sales_between!(
    "city",
    "and (c_city = 'UNITED KI1' or c_city = 'UNITED KI5')
and (s_city = 'UNITED KI1' or s_city = 'UNITED KI5')
and d_yearmonth = 'Dec1997'"
);

// The fourth flight: the profit, with these columns before it, and with what follows the joins.
macro_rules! profit {
    ($columns:literal, $rest:literal) => {
        concat!(
            $columns,
            "sum(lo_revenue - lo_supplycost) as profit
from date, customer, supplier, part, lineorder
where lo_custkey = c_custkey and lo_suppkey = s_suppkey
and lo_partkey = p_partkey and lo_orderdate = d_datekey
",
            $rest,
        )
    };
}

const Q4_1: &str = profit!(
    "select d_year, c_nation, ",
    "and c_region = 'AMERICA' and s_region = 'AMERICA'
and (p_mfgr = 'MFGR#1' or p_mfgr = 'MFGR#2')
group by d_year, c_nation order by d_year, c_nation;
"
);

const Q4_2: &str = profit!(
    "select d_year, s_nation, p_category,
",
    "and c_region = 'AMERICA' and s_region = 'AMERICA'
and (d_year = 1997 or d_year = 1998)
and (p_mfgr = 'MFGR#1' or p_mfgr = 'MFGR#2')
group by d_year, s_nation, p_category
order by d_year, s_nation, p_category;
"
);

const Q4_3: &str = profit!(
    "select d_year, s_city, p_brand1,
",
    "and c_region = 'AMERICA' and s_nation = 'UNITED STATES'
and (d_year = 1997 or d_year = 1998) and p_category = 'MFGR#14'
group by d_year, s_city, p_brand1 order by d_year, s_city, p_brand1;
"
);

/// The text of the benchmark's query of a name, `Q1.1` to `Q4.3`, or none where no query has it.
pub fn text_named(name: &str) -> Option<&'static str>
    ensures { option_map (λ text. text.now) result ≡ lookup (bytes_eq name.now) named_texts }
{
    match name {
        "Q1.1" => Some(Q1_1),
        "Q1.2" => Some(Q1_2),
        "Q1.3" => Some(Q1_3),
        "Q2.1" => Some(Q2_1),
        "Q2.2" => Some(Q2_2),
        "Q2.3" => Some(Q2_3),
        "Q3.1" => Some(Q3_1),
        "Q3.2" => Some(Q3_2),
        "Q3.3" => Some(Q3_3),
        "Q3.4" => Some(Q3_4),
        "Q4.1" => Some(Q4_1),
        "Q4.2" => Some(Q4_2),
        "Q4.3" => Some(Q4_3),
        _ => None,
    }
}

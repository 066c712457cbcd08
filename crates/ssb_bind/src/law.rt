// Laws of what a query means.

ghost use Rattle.std.specs.Prelude.{◌≡◌, List};
ghost use Rattle.ssb_bind.specs.Meaning.{Means};
ghost use Rattle.ssb_query.specs.declared.query.QueryParts.{QueryParts};
ghost use Rattle.ssb_catalog.specs.Shapes.{TableShape};
ghost use Rattle.ssb_sql.specs.declared.select.Select.{Select};

/// A law: a select means at most one query over a catalog.
pub fn one_meaning()
    ensures { (c : List TableShape) (s : Select) (p q : QueryParts) → Means c s p → Means c s q → p ≡ q }
{}

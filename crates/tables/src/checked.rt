// A table that the check accepts.
ghost use Rattle.std.specs.Prelude.{◌≡◌, Ok};
ghost use Rattle.tables.specs.Table.{table_of};
ghost use Rattle.tables.specs.Check.{check_of};

// A table in words that the check accepts. Whoever has one reads or writes by it without a check.
#[derive(Clone, Copy)]
pub struct CheckedTable<'a> {
    pub words: &'a [u64],
    pub ghost accepted: { check_of (table_of words.now) ≡ Ok tt },
}

//! The table, and how it is named.
ghost use Rattle.std.specs.Prelude.{◌≡◌, ◌≢◌, ◌⊎◌, ◌∷◌, [], codes, false, IsTrue};
ghost use Rattle.sqlite_store.specs.Catalog.{wanted_of};
ghost use Rattle.sqlite_value.specs.Order.{column};
ghost use Rattle.sqlite_value.specs.declared.value.Value.TheVariants.{Text as TextValue};
ghost use Rattle.st_journal_rows.specs.Table.{schema, table_text};

use sqlite_trees::schema::Object;
use sqlite_trees::store::Shape;
use sqlite_value::row::Row;
use sqlite_value::value::ValueRef;

// The number of the table's tree.
pub(crate) const TREE: u32 = 0;

// The format of the file, in SQLite's user version.
pub(crate) const FORMAT: u32 = 1;

/// The most rows of the table.
pub const MOST: u64 = 0x4000_0000_0000_0000;

const NAME: &str = "changes";

const SQL: &str =
    "CREATE TABLE changes (number INTEGER PRIMARY KEY, time INTEGER NOT NULL, user TEXT NOT NULL, request TEXT NOT NULL, \
name TEXT NOT NULL, body TEXT NOT NULL, result TEXT NOT NULL) STRICT";

/// The table, as SQL makes it.
pub fn table() -> Object<'static>
    ensures { wanted_of result ∷ [] ≡ schema }
{
    Object {
        shape: Shape::Table,
        kind: "table",
        name: NAME,
        table: NAME,
        reals: 0,
        sql: Some(SQL),
    }
}

/// Whether a row of the schema is that of the table. Its columns are a rowid, type, name, table, root page and SQL text.
pub fn is_table(row: &Row) -> bool
    ensures yes { IsTrue result → (column row.now 2 ≡ TextValue (codes "changes")) × (column row.now 5 ≡ TextValue table_text) }
    ensures no { result ≡ false → (column row.now 2 ≢ TextValue (codes "changes")) ⊎ (column row.now 5 ≢ TextValue table_text) }
{
    let (ValueRef::Text(name), ValueRef::Text(sql)) = (row.get(2), row.get(5)) else {
        return false;
    };
    name == NAME.as_bytes() && sql == SQL.as_bytes()
}

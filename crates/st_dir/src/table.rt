//! Tables.
ghost use Rattle.std.specs.Prelude.{◌≡◌};

use st_grant::TableName;
use st_key::Period;

/// A table: its name, whether its visibility constraint is on, and the length of its time bins.
#[derive(Drop)]
pub struct TableInfo {
    pub table: TableName,
    pub constraint: bool,
    pub period: Period,
}

impl TableInfo {
    /// An equal table.
    pub fn copy(&self) -> TableInfo
        ensures { result ≡ self.now }
    {
        TableInfo {
            table: self.table.copy(),
            constraint: self.constraint,
            period: self.period,
        }
    }
}

//! The network that a table is.

ghost use Rattle.table.specs.Tables.{table_grid};
ghost use Rattle.table.specs.Sized.{table_zoned, table_few_zones, table_few_lines, table_limited, table_sensitive};

use super::Table;
use network::Network;

impl Network for Table {
    ghost grid = { table_grid };

    ghost zoned = { table_zoned };

    ghost fewzones = { table_few_zones };

    ghost fewlines = { table_few_lines };

    ghost limited = { table_limited };

    ghost sensitive = { table_sensitive };

    fn zones(&self) -> usize {
        self.zones
    }

    fn lines(&self) -> usize {
        self.rows.len()
    }

    fn sensitivity(&self, line: usize, zone: usize) -> i16 {
        if zone >= self.zones {
            return 0;
        }
        self.rows
            .as_slice()
            .get(line)
            .map_or(0, |row| row.sensitivity(zone))
    }

    fn limit(&self, line: usize) -> u32 {
        self.rows.as_slice().get(line).map_or(0, |row| row.limit())
    }
}

//! A store that notes which rows were put.
ghost use Rattle.std.specs.Prelude.{◌≡◌, [], length, replicate, IfOk};

use rep_lists::NoMemory;
use rep_schema::{RowStore, Schema};
use rep_values::{Key, Row, Value};
use row_tables::ListTables;
use std::alloc::Global;
use std::sync::Arc;
use std::sync::atomic::{AtomicU64, Ordering};

/// One bit for each row that was put, by the digit that its number begins with.
#[derive(Drop)]
pub struct Puts {
    bits: AtomicU64,
}

/// The digit that a number begins with, where it is above 0.
fn first_digit(number: i64) -> i64 {
    let mut digit = number;
    for _ in 0..18 {
        if digit < 10 {
            break;
        }
        digit /= 10;
    }
    digit
}

/// The bit of a row.
fn bit_of(values: &[Value]) -> u64 {
    let digit = match values.first() {
        Some(Value::Num(number)) => first_digit(*number),
        Some(Value::Words(_)) | None => 0,
    };
    match digit {
        1 => 2,
        2 => 4,
        _ => 1,
    }
}

impl Puts {
    /// Nothing was put.
    pub fn new() -> Puts {
        Puts {
            bits: AtomicU64::new(0),
        }
    }

    /// Nothing was put from now on.
    pub fn clear(&self) {
        self.bits.store(0, Ordering::SeqCst);
    }

    /// Whether a row whose number begins with 1 was put.
    pub fn has_first(&self) -> bool {
        self.bits.load(Ordering::SeqCst) & 2 != 0
    }

    /// Whether a row whose number begins with 2 was put.
    pub fn has_second(&self) -> bool {
        self.bits.load(Ordering::SeqCst) & 4 != 0
    }

    fn note(&self, row: &Row) {
        self.bits.fetch_or(bit_of(row.values()), Ordering::SeqCst);
    }
}

/// Tables that hand each call on, and note what is put.
#[derive(Drop)]
pub struct NotingTables {
    tables: ListTables,
    puts: Arc<Puts>,
}

impl NotingTables {
    /// Tables of a schema, which are empty.
    pub fn make(alloc: Global, schema: Schema, puts: Arc<Puts>) -> Result<NotingTables, NoMemory>
        ensures schema { IfOk result (λ s. s.tables.schema ≡ schema) }
        ensures tables { IfOk result (λ s. s.tables.tables ≡ replicate (length schema.tables) []) }
    {
        let tables = ListTables::make(alloc, schema)?;
        Ok(NotingTables { tables, puts })
    }
}

impl RowStore for NotingTables {
    ghost schema = { λ s. s.tables.schema };

    ghost tables = { λ s. s.tables.tables };

    ghost spare = { λ s. s.tables.spare };

    fn schema(&self) -> &Schema {
        self.tables.schema()
    }

    fn count(&self, table: u32) -> u64 {
        self.tables.count(table)
    }

    fn get(&self, table: u32, key: &Key) -> Option<&Row> {
        self.tables.get(table, key)
    }

    fn row_in_order(&self, table: u32, place: u64) -> Option<&Row> {
        self.tables.row_in_order(table, place)
    }

    fn holds_unique(&self, table: u32, constraint: u32, row: &Row) -> bool {
        self.tables.holds_unique(table, constraint, row)
    }

    fn reserve(&mut self, table: u32, rows: u64) -> Result<(), NoMemory> {
        self.tables.reserve(table, rows)
    }

    fn put(&mut self, table: u32, row: Row) -> Option<Row> {
        self.puts.note(&row);
        self.tables.put(table, row)
    }

    fn take(&mut self, table: u32, key: &Key) -> Option<Row> {
        self.tables.take(table, key)
    }
}

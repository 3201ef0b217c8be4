ghost use Rattle.std.specs.Prelude.{◌≡◌, ◌≢◌, None, OnOk, OnErr};
ghost use Rattle.s38_profiles.specs.Rows.{SetsRow, row_at, row_with, with_row};

use crate::profile::RowKey;
use s38_base::{NoMemory, Rights};
use std::collections::BTreeMap;

/// The row at a key.
pub fn row_at(rows: &BTreeMap<RowKey, Rights>, key: RowKey) -> Option<Rights>
    ensures { result ≡ row_at rows.now.entries key }
{
    rows.get(&key).copied()
}

/// Sets the row at a key, or takes it out where no right is left.
pub fn set(rows: &mut BTreeMap<RowKey, Rights>, key: RowKey, rights: Rights) -> Result<(), NoMemory>
    ensures ok { OnOk result (rows.new.entries ≡ with_row rows.old.entries key rights) }
    ensures others { OnOk result (SetsRow rows.old.entries key (row_with rights) rows.new.entries) }
    ensures added { OnErr result ((row_at rows.old.entries key ≡ None) × (rights.0 ≢ 0)) }
    ensures err { OnErr result (rows.new.entries ≡ rows.old.entries) }
{
    if rights.0 == 0 {
        rows.remove(&key);
        return Ok(());
    }
    match rows.insert(key, rights) {
        Ok(_) => Ok(()),
        Err(_) => Err(NoMemory),
    }
}

ghost use Rattle.std.specs.Prelude.{◌≡◌, ◌≢◌, ◌≤◌, ◌<◌, ◌==◌, ◌++◌, ◌∷◌, ℕ, Some, drop, false, find, length, slice_get, slice_set, take, true, vec_len, IfOk, OnErr, OnOk, if◌then◌else◌};
ghost use Rattle.std.specs.Option.{option_copied};
ghost use Rattle.s38_rules.specs.state.PrivateRows.{AreRows, count_before, is_row, rights_in, row_for, row_is_at, row_of, with_row};

use s38_base::{NoMemory, Rights, UserNum};
use std::alloc::Global;
use std::marker::Model;

/// The rights that a user holds on an object by a row of its own.
#[derive(Clone, Copy, PartialEq, Eq, Debug)]
pub struct PrivateRow {
    pub user: UserNum,
    pub rights: Rights,
}

/// The private rows of an object: users rise, and each has a right. Contracts see it as the list of rows.
#[derive(Drop)]
pub struct RowList {
    rows: Vec<PrivateRow>,
}

impl Model for RowList {
    ghost use Rattle.std.specs.Prelude.{List};
    ghost use Rattle.s38_rules.specs.declared.rows.PrivateRow.{PrivateRow};
    ghost use Rattle.s38_rules.specs.state.PrivateRows.{AreRows};

    ghost Value = { List PrivateRow };

    ghost view = { λ l. l.rows.items };

    ghost invariant = { λ l. AreRows l.rows.items };
}

/// How many rows are before that of a user.
fn place_of(rows: &[PrivateRow], user: UserNum) -> usize
    ensures place { result ≡ count_before rows.now user }
    ensures within { result ≤ length rows.now }
{
    match rows {
        [] => 0,
        [row, more @ ..] => {
            if row.user.0 < user.0 {
                1 + place_of(more, user)
            } else {
                0
            }
        }
    }
}

fn is_at(rows: &[PrivateRow], at: usize, user: UserNum) -> bool
    ensures { result ≡ row_is_at rows.now at user }
{
    match rows.get(at) {
        None => false,
        Some(row) => row.user.0 == user.0,
    }
}

fn find_row(rows: &[PrivateRow], user: UserNum) -> Option<&PrivateRow>
    ensures { option_copied result ≡ find (is_row user.0) rows.now }
{
    rows.iter().find(|row| row.user.0 == user.0)
}

fn rights_in(row: Option<&PrivateRow>) -> Rights
    ensures { result.0 ≡ rights_in (option_copied row.entry) }
{
    match row {
        None => Rights(0),
        Some(row) => row.rights,
    }
}

fn insert(rows: &mut Vec<PrivateRow>, at: usize, row: PrivateRow) -> Result<(), NoMemory>
    requires { at ≤ vec_len rows.old }
    ensures ok { OnOk result (rows.new.items ≡ take at rows.old.items ++ row ∷ drop at rows.old.items) }
    ensures err { OnErr result (rows.new.items ≡ rows.old.items) }
{
    match rows.insert(at, row) {
        Ok(()) => Ok(()),
        Err(_) => Err(NoMemory),
    }
}

/// The row of a user, which is at a place, has these rights, or is taken out.
#[tactic(auto, using(crate::proofs::RowLaws::row_removed, crate::proofs::RowLaws::row_there, crate::proofs::RowLaws::row_replaced))]
fn change_row(rows: &mut Vec<PrivateRow>, at: usize, user: UserNum, rights: Rights)
    requires place { at ≡ count_before rows.old.items user }
    requires there { row_is_at rows.old.items at user ≡ true }
    ensures { rows.new.items ≡ with_row rows.old.items user rights }
{
    if rights.0 == 0 {
        let _row = rows.remove(at);
    } else {
        rows[at] = PrivateRow { user, rights };
    }
}

/// A user without a row, which belongs at a place, has these rights.
#[tactic(auto, using(crate::proofs::RowLaws::row_absent, crate::proofs::RowLaws::row_inserted, crate::proofs::RowLaws::place_within))]
fn add_row(
    rows: &mut Vec<PrivateRow>,
    at: usize,
    user: UserNum,
    rights: Rights,
) -> Result<(), NoMemory>
    requires place { at ≡ count_before rows.old.items user }
    requires absent { row_is_at rows.old.items at user ≡ false }
    ensures ok { OnOk result (rows.new.items ≡ with_row rows.old.items user rights) }
    ensures added { OnErr result (rights.0 ≢ 0) }
    ensures err { OnErr result (rows.new.items ≡ rows.old.items) }
{
    if rights.0 == 0 {
        return Ok(());
    }
    insert(rows, at, PrivateRow { user, rights })
}

impl RowList {
    /// The row of one user, or none without a right.
    pub fn of(alloc: Global, user: UserNum, rights: Rights) -> Result<RowList, NoMemory>
        ensures { IfOk result (λ rows. rows ≡ row_for user rights) }
    {
        let mut rows = Vec::new(alloc);
        if rights.0 != 0 {
            rows.push(PrivateRow { user, rights })?;
        }
        Ok(RowList { rows })
    }

    /// The rows of a vector, without a copy.
    pub fn from_rows(rows: Vec<PrivateRow>) -> RowList
        requires { AreRows rows.items }
        ensures { result ≡ rows.items }
    {
        RowList { rows }
    }

    /// The rows.
    pub fn as_slice(&self) -> &[PrivateRow]
        ensures value { result.now ≡ self.now }
        ensures rows { AreRows result.now }
    {
        self.rows.as_slice()
    }

    /// How many rows there are.
    pub fn len(&self) -> usize
        ensures { result ≡ length self.now }
    {
        self.rows.len()
    }

    /// Whether there is no row.
    pub fn is_empty(&self) -> bool
        ensures { result ≡ (length self.now == 0) }
    {
        self.rows.is_empty()
    }

    /// The rights of a user by its row; none without a row.
    pub fn rights_of(&self, user: UserNum) -> Rights
        ensures { result.0 ≡ row_of self.now user.0 }
    {
        rights_in(find_row(self.rows.as_slice(), user))
    }

    /// Sets the rights of a user; a row without a right is taken out. Memory can be refused only where a row is
    /// added, and nothing changed then.
    #[tactic(auto, using(crate::proofs::RowLaws::rows_kept, crate::proofs::RowLaws::row_read, crate::proofs::RowLaws::none_at))]
    pub fn set(&mut self, user: UserNum, rights: Rights) -> Result<(), NoMemory>
        ensures ok { OnOk result (self.new ≡ with_row self.old user rights) }
        ensures others { OnOk result ((other : ℕ) → row_of self.new other ≡ (if user.0 == other then rights.0 else row_of self.old other)) }
        ensures added { OnErr result ((row_of self.old user.0 ≡ 0) × (rights.0 ≢ 0)) }
        ensures err { OnErr result (self.new ≡ self.old) }
    {
        let at = place_of(self.rows.as_slice(), user);
        if is_at(self.rows.as_slice(), at, user) {
            change_row(&mut self.rows, at, user, rights);
            return Ok(());
        }
        add_row(&mut self.rows, at, user, rights)
    }
}

// Parts of a table, put together in their order.

ghost use Rattle.std.specs.Prelude.{◌≡◌, ◌++◌, ◌+◌, ◌<◌, ◌≤◌, ◌∷◌, [], List, ℕ, IfErr, IfOk, OnOk, None, map, true};
ghost use Rattle.ssb_lanes.specs.Assembly.{AreParts, Halts, IsAssembled, IsHeld, IsWhole, RefusesAll, RefusesBehind, RefusesRows, lead, subject_in};
ghost use Rattle.ssb_records.specs.CutShort.{IfRead};
ghost use Rattle.ssb_records.specs.Intake.{Refuses};
ghost use Rattle.ssb_lanes.specs.Lane.{IsRead};
ghost use Rattle.ssb_load.specs.Subject.{judge, table};
ghost use Rattle.ssb_records.specs.Lines.{EndsInLf};
ghost use Rattle.ssb_lanes.specs.Part.{HaltsAt, IsBrokenOff, IsPart, IsRefused};
ghost use Rattle.ssb_records.specs.Records.{Fields, records_of};
ghost use Rattle.ssb_terms.specs.Roles.{key_place};
ghost use Rattle.ssb_load.specs.TableIntake.{IsLoading, subject_of};
ghost use Rattle.ssb_records.specs.declared.fault.LoadFault.TheVariants as load;
ghost use Rattle.ssb_records.specs.declared.fault.RecordFault.TheVariants as faults;

use crate::moved::moved;
use crate::part::{Part, keep};
use csv::ByteRecord;
use ssb_cells::Column;
use ssb_load::TableIntake;
use ssb_records::{LoadFault, RecordFault, take_text};
use ssb_terms::Rule;
use std::alloc::{AllocError, Global};
use std::mem;

// The columns of the parts that are done, the rows on their way, and the bytes behind the last line
// feed. The line that a part ends and another begins goes to the rows before it.
pub(crate) struct Assembly {
    pub done: Vec<Vec<Column>>,
    // How many rows the parts that are done have.
    pub earlier: u64,
    pub last: TableIntake,
    pub pending: Vec<u8>,
    // Whether a line feed has come.
    pub is_cut: bool,
}

// Written out, so that what lets go of one need not say how its parts are let go.
impl Drop for Assembly {
    fn drop(self) {
        let Assembly {
            done,
            earlier: _,
            last,
            pending,
            is_cut: _,
        } = self;
        drop(done);
        drop(last);
        drop(pending);
    }
}

// What stands before the bytes that wait, for the reader of records.
fn lead(is_cut: bool) -> &'static [u8]
    ensures { result.now ≡ lead is_cut }
{
    if is_cut { b"\n" } else { b"" }
}

// Puts the columns of a part behind those of others.
fn put(done: &mut Vec<Vec<Column>>, columns: Vec<Column>) -> Result<(), LoadFault>
    ensures put { OnOk result (done.new.items ≡ done.old.items ++ columns ∷ []) }
    ensures memory { IfErr result (λ e. e ≡ load.Memory) }
{
    match done.push(columns) {
        Ok(()) => Ok(()),
        Err(_) => Err(LoadFault::Memory),
    }
}

impl Assembly {
    // Of no byte yet.
    pub(crate) fn new(alloc: Global, rules: &[Rule], max_rows: u32) -> Result<Assembly, AllocError>
        requires { key_place rules.now ≡ None }
        ensures subject { IfOk result (λ a. subject_in a ≡ table rules.now max_rows) }
        ensures none { IfOk result (λ a. IsAssembled a []) }
    {
        Ok(Assembly {
            done: Vec::new(alloc),
            earlier: 0,
            last: TableIntake::under(alloc, rules, max_rows)?,
            pending: Vec::new(alloc),
            is_cut: false,
        })
    }

    // Whether there are no more rows than a table may have.
    fn check_limit(&self) -> Result<(), LoadFault>
        requires few { self.now.earlier ≤ self.now.last.max_rows }
        requires room { self.now.last.accepted < 4294967296 }
        ensures few { OnOk result (self.now.earlier + self.now.last.accepted ≤ self.now.last.max_rows) }
        ensures many { IfErr result (λ e. (e ≡ load.Record faults.TooManyRows (self.now.last.max_rows + 1)) × (self.now.last.max_rows < self.now.earlier + self.now.last.accepted)) }
    {
        let limit = u64::from(self.last.max_rows);
        if self.earlier + self.last.accepted > limit {
            return Err(LoadFault::Record(RecordFault::TooManyRows, limit + 1));
        }
        Ok(())
    }

    // Takes the records of the bytes that wait.
    fn take_waiting(&mut self, alloc: Global) -> Result<(), LoadFault>
        requires { (lists : List (List Fields)) × (latest : List Fields) × IsHeld self.old lists latest }
        ensures subject { subject_in self.new ≡ subject_in self.old }
        ensures pending { self.new.pending ≡ self.old.pending }
        ensures taken { OnOk result ((lists : List (List Fields)) (latest : List Fields) → IsHeld self.old lists latest → IsHeld self.new lists (latest ++ records_of (lead self.old.is_cut ++ self.old.pending.items))) }
        ensures refused { IfErr result (RefusesBehind self.old (records_of (lead self.old.is_cut ++ self.old.pending.items))) }
    {
        let before = lead(self.is_cut);
        let mut row = ByteRecord::new(alloc);
        match take_text(alloc, before, &self.pending, &mut row, &mut self.last) {
            Ok(()) => self.check_limit(),
            Err(fault) => Err(moved(fault, self.earlier, self.last.max_rows)),
        }
    }

    // Takes the line that waits, with its end.
    fn close(&mut self, alloc: Global, text: &[u8]) -> Result<(), LoadFault>
        requires line { EndsInLf text.now }
        requires assembled { (bytes : List ℕ) × IsAssembled self.old bytes }
        ensures subject { subject_in self.new ≡ subject_in self.old }
        ensures taken { OnOk result ((bytes : List ℕ) → IsAssembled self.old bytes → IsAssembled self.new (bytes ++ text.now)) }
        ensures none { OnOk result ((self.new.pending.items ≡ []) × (self.new.is_cut ≡ true)) }
        ensures refused { IfErr result (λ e. (bytes : List ℕ) → IsAssembled self.old bytes → RefusesAll (subject_in self.old) (bytes ++ text.now) e) }
    {
        keep(&mut self.pending, text)?;
        self.take_waiting(alloc)?;
        self.pending.clear();
        self.is_cut = true;
        Ok(())
    }

    // Puts the rows of a part behind those so far.
    fn add_rows(&mut self, rows: TableIntake) -> Result<(), LoadFault>
        requires held { (lists : List (List Fields)) × (latest : List Fields) × IsHeld self.old lists latest }
        requires rows { (good : List Fields) × IsLoading rows good }
        requires subject { subject_of rows ≡ subject_in self.old }
        ensures subject { subject_in self.new ≡ subject_in self.old }
        ensures pending { (self.new.pending ≡ self.old.pending) × (self.new.is_cut ≡ self.old.is_cut) }
        ensures taken { OnOk result ((lists : List (List Fields)) (latest good : List Fields) → IsHeld self.old lists latest → IsLoading rows good → IsHeld self.new (lists ++ latest ∷ []) good) }
        ensures refused { IfErr result (RefusesRows self.old rows) }
    {
        let last = mem::replace(&mut self.last, rows);
        self.earlier += last.accepted;
        let Ok(columns) = last.into_columns() else {
            return Err(LoadFault::Memory);
        };
        put(&mut self.done, columns)?;
        self.check_limit()
    }

    // Puts a part of a source that was read to its end behind the parts so far.
    pub(crate) fn add(&mut self, alloc: Global, part: Part) -> Result<(), LoadFault>
        requires assembled { (bytes : List ℕ) × IsAssembled self.old bytes }
        requires part { (bytes : List ℕ) × IsPart part bytes }
        requires subject { subject_of part.rows ≡ subject_in self.old }
        ensures subject { subject_in self.new ≡ subject_in self.old }
        ensures taken { OnOk result ((bytes more : List ℕ) → IsAssembled self.old bytes → IsPart part more → IsAssembled self.new (bytes ++ more)) }
        ensures refused { IfErr result (λ e. (bytes more : List ℕ) → IsAssembled self.old bytes → IsPart part more → RefusesAll (subject_in self.old) (bytes ++ more) e) }
    {
        if !part.is_cut {
            return keep(&mut self.pending, &part.head);
        }
        self.close(alloc, &part.head)?;
        self.add_rows(part.rows)?;
        self.pending = part.tail;
        Ok(())
    }

    // Why all parts together stop, where a record of this part was refused.
    fn refuse(&mut self, alloc: Global, part: Part, fault: LoadFault) -> LoadFault
        requires assembled { (bytes : List ℕ) × IsAssembled self.old bytes }
        requires line { EndsInLf part.head.items }
        requires subject { subject_of part.rows ≡ subject_in self.old }
        ensures halts { (bytes more : List ℕ) → IsAssembled self.old bytes → IsRefused part more fault → Halts (subject_in self.old) (bytes ++ more) result }
        ensures never { (f : RecordFault) (n : ℕ) → fault ≡ LoadFault.Record f n → IfRead result (λ n. ⊥) }
    {
        match self.close(alloc, &part.head) {
            Ok(()) => moved(fault, self.earlier + self.last.accepted, self.last.max_rows),
            Err(earlier) => earlier,
        }
    }

    // Why all parts together stop, where a read failed behind this part.
    fn break_off(&mut self, alloc: Global, part: Part) -> LoadFault
        requires assembled { (bytes : List ℕ) × IsAssembled self.old bytes }
        requires part { (bytes : List ℕ) × IsPart part bytes }
        requires subject { subject_of part.rows ≡ subject_in self.old }
        ensures { (bytes more : List ℕ) → IsAssembled self.old bytes → IsBrokenOff part more → Halts (subject_in self.old) (bytes ++ more) result }
    {
        match self.add(alloc, part) {
            Ok(()) => LoadFault::Read(self.earlier + self.last.accepted + 1),
            Err(earlier) => earlier,
        }
    }

    // Why all parts together stop, where the source of this part was not read to its end.
    pub(crate) fn halt(&mut self, alloc: Global, part: Part, fault: LoadFault) -> LoadFault
        requires assembled { (bytes : List ℕ) × IsAssembled self.old bytes }
        requires part { (bytes : List ℕ) × HaltsAt part bytes fault }
        requires subject { subject_of part.rows ≡ subject_in self.old }
        ensures halts { (bytes more : List ℕ) → IsAssembled self.old bytes → HaltsAt part more fault → Halts (subject_in self.old) (bytes ++ more) result }
        ensures broken { IfRead result (λ n. IsRead fault) }
    {
        match fault {
            LoadFault::Record(_, _) => self.refuse(alloc, part, fault),
            LoadFault::Read(_) => self.break_off(alloc, part),
            LoadFault::BadCatalog(_, _) => fault,
            LoadFault::Memory => fault,
        }
    }

    // Takes a last line that no line feed ends.
    fn take_last(&mut self, alloc: Global) -> Result<(), LoadFault>
        requires { (bytes : List ℕ) × IsAssembled self.old bytes }
        ensures subject { subject_in self.new ≡ subject_in self.old }
        ensures taken { OnOk result ((bytes : List ℕ) → IsAssembled self.old bytes → IsWhole self.new bytes) }
        ensures refused { IfErr result (λ e. (bytes : List ℕ) → IsAssembled self.old bytes → Refuses (judge (subject_in self.old)) (records_of bytes) e) }
    {
        if self.pending.is_empty() {
            return Ok(());
        }
        self.take_waiting(alloc)
    }

    // The columns of each part, once no more comes.
    pub(crate) fn finish(mut self, alloc: Global) -> Result<Vec<Vec<Column>>, LoadFault>
        requires { (bytes : List ℕ) × IsAssembled self bytes }
        ensures taken { IfOk result (λ parts. (bytes : List ℕ) → IsAssembled self bytes → AreParts self.last.rules.items self.last.max_rows (map (λ v. v.items) parts.items) (records_of bytes)) }
        ensures refused { IfErr result (λ e. (bytes : List ℕ) → IsAssembled self bytes → Refuses (judge (subject_in self)) (records_of bytes) e) }
    {
        self.take_last(alloc)?;
        let Assembly {
            mut done,
            earlier: _,
            last,
            pending: _,
            is_cut: _,
        } = self;
        let Ok(columns) = last.into_columns() else {
            return Err(LoadFault::Memory);
        };
        put(&mut done, columns)?;
        Ok(done)
    }
}

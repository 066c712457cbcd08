// The records of a source, piece by piece, and what takes them.
//
// A `Source` gives bytes, `Pieces` cuts them behind line feeds, `csv` reads the records of a piece, and
// an `Intake` takes these one by one. The loops are thin and generic in the source and the intake; each
// record goes to a function without type parameters that has the contract. What a record may be wrong in
// is the intake's own matter: its `Judge` says when records are good, and which fault the first faulty
// one has, and the loops speak of that alone.

ghost use Rattle.std.specs.Prelude.{◌≡◌, ◌+◌, ◌<◌, ◌^◌, ◌++◌, ◌∷◌, [], ℕ, List, length, OnOk, IfErr};
ghost use Rattle.csv.specs.Records.{fields_of};
ghost use Rattle.ssb_records.specs.Giving.{given_since};
ghost use Rattle.ssb_records.specs.Intake.{AreGood, Judge, Refuses, Stops};
ghost use Rattle.ssb_records.specs.CutShort.{IfRead};
ghost use Rattle.ssb_records.specs.Records.{Fields, records_of};

use crate::bars::bar_reader;
use crate::fault::LoadFault;
use crate::pieces::Pieces;
use crate::source::Source;
use csv::ByteRecord;
use std::alloc::Global;
use std::io::Read;

/// What takes records one by one: a table on its way, or a catalog.
pub trait Intake {
    /// What the records may be taken for.
    ghost Subject: { Type 0 };

    /// What these records are taken for.
    ghost subject: { Self → Subject };

    /// What records are judged by that are taken for this.
    ghost judge: { Subject → Judge };

    /// It took these records, and they are good.
    ghost stands: { Self → List Fields → Type 0 };

    /// Takes one more record.
    ///
    /// # Errors
    ///
    /// The fault of the record, behind those that were taken; `Memory` where a growth was refused.
    fn take(&mut self, row: &ByteRecord) -> Result<(), LoadFault>
        requires { (good : List Fields) × stands self.old good }
        ensures subject { subject self.new ≡ subject self.old }
        ensures taken { OnOk result ((good : List Fields) → stands self.old good → stands self.new (good ++ fields_of row.now ∷ [])) }
        ensures refused { IfErr result (λ e. (good rest : List Fields) → stands self.old good → Refuses (judge (subject self.old)) (good ++ fields_of row.now ∷ rest) e) };

    /// How many records it took.
    fn accepted(&self) -> u64
        requires { (good : List Fields) × stands self.now good }
        ensures count { (good : List Fields) → stands self.now good → result ≡ length good }
        ensures room { result + 1 < 2 ^ 64 };

    /// What it took is good.
    ghost good: { (t : Self) (records : List Fields) → stands t records → AreGood (judge (subject t)) records };
}

/// Takes the records of a text, with these bytes before it.
///
/// # Errors
///
/// That of the first record which is not taken; `Memory` where a growth was refused.
pub fn take_text<T: Intake>(
    alloc: Global,
    before: &[u8],
    text: &[u8],
    row: &mut ByteRecord,
    intake: &mut T,
) -> Result<(), LoadFault>
    requires { (good : List Fields) × T.stands intake.old good }
    ensures subject { T.subject intake.new ≡ T.subject intake.old }
    ensures taken { OnOk result ((good : List Fields) → T.stands intake.old good → T.stands intake.new (good ++ records_of (before.now ++ text.now))) }
    ensures refused { IfErr result (λ e. (good rest : List Fields) → T.stands intake.old good → Refuses (T.judge (T.subject intake.old)) (good ++ (records_of (before.now ++ text.now) ++ rest)) e) }
{
    let mut reader = bar_reader(alloc, before.chain(text));
    for _ in 0..u64::MAX {
        match reader.read_byte_record(row) {
            Ok(true) => {}
            Ok(false) => return Ok(()),
            // A slice has no read that fails, so this is memory.
            Err(_) => return Err(LoadFault::Memory),
        }
        intake.take(row)?;
    }
    // No text has as many records.
    Err(LoadFault::Memory)
}

/// Takes all records of what a source gives from now on, in pieces of this size where no line is
/// longer.
///
/// # Errors
///
/// That of the first record which is not taken; `Read` where a read of the source failed, with a number
/// one above that of the records taken; `Memory` where a growth was refused.
pub fn take_all<S: Source, T: Intake>(
    alloc: Global,
    source: &mut S,
    size: usize,
    intake: &mut T,
) -> Result<(), LoadFault>
    requires { T.stands intake.old [] }
    ensures grows { S.given source.new ≡ S.given source.old ++ given_since (S.given source.old) (S.given source.new) }
    ensures whole { S.whole source.new ≡ S.whole source.old }
    ensures subject { T.subject intake.new ≡ T.subject intake.old }
    ensures taken { OnOk result (T.stands intake.new (records_of (given_since (S.given source.old) (S.given source.new)))) }
    ensures ended { OnOk result (S.ends source.old < S.ends source.new) }
    ensures stops { IfErr result (Stops S.given S.whole (T.judge (T.subject intake.old)) source.old source.new) }
    ensures broken { IfErr result (λ e. IfRead e (λ n. S.failures source.old < S.failures source.new)) }
{
    let mut pieces = Pieces::new(alloc, source, size);
    let mut row = ByteRecord::new(alloc);
    let mut before: &[u8] = b"";
    for _ in 0..u64::MAX {
        match pieces.fill(source) {
            Ok(true) => {}
            Ok(false) if pieces.has_failed() => {
                return Err(LoadFault::Read(intake.accepted() + 1));
            }
            Ok(false) => return Ok(()),
            Err(_) => return Err(LoadFault::Memory),
        }
        take_text(alloc, before, pieces.piece(), &mut row, intake)?;
        // An empty line is no record, and `csv` looks for a byte order mark at the head alone.
        before = b"\n";
    }
    // No source gives as many pieces.
    Err(LoadFault::Memory)
}

// What a thread reads of a source that may begin and end in the middle of a line.

ghost use Rattle.std.specs.Prelude.{◌≡◌, ◌≤◌, ◌<◌, ◌++◌, [], List, ℕ, true, IfErr, IfNone, IfOk, IfSome, OnOk};
ghost use Rattle.ssb_records.specs.Lines.{AreLines, EndsInLf, IsPartOfLine};
ghost use Rattle.ssb_records.specs.declared.fault.LoadFault.TheVariants as load;

use csv::ByteRecord;
use memchr::memchr;
use ssb_load::TableIntake;
use ssb_records::{LoadFault, Pieces, Source, split_lines, take_text};
use ssb_terms::Rule;
use std::alloc::{AllocError, Global};

const LF: u8 = b'\n';

// Bytes up to their first line feed, the rows of the whole lines behind it, and what is behind the last
// line feed. The head and the tail are parts of lines that other sources begin and end.
#[derive(Drop)]
pub(crate) struct Part {
    pub head: Vec<u8>,
    // Whether a line feed has come.
    pub is_cut: bool,
    pub rows: TableIntake,
    pub tail: Vec<u8>,
}

// Bytes up to their first LF, and those behind it, where there is one.
fn split_first_line(bytes: &[u8]) -> Option<(&[u8], &[u8])>
    ensures split { IfSome result (λ p. bytes.now ≡ p.0.now ++ p.1.now) }
    ensures line { IfSome result (λ p. EndsInLf p.0.now) }
    ensures none { IfNone result (IsPartOfLine bytes.now) }
{
    match memchr(LF, bytes) {
        Some(at) => Some(bytes.split_at(at + 1)),
        None => None,
    }
}

// Puts bytes behind others.
pub(crate) fn keep(buffer: &mut Vec<u8>, bytes: &[u8]) -> Result<(), LoadFault>
    ensures kept { OnOk result (buffer.new.items ≡ buffer.old.items ++ bytes.now) }
    ensures memory { IfErr result (λ e. e ≡ load.Memory) }
{
    match buffer.extend_from_slice(bytes) {
        Ok(()) => Ok(()),
        Err(_) => Err(LoadFault::Memory),
    }
}

impl Part {
    ghost use Rattle.ssb_records.specs.CutShort.{IfRead};
    ghost use Rattle.ssb_records.specs.Giving.{given_since};
    ghost use Rattle.ssb_load.specs.Subject.{table};
    ghost use Rattle.ssb_lanes.specs.Part.{HaltsAt, IsAtLine, IsPart, RefusesPart};
    ghost use Rattle.ssb_load.specs.TableIntake.{subject_of};

    // Of no byte yet.
    pub(crate) fn new(alloc: Global, rules: &[Rule], max_rows: u32) -> Result<Part, AllocError>
        ensures subject { IfOk result (λ p. subject_of p.rows ≡ table rules.now max_rows) }
        ensures part { IfOk result (λ p. IsPart p []) }
        ensures tail { IfOk result (λ p. p.tail.items ≡ []) }
    {
        Ok(Part {
            head: Vec::new(alloc),
            is_cut: false,
            rows: TableIntake::under(alloc, rules, max_rows)?,
            tail: Vec::new(alloc),
        })
    }

    // Takes the records of some lines, and keeps what is behind the last line feed.
    fn take_lines(
        &mut self,
        alloc: Global,
        text: &[u8],
        row: &mut ByteRecord,
    ) -> Result<(), LoadFault>
        requires cut { self.old.is_cut ≡ true }
        requires line { IsAtLine self.old }
        ensures subject { subject_of self.new.rows ≡ subject_of self.old.rows }
        ensures taken { OnOk result ((done : List ℕ) → IsPart self.old done → IsPart self.new (done ++ text.now)) }
        ensures lines { OnOk result (AreLines text.now → self.new.tail.items ≡ []) }
        ensures refused { IfErr result (λ e. (done : List ℕ) → IsPart self.old done → RefusesPart self.new (done ++ text.now) e) }
    {
        let (lines, rest) = split_lines(text);
        take_text(alloc, b"\n", lines, row, &mut self.rows)?;
        keep(&mut self.tail, rest)
    }

    // Takes one more piece of a source.
    fn take_piece(
        &mut self,
        alloc: Global,
        piece: &[u8],
        row: &mut ByteRecord,
    ) -> Result<(), LoadFault>
        requires { IsAtLine self.old }
        ensures subject { subject_of self.new.rows ≡ subject_of self.old.rows }
        ensures taken { OnOk result ((done : List ℕ) → IsPart self.old done → IsPart self.new (done ++ piece.now)) }
        ensures lines { OnOk result (EndsInLf piece.now → self.new.tail.items ≡ []) }
        ensures refused { IfErr result (λ e. (done : List ℕ) → IsPart self.old done → RefusesPart self.new (done ++ piece.now) e) }
    {
        if self.is_cut {
            return self.take_lines(alloc, piece, row);
        }
        let Some((front, rest)) = split_first_line(piece) else {
            return keep(&mut self.head, piece);
        };
        keep(&mut self.head, front)?;
        self.is_cut = true;
        self.take_lines(alloc, rest, row)
    }

    // Reads a source from now on to its end, in pieces of this size where no line is longer. Of a read
    // that failed the number stays open: it is told by who knows how many records come before.
    pub(crate) fn read<S: Source>(
        &mut self,
        alloc: Global,
        source: &mut S,
        size: usize,
    ) -> Result<(), LoadFault>
        requires part { IsPart self.old [] }
        requires tail { self.old.tail.items ≡ [] }
        ensures grows { S.given source.new ≡ S.given source.old ++ given_since (S.given source.old) (S.given source.new) }
        ensures whole { S.whole source.new ≡ S.whole source.old }
        ensures subject { subject_of self.new.rows ≡ subject_of self.old.rows }
        ensures taken { OnOk result (IsPart self.new (given_since (S.given source.old) (S.given source.new))) }
        ensures ended { OnOk result (S.ends source.old < S.ends source.new) }
        ensures forth { S.failures source.old ≤ S.failures source.new }
        ensures halts { IfErr result (HaltsAt self.new (given_since (S.given source.old) (S.given source.new))) }
        ensures broken { IfErr result (λ e. IfRead e (λ n. S.failures source.old < S.failures source.new)) }
    {
        let mut pieces = Pieces::new(alloc, source, size);
        let mut row = ByteRecord::new(alloc);
        for _ in 0..u64::MAX {
            match pieces.fill(source) {
                Ok(true) => {}
                Ok(false) if pieces.has_failed() => return Err(LoadFault::Read(0)),
                Ok(false) => return Ok(()),
                Err(_) => return Err(LoadFault::Memory),
            }
            self.take_piece(alloc, pieces.piece(), &mut row)?;
        }
        // No source gives as many pieces.
        Err(LoadFault::Memory)
    }
}

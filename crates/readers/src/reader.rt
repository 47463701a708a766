// A borrowed record and the place of a walk over it, held together. A reader's functions take it apart and leave the work to `walk`.
ghost use Rattle.std.specs.Prelude.{◌≡◌, Ok};
ghost use Rattle.octets.specs.Answers.{Answered, answer_number};
ghost use Rattle.records.specs.Record.{record_answer};
ghost use Rattle.records.specs.Walk.{step_of, StepFrom, Exact, open_of};
ghost use Rattle.readers.specs.Count.{count_of};

use octets::Refusal;
use records::walk::{Cursor, Field};
use tables::table::MAX_KEYS;

// The most fields that a record has: one for each key of its template.
const MAX_FIELDS: usize = MAX_KEYS as usize;

// The record, and where the walk over it stands: at a cursor, or refused when it was opened.
#[derive(Clone, Copy, Debug, PartialEq, Eq)]
pub struct Reader<'a, E = Refusal> {
    pub record: &'a [u8],
    pub place: Result<Cursor, E>,
}

impl<'a> Reader<'a> {
    // A reader of a record under the template with an ID, at the record's start or refused: 21, 15 or 16.
    pub fn open(t: &[u8], id: u16, record: &'a [u8]) -> Reader<'a>
        ensures { (result.«record» ≡ «record».entry)
            × Answered answer_number result.place (open_of t.now id «record».now)
            (record_answer t.now id «record».now) }
    {
        let place = records::walk::open_walk(t, id, record);
        Reader { record, place }
    }
}

impl<'a, E: Copy> Reader<'a, E> {
    // The field where the reader stands and the cursor after it, none at the end, or a refusal; that of the opening where it was refused.
    pub fn step(self, t: &[u8], id: u16) -> Result<Option<(Field, Cursor)>, E>
    where
        E: From<Refusal>,
        ensures { StepFrom E.from_gives t.now id self.entry.«record».now self.entry.place result
            × Exact t.now self.entry.«record».now result }
    {
        records::walk::step_from(t, id, self.record, self.place)
    }

    // Where the reader stands.
    pub fn place(self) -> Result<Cursor, E>
        ensures { result ≡ self.entry.place }
    {
        self.place
    }

    // The record that the reader holds.
    pub fn record(self) -> &'a [u8]
        ensures { result ≡ self.entry.«record» }
    {
        self.record
    }

    // A reader of the same record, at a cursor.
    pub fn moved(self, c: Cursor) -> Reader<'a, E>
        ensures { (result.«record» ≡ self.entry.«record») × (result.place ≡ Ok c) }
    {
        Reader {
            record: self.record,
            place: Ok(c),
        }
    }
}

// Where a reader that is opened stands.
fn opening(t: &[u8], id: u16, r: &[u8]) -> Result<Cursor, Refusal>
    ensures { result ≡ open_of t.now id r.now }
{
    Reader::open(t, id, r).place()
}

// The step of a reader at a cursor.
fn step_at(t: &[u8], id: u16, r: &[u8], c: Cursor) -> Result<Option<(Field, Cursor)>, Refusal>
    ensures { result ≡ step_of t.now id r.now c }
{
    let reader: Reader = Reader {
        record: r,
        place: Ok(c),
    };
    reader.step(t, id)
}

// How many fields a record has under the template with an ID; 21, 15 or 16 as for opening.
pub fn count_fields(t: &[u8], id: u16, r: &[u8]) -> Result<usize, Refusal>
    ensures { Answered answer_number result (count_of t.now id r.now)
        (record_answer t.now id r.now) }
{
    let mut c = opening(t, id, r)?;
    for n in 0..MAX_FIELDS {
        match step_at(t, id, r, c)? {
            Some((_, next)) => c = next,
            None => return Ok(n),
        }
    }
    Ok(MAX_FIELDS)
}

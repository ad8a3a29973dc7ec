//! The Notes that readers are due.
#![tactic(auto)]

ghost use Rattle.std.specs.Prelude.{◌≡◌, ◌∷◌, ◌++◌, true, not, map, IfOk, OnOk, OnErr, IsErr, IsTrue, ℕ};
ghost use Rattle.std.specs.List.{list_any};
ghost use Rattle.std.specs.Option.{option_to_list};
ghost use Rattle.std.specs.Bool.{then_some};
ghost use Rattle.morty_base.specs.Names.{before, same_wid};
ghost use Rattle.msg.specs.declared.Body.TheVariants.{Note};
ghost use Rattle.msg.specs.declared.Envelope.{Envelope as EnvelopeValue};
ghost use Rattle.protocol.specs.declared.First2.{First2 as FirstValue};
ghost use Rattle.protocol.specs.Replica.Held.{held, latest};
ghost use Rattle.protocol.specs.Replica.Taken.{Handled, dropped};
ghost use Rattle.protocol.specs.Replica.Readers.{due, note_for, same_held};
ghost use Rattle.mv_index.specs.ReaderList.{reader_of};
ghost use Rattle.mv_index.specs.Records.{StandsFor, WereTold, IsTold, is_broken, readers_of};
ghost use Rattle.miss_notice.specs.Notes.{notes_by, notes_at};
ghost use Rattle.miss_notice.specs.Marks.{mark_in, marked_by, AreLeft};
ghost use Rattle.miss_notice.specs.Envelope2.{sent_by};

use morty_base::{Key, List, NoMemory, Version, Wid, is_same_wid};
use msg::Body;
use mv_index::{Reader, Records};
use protocol::Held;
use std::alloc::Global;

/// What goes to a client.
#[derive(Debug, Drop)]
pub struct Envelope2 {
    pub client: u32,
    pub body: Body,
}

/// What the reader of a key at a version is told.
#[derive(Clone, Copy)]
struct Mark {
    key: Key,
    ver: Version,
    held: Held,
}

/// The same write, value and certainty.
fn is_same_held(a: Held, b: Held) -> bool
    ensures { result ≡ same_held a b }
{
    is_same_wid(a.wid, b.wid) && (a.value == b.value && a.sure == b.sure)
}

/// The name of a write that is held no longer.
fn gone(rec: &Records, key: Key, wid: Wid) -> Option<Wid>
    ensures { (firsts : List FirstValue) (h : Handled) → StandsFor firsts h rec.now → result ≡ then_some (not (list_any (λ a. same_wid wid a.wid) (held firsts h key))) wid }
{
    if rec.holds(key, wid) { None } else { Some(wid) }
}

fn note_body(ver: Version, key: Key, seen: Held, gone: Option<Wid>) -> Body
    ensures { result ≡ Note ver key seen.wid seen.value seen.sure gone }
{
    Body::Note {
        ver,
        key,
        wid: seen.wid,
        value: seen.value,
        sure: seen.sure,
        gone,
    }
}

/// The Note of a reader that was told something, if what it sees is not that.
fn changed(rec: &Records, reader: Reader, told: Held) -> Option<Envelope2>
    ensures { (firsts : List FirstValue) (h h' : Handled) (number : ℕ) → StandsFor firsts h' rec.now → told ≡ latest firsts h reader.key reader.ver → before (dropped h') reader.ver ≡ true → map (sent_by number) (option_to_list result) ≡ note_for firsts h h' number (reader_of reader) }
{
    let seen = rec.latest_below(reader.key, reader.ver);
    if is_same_held(told, seen) {
        return None;
    }
    let gone = gone(rec, reader.key, told.wid);
    Some(Envelope2 {
        client: reader.ver.client,
        body: note_body(reader.ver, reader.key, seen, gone),
    })
}

/// The Note of one reader, if what it sees is not what it was told.
fn note(rec: &Records, reader: Reader) -> Option<Envelope2>
    ensures { (firsts : List FirstValue) (h h' : Handled) (number : ℕ) → StandsFor firsts h' rec.now → IsTold firsts h reader → before (dropped h') reader.ver ≡ true → map (sent_by number) (option_to_list result) ≡ note_for firsts h h' number (reader_of reader) }
{
    match reader.told {
        None => None,
        Some(told) => changed(rec, reader, told),
    }
}

/// Adds a Note at the end, if there is one.
fn push_some(out: &mut List<Envelope2>, note: Option<Envelope2>) -> Result<(), NoMemory>
    ensures { OnOk result (out.new ≡ out.old ++ option_to_list note) }
{
    match note {
        None => Ok(()),
        Some(note) => out.push(note),
    }
}

/// The Notes of the readers of one key. Readers below what changed are due none.
fn notes_of(rec: &Records, key: Key, out: &mut List<Envelope2>) -> Result<(), NoMemory>
    ensures { (firsts : List FirstValue) (h h' : Handled) (number : ℕ) → StandsFor firsts h' rec.now → WereTold firsts h rec.now → OnOk result (map (sent_by number) out.new ≡ map (sent_by number) out.old ++ notes_at (notes_by firsts h h' number) rec.now.readers.readers.items key) }
{
    for reader in rec.due_readers(key) {
        push_some(out, note(rec, *reader))?;
    }
    Ok(())
}

/// The Notes of the readers of the listed keys.
fn notes(alloc: Global, rec: &Records) -> Result<List<Envelope2>, NoMemory>
    ensures { (firsts : List FirstValue) (h : Handled) (m : EnvelopeValue) (number : ℕ) → StandsFor firsts (m ∷ h) rec.now → WereTold firsts h rec.now → IfOk result (λ l. map (sent_by number) l ≡ due firsts number h (m ∷ h)) }
{
    let mut out = List::new(alloc);
    for i in 0..rec.touched_count() {
        notes_of(rec, rec.touched_key(i), &mut out)?;
    }
    Ok(out)
}

fn held_of(wid: Wid, value: i64, sure: bool) -> Held
    ensures { result ≡ record { wid = wid; value = value; sure = sure } }
{
    Held { wid, value, sure }
}

/// What a Note tells its reader.
fn mark_of(body: &Body) -> Option<Mark>
    ensures { result ≡ mark_in body.now }
{
    match body {
        Body::Note {
            ver,
            key,
            wid,
            value,
            sure,
            gone: _,
        } => Some(Mark {
            key: *key,
            ver: *ver,
            held: held_of(*wid, *value, *sure),
        }),
        _ => None,
    }
}

/// The reader that a Note goes to was told what the Note tells.
fn tell(rec: &mut Records, mark: Option<Mark>)
    ensures stands { (firsts : List FirstValue) (h : Handled) → StandsFor firsts h rec.old → StandsFor firsts h rec.new }
    ensures marks { (firsts : List FirstValue) (h : Handled) → StandsFor firsts h rec.old → readers_of rec.new ≡ map (marked_by mark) (readers_of rec.old) }
{
    match mark {
        None => {}
        Some(mark) => rec.mark(mark.key, mark.ver, mark.held),
    }
}

/// Each reader that a Note goes to was told what the Note tells.
fn tell_all(rec: &mut Records, notes: &[Envelope2])
    ensures stands { (firsts : List FirstValue) (h : Handled) → StandsFor firsts h rec.old → StandsFor firsts h rec.new }
    ensures told { (firsts : List FirstValue) (h : Handled) → StandsFor firsts h rec.old → AreLeft firsts h notes.now (readers_of rec.old) → WereTold firsts h rec.new }
{
    for note in notes {
        tell(rec, mark_of(&note.body));
    }
}

/// The Notes that are due, once the records stand for one envelope more than the readers were told of. All Notes come
/// first, then all marks: a refusal leaves the records as they were.
pub fn due_notes(alloc: Global, rec: &mut Records) -> Result<List<Envelope2>, NoMemory>
    ensures kept { OnErr result (rec.new ≡ rec.old) }
    ensures due { (firsts : List FirstValue) (h : Handled) (m : EnvelopeValue) (number : ℕ) → StandsFor firsts (m ∷ h) rec.old → WereTold firsts h rec.old → IfOk result (λ l. map (sent_by number) l ≡ due firsts number h (m ∷ h)) }
    ensures told { (firsts : List FirstValue) (h : Handled) (m : EnvelopeValue) → StandsFor firsts (m ∷ h) rec.old → WereTold firsts h rec.old → OnOk result (StandsFor firsts (m ∷ h) rec.new × WereTold firsts (m ∷ h) rec.new) }
    ensures broken { IsTrue (is_broken rec.old) → IsErr result }
{
    if rec.is_broken() {
        return Err(NoMemory);
    }
    let out = notes(alloc, rec)?;
    tell_all(rec, out.as_slice());
    rec.settle();
    Ok(out)
}

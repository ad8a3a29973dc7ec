//! Frames, read and written, and the mail that keeps them.

ghost use Rattle.wire.specs.Sendable.{MaySend};

use crate::checks::{MEMORY, is_equal, is_so};
use crate::rows::{FAULTS, ROWS, Row};
use crate::sample::{CLIENT1, E10, REPLICA1, X};
use msg::{Body, Envelope, Vote};
use net_core::Mail;
use std::alloc::Global;
use std::process::Abort;
use wire::{FrameFault, decode, encode};

// The bytes whose hexadecimal digits these are, in groups.
fn bytes_of(rt: &impl Abort, alloc: Global, groups: &str) -> Vec<u8> {
    let mut bytes = Vec::new(alloc);
    for group in groups.split_whitespace() {
        let part = hex::decode(alloc, group).expect(rt, "digits");
        bytes.extend_from_slice(part.as_slice()).expect(rt, MEMORY);
    }
    bytes
}

fn has_fault(rt: &impl Abort, alloc: Global, bytes: &[u8], want: FrameFault, told: &str) {
    let fault = decode(alloc, bytes).err();
    is_equal(rt, &fault, &Some(want), told);
}

// A copy is shown as the row says.
fn is_told(rt: &impl Abort, alloc: Global, envelope: &Envelope, row: &Row) {
    let copy = envelope.copy(alloc).expect(rt, MEMORY);
    let told = format!(in alloc; "{copy:?}").expect(rt, MEMORY);
    is_equal(rt, &told.as_str(), &row.told, row.hex);
}

// The frame is that of the row, and takes so many bytes.
fn is_framed(rt: &impl Abort, alloc: Global, envelope: &Envelope, len: usize, row: &Row)
    requires { MaySend envelope.now }
{
    let frame = encode(alloc, envelope).expect(rt, MEMORY);
    let bytes = bytes_of(rt, alloc, row.hex);
    is_equal(rt, &frame.as_slice(), &bytes.as_slice(), row.told);
    is_equal(rt, &frame.len(), &len, row.told);
}

// The row's envelope and nothing of what follows it is read.
fn read(rt: &impl Abort, alloc: Global, bytes: &[u8], len: usize, row: &Row) -> Envelope
    ensures { MaySend result }
{
    let (envelope, taken) = decode(alloc, bytes).expect(rt, row.told);
    is_equal(rt, &taken, &len, row.told);
    is_told(rt, alloc, &envelope, row);
    is_framed(rt, alloc, &envelope, len, row);
    envelope
}

// Each proper prefix is short.
fn is_short_before(rt: &impl Abort, alloc: Global, bytes: &[u8], told: &str) {
    for len in 0..bytes.len() {
        has_fault(rt, alloc, &bytes[..len], FrameFault::Short, told);
    }
}

// Its bytes alone are read, and then with one more.
fn read_each_way(rt: &impl Abort, alloc: Global, row: &Row) -> Envelope
    ensures { MaySend result }
{
    let mut bytes = bytes_of(rt, alloc, row.hex);
    let len = bytes.len();
    is_short_before(rt, alloc, bytes.as_slice(), row.told);
    let _ = read(rt, alloc, bytes.as_slice(), len, row);
    bytes.push(255).expect(rt, MEMORY);
    read(rt, alloc, bytes.as_slice(), len, row)
}

// A mail in which the envelope of each row was sent.
fn sent_rows(rt: &impl Abort, alloc: Global) -> Mail {
    let mut mail = Mail::new(alloc).expect(rt, MEMORY);
    for (i, row) in ROWS.iter().enumerate() {
        let envelope = read_each_way(rt, alloc, row);
        let number = mail.send(&envelope).expect(rt, MEMORY);
        is_equal(rt, &number, &(i as u64), row.told);
    }
    mail
}

// The envelope of this number, as it is shown.
fn told_at(rt: &impl Abort, alloc: Global, mail: &Mail, number: u64) -> Option<String> {
    match mail.get(number).expect(rt, MEMORY) {
        None => None,
        Some(envelope) => Some(format!(in alloc; "{envelope:?}").expect(rt, MEMORY)),
    }
}

fn is_kept(rt: &impl Abort, alloc: Global, mail: &Mail, number: u64, row: &Row) {
    let bytes = bytes_of(rt, alloc, row.hex);
    is_equal(rt, &mail.frame(number), &Some(bytes.as_slice()), row.told);
    let told = told_at(rt, alloc, mail, number).expect(rt, "it was sent");
    is_equal(rt, &told.as_str(), &row.told, row.hex);
}

fn is_past(rt: &impl Abort, alloc: Global, mail: &Mail, number: u64) {
    let told = told_at(rt, alloc, mail, number);
    is_so(
        rt,
        told.is_none() && mail.frame(number).is_none(),
        "there are no more",
    );
}

fn are_kept(rt: &impl Abort, alloc: Global, mail: &Mail) {
    for (i, row) in ROWS.iter().enumerate() {
        is_kept(rt, alloc, mail, i as u64, row);
    }
}

#[test]
fn a_mail_keeps_each_frame_that_is_read(rt: HostRuntime) {
    let mail = sent_rows(&rt, rt.alloc());
    are_kept(&rt, rt.alloc(), &mail);
    is_equal(&rt, &mail.sent(), &24, "sent");
    is_past(&rt, rt.alloc(), &mail, 24);
    is_past(&rt, rt.alloc(), &mail, u64::MAX);
}

#[test]
fn the_first_bad_field_decides(rt: HostRuntime) {
    for (groups, want) in &FAULTS {
        let bytes = bytes_of(&rt, rt.alloc(), groups);
        has_fault(&rt, rt.alloc(), bytes.as_slice(), *want, groups);
    }
}

// Client 1 reads x[1] of replica 1.
fn get() -> Envelope
    ensures { MaySend result }
{
    Envelope {
        from: CLIENT1,
        to: REPLICA1,
        body: Body::Get { exec: E10, key: X },
    }
}

// Replica 1 votes for it.
fn vote() -> Envelope
    ensures { MaySend result }
{
    Envelope {
        from: REPLICA1,
        to: CLIENT1,
        body: Body::Vote {
            exec: E10,
            vote: Vote::Commit,
        },
    }
}

fn is_made(rt: &impl Abort, alloc: Global, envelope: Envelope, len: usize, row: Option<&Row>)
    requires { MaySend envelope }
{
    is_framed(rt, alloc, &envelope, len, row.expect(rt, "a row"));
}

#[test]
fn envelopes_have_the_frames_of_their_rows(rt: HostRuntime) {
    is_made(&rt, rt.alloc(), get(), 32, ROWS.get(0));
    is_made(&rt, rt.alloc(), vote(), 23, ROWS.get(6));
}

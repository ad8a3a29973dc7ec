ghost use Rattle.std.specs.Prelude.{◌≡◌, ◌<◌, ◌≤◌, ◌↔◌, IsTrue, IfSome, IfOk};
ghost use Rattle.std.specs.List.{list_all};
ghost use Rattle.morty_base.specs.ScriptNames.{is_digit};
ghost use Rattle.std.specs.List.{position};
ghost use Rattle.script_cli.specs.Words.{is_decimal, number_said, is_byte, item_said, items_said, serial_if, serial_of, seeded_of, workers_said, workers_of, run_of, alone, generating, summing, command_but_run, command_of, several_of, wants_workers, IsInRange, IsSeeded, reads, runs};
ghost use Rattle.serial_ref.specs.SerialItem.{DifferInVersion};

use lab::{GREATEST_SEED, MOST_GENERATED};
use morty_base::{List, NoMemory, Version, is_digit};
use serial_ref::{SerialItem, in_order, is_rising};
use std::alloc::Global;
use txn_text::number;

/// Of which draws a script is generated, and how many transactions it has.
#[derive(Clone, Copy, Debug, PartialEq, Eq)]
pub struct Seeded {
    pub seed: u64,
    pub size: u32,
}

/// What a call of the program is asked for.
#[derive(Debug, Drop)]
pub enum Command {
    /// The report of the run, by so many workers, of the script that is read.
    Run(u32),
    /// The serial run of these transactions of the script that is read; without any, of all of them at their first tries.
    Serial(List<SerialItem>),
    /// The canonical text of the script that is read, or its fault.
    Check,
    /// The trace of the run of the script that is read.
    Trace,
    /// A generated script.
    Gen(Seeded),
    /// The summary of the run of a generated script.
    Big(Seeded),
}

impl Command {
    /// Whether it runs its script.
    pub fn runs(&self) -> bool
        ensures { result ≡ runs self.now }
    {
        match self {
            Command::Run(_) | Command::Trace | Command::Big(_) => true,
            Command::Serial(_) | Command::Check | Command::Gen(_) => false,
        }
    }
}

fn all_digits(word: &[u8]) -> bool
    ensures { result ≡ list_all is_digit word.now }
{
    word.iter().all(|byte| is_digit(*byte))
}

/// Whether the word is digits, at least one.
#[tactic(auto, using(crate::proofs::WordsLemmas::decimal_where, crate::proofs::WordsLemmas::no_digits))]
fn is_decimal(word: &[u8]) -> bool
    ensures { result ≡ is_decimal word.now }
{
    word.len() > 0 && all_digits(word)
}

/// The number that a word says in decimal digits, from the least to the most.
fn number_said(least: u64, most: u64, word: &[u8]) -> Option<u64>
    requires { most ≤ GREATEST_SEED }
    ensures { result ≡ number_said least most word.now }
{
    if !is_decimal(word) {
        return None;
    }
    match number(word) {
        Some(n) => {
            if least <= n && n <= most {
                Some(n)
            } else {
                None
            }
        }
        None => None,
    }
}

/// The greatest number of a client or of a transaction in a word.
const GREATEST_NUMBER: u64 = u32::MAX as u64;

/// The place of the first such byte.
fn place_of(byte: u8, word: &[u8]) -> Option<usize>
    ensures { result ≡ position (is_byte byte) word.now }
{
    word.iter().position(|b| *b == byte)
}

/// The transaction and the version that a word `TS.C:N` says.
fn item_said(word: &[u8]) -> Option<SerialItem>
    ensures { result ≡ item_said word.now }
{
    let dot = place_of(b'.', word)?;
    let rest = &word[dot + 1..];
    let colon = place_of(b':', rest)?;
    let ts = number_said(1, GREATEST_SEED, &word[..dot])?;
    let client = number_said(1, GREATEST_NUMBER, &rest[..colon])? as u32;
    let txn = number_said(1, GREATEST_NUMBER, &rest[colon + 1..])? as u32;
    let ver = Version { ts, client };
    Some(SerialItem { ver, client, txn })
}

/// The transactions that all words say, where each says one.
fn items_said(alloc: Global, words: &[List<u8>]) -> Result<Option<List<SerialItem>>, NoMemory>
    ensures { IfOk result (λ items. items ≡ items_said words.now) }
{
    let mut items = List::new(alloc);
    for word in words {
        let Some(item) = item_said(word.as_slice()) else {
            return Ok(None);
        };
        items.push(item)?;
    }
    Ok(Some(items))
}

/// Whether no two items have one version.
fn differ(alloc: Global, items: &[SerialItem]) -> Result<bool, NoMemory>
    ensures { IfOk result (λ b. IsTrue b ↔ DifferInVersion items.now) }
{
    let sorted = in_order(List::from_slice(alloc, items)?)?;
    Ok(is_rising(sorted.as_slice()))
}

/// A serial run, where all words say transactions at versions that differ.
fn serial_of(alloc: Global, rest: &[List<u8>]) -> Result<Option<Command>, NoMemory>
    ensures command { IfOk result (λ c. c ≡ serial_of rest.now) }
    ensures in_range { IfOk result (λ c. IfSome c IsInRange) }
{
    let Some(items) = items_said(alloc, rest)? else {
        return Ok(None);
    };
    if differ(alloc, items.as_slice())? {
        Ok(Some(Command::Serial(items)))
    } else {
        Ok(None)
    }
}

/// The seed and the size that two words say.
fn seeded_of(rest: &[List<u8>]) -> Option<Seeded>
    ensures says { result ≡ seeded_of rest.now }
    ensures in_range { IfSome result IsSeeded }
{
    let [seed, size] = rest else {
        return None;
    };
    let seed = number_said(0, GREATEST_SEED, seed.as_slice())?;
    let size = number_said(1, u64::from(MOST_GENERATED), size.as_slice())?;
    Some(Seeded {
        seed,
        size: size as u32,
    })
}

/// How many workers a word asks for: one digit, from 1 to 8.
fn workers_said(word: &[u8]) -> Option<u32>
    ensures said { result ≡ workers_said word.now }
    ensures few { IfSome result (λ n. (1 ≤ n) × (n ≤ 8)) }
{
    match word {
        [digit] => {
            if b'1' <= *digit && *digit <= b'8' {
                Some(u32::from(*digit - b'0'))
            } else {
                None
            }
        }
        _ => None,
    }
}

/// How many workers the words behind `run` ask for: one, where there are none.
fn workers_of(rest: &[List<u8>]) -> Option<u32>
    ensures said { result ≡ workers_of rest.now }
    ensures few { IfSome result (λ n. (1 ≤ n) × (n ≤ 8)) }
{
    match rest {
        [] => Some(1),
        [word] => {
            let count = word.as_slice().strip_prefix(b"--workers=".as_slice())?;
            workers_said(count)
        }
        [word, count] => {
            if word.as_slice() == b"--workers".as_slice() {
                workers_said(count.as_slice())
            } else {
                None
            }
        }
        _ => None,
    }
}

fn run_of(rest: &[List<u8>]) -> Option<Command>
    ensures { result ≡ run_of rest.now }
{
    let workers = workers_of(rest)?;
    Some(Command::Run(workers))
}

/// The command, where no word stands behind it.
fn alone(command: Command, rest: &[List<u8>]) -> Option<Command>
    ensures { result ≡ alone command rest.now }
{
    match rest.split_first() {
        Some(_) => None,
        None => Some(command),
    }
}

/// Generating, where a seed and a size were said.
fn generating(seeded: Option<Seeded>) -> Option<Command>
    ensures { result ≡ generating seeded }
{
    match seeded {
        Some(seeded) => Some(Command::Gen(seeded)),
        None => None,
    }
}

/// Summing up, where a seed and a size were said.
fn summing(seeded: Option<Seeded>) -> Option<Command>
    ensures { result ≡ summing seeded }
{
    match seeded {
        Some(seeded) => Some(Command::Big(seeded)),
        None => None,
    }
}

// The command of another first word than `run`.
fn command_but_run(
    alloc: Global,
    word: &[u8],
    rest: &[List<u8>],
) -> Result<Option<Command>, NoMemory>
    ensures command { IfOk result (λ c. c ≡ command_but_run word.now rest.now) }
    ensures in_range { IfOk result (λ c. IfSome c IsInRange) }
{
    if word == b"serial".as_slice() {
        serial_of(alloc, rest)
    } else if word == b"check".as_slice() {
        Ok(alone(Command::Check, rest))
    } else if word == b"trace".as_slice() {
        Ok(alone(Command::Trace, rest))
    } else if word == b"gen".as_slice() {
        Ok(generating(seeded_of(rest)))
    } else if word == b"big".as_slice() {
        Ok(summing(seeded_of(rest)))
    } else {
        Ok(None)
    }
}

/// The command that the words are, if they are one.
pub fn read_words(alloc: Global, words: &[List<u8>]) -> Result<Option<Command>, NoMemory>
    ensures command { IfOk result (λ c. c ≡ command_of words.now) }
    ensures in_range { IfOk result (λ c. IfSome c IsInRange) }
{
    let Some((word, rest)) = words.split_first() else {
        return Ok(None);
    };
    if word.as_slice() == b"run".as_slice() {
        Ok(run_of(rest))
    } else {
        command_but_run(alloc, word.as_slice(), rest)
    }
}

/// How many workers the words ask for, where these are several.
pub(crate) fn several_workers(words: &[List<u8>]) -> Option<u32>
    ensures said { result ≡ several_of words.now }
    ensures several { IfSome result (λ n. (1 < n) × (n ≤ 8)) }
{
    let (word, rest) = words.split_first()?;
    if word.as_slice() != b"run".as_slice() {
        return None;
    }
    let workers = workers_of(rest)?;
    if workers > 1 { Some(workers) } else { None }
}

/// Whether the words ask for several workers: true exactly for `run` with 2 to 8 of them.
pub fn wants_workers(words: &[List<u8>]) -> bool
    ensures { result ≡ wants_workers words.now }
{
    several_workers(words).is_some()
}

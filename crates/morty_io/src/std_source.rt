ghost use Rattle.std.specs.Prelude.{◌≡◌, ◌<◌, ◌≤◌, [], length, take, drop, IfOk, IfSome, OnOk, OnErr};
ghost use Rattle.morty_io.specs.Faults.{Rose, one_more};
ghost use Rattle.morty_io.specs.Bytes.{Gives, untold};

use crate::copy::copy_front;
use crate::traits::{Failed, Source};
use std::io::Read;
use std::marker::Model;

/// How many bytes are asked of a reader at a time.
const CHUNK: usize = 4096;

/// A reader of the system, of which contracts see the count of its errors. Which bytes come is trusted.
#[derive(Drop)]
pub struct StdSource<R> {
    reader: R,
    faults: u64,
}

impl<R> Model for StdSource<R> {
    ghost use Rattle.std.specs.Prelude.{ℕ};

    ghost Value = { ℕ };

    ghost view = { λ s. s.faults };
}

impl<R: Read> StdSource<R> {
    pub fn new(reader: R) -> StdSource<R>
        ensures { result ≡ 0 }
    {
        StdSource { reader, faults: 0 }
    }
}

impl<R: Read> Source for StdSource<R> {
    ghost left = { λ _. untold };

    ghost faults = { λ s. s };

    fn read(&mut self, buf: &mut [u8]) -> Result<usize, Failed>
        ensures ok { OnOk result (self.new ≡ self.old) }
        ensures err { OnErr result (self.new ≡ one_more self.old) }

        // What each source promises.
        ensures bound { IfOk result (λ n. n ≤ length buf.old) }
        ensures moved { IfOk result (λ n. Gives untold untold (take n buf.new)) }
        ensures end { IfOk result (λ n. n ≡ 0 → 0 < length buf.old → IfSome untold (λ rest. rest ≡ [])) }
        ensures behind { IfOk result (λ n. drop n buf.new ≡ drop n buf.old) }
        ensures failed { OnErr result (Rose self.old self.new) }
        ensures kept { OnErr result (untold ≡ untold) }
        ensures untouched { OnErr result (buf.new ≡ buf.old) }
        ensures counted { self.old ≤ self.new }
    {
        let mut own = [0u8; CHUNK];
        let room = buf.len().min(CHUNK);
        match self.reader.read(&mut own[..room]) {
            Ok(n) => Ok(copy_front(&own[..n], buf)),
            Err(_) => {
                self.faults = self.faults.saturating_add(1);
                Err(Failed)
            }
        }
    }
}

ghost use Rattle.std.specs.Prelude.{◌≤◌};

use anyhow::{Context, Result, bail};
use std::alloc::Global;

/// What `\+` stands for: the least configuration that is accepted.
const LEAST: &[u8] = b"tier roundrobin\nbackend-server uri=ldap://127.0.0.1\n";

/// What the next character is.
#[derive(Clone, Copy, Drop)]
enum Next {
    Plain,
    /// Behind a backslash.
    Named,
    /// The first digit of an octet.
    HighDigit,
    /// Its second digit.
    LowDigit(u8),
    /// Behind the digits of a count.
    Count(u32),
}

/// A stretch that is repeated, and where it begins.
#[derive(Clone, Copy, Drop)]
struct Stretch {
    times: u32,
    from: usize,
}

/// The octets of what was read so far.
#[derive(Drop)]
struct Decoder {
    octets: Vec<u8>,
    next: Next,
    stretch: Option<Stretch>,
}

impl Decoder {
    fn take(&mut self, byte: u8) -> Result<()> {
        match self.next {
            Next::Plain => self.take_plain(byte),
            Next::Named => self.take_name(byte),
            Next::HighDigit => {
                self.next = Next::LowDigit(digit(byte, 16)?);
                Ok(())
            }
            Next::LowDigit(high) => self.push(high.wrapping_mul(16) | digit(byte, 16)?),
            Next::Count(times) => self.take_count(times, byte),
        }
    }

    fn take_plain(&mut self, byte: u8) -> Result<()> {
        match (byte, self.stretch) {
            (b'\\', _) => {
                self.next = Next::Named;
                Ok(())
            }
            (b'}', Some(stretch)) => self.repeat(stretch),
            _ => self.push(byte),
        }
    }

    fn take_name(&mut self, byte: u8) -> Result<()> {
        match byte {
            b'n' => self.push(b'\n'),
            b't' => self.push(b'\t'),
            b'r' => self.push(b'\r'),
            b'\\' => self.push(b'\\'),
            b'x' => {
                self.next = Next::HighDigit;
                Ok(())
            }
            b'+' => {
                self.octets.extend_from_slice(LEAST)?;
                self.next = Next::Plain;
                Ok(())
            }
            _ => self.take_count(0, byte),
        }
    }

    fn take_count(&mut self, times: u32, byte: u8) -> Result<()> {
        if byte == b'{' {
            let from = self.octets.len();
            self.stretch = Some(Stretch { times, from });
            self.next = Next::Plain;
        } else {
            let more = digit(byte, 10)?;
            self.next = Next::Count(times.saturating_mul(10).saturating_add(more as u32));
        }
        Ok(())
    }

    fn push(&mut self, byte: u8) -> Result<()> {
        self.octets.push(byte)?;
        self.next = Next::Plain;
        Ok(())
    }

    /// Ends a stretch, which stands once already.
    fn repeat(&mut self, stretch: Stretch) -> Result<()> {
        let alloc = *self.octets.allocator();
        let piece = self
            .octets
            .as_slice()
            .get(stretch.from..)
            .context("a stretch that begins behind its end")?
            .to_vec(alloc)?;
        for _ in 1..stretch.times {
            self.octets.extend_from_slice(piece.as_slice())?;
        }
        self.stretch = None;
        Ok(())
    }
}

/// The value of a digit.
fn digit(byte: u8, base: u32) -> Result<u8>
    requires least { 2 ≤ base }
    requires most { base ≤ 36 }
{
    let value = char::from(byte).to_digit(base).context("no digit")?;
    Ok(u8::try_from(value)?)
}

/// The octets that a column of a row stands for.
pub fn decoded(alloc: Global, column: &str) -> Result<Vec<u8>> {
    let mut decoder = Decoder {
        octets: Vec::new(alloc),
        next: Next::Plain,
        stretch: None,
    };
    for byte in column.bytes() {
        decoder.take(byte)?;
    }
    if decoder.stretch.is_some() || !matches!(&decoder.next, Next::Plain) {
        bail!("a column that ends too early");
    }
    let Decoder { octets, .. } = decoder;
    Ok(octets)
}

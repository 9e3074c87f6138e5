// BYTES and BYTE of a script: hex digits, and runs of one byte.
ghost use Rattle.std.specs.Prelude.{◌↔◌, IsTrue, IfSome, IfNone, SomeIff};
ghost use Rattle.script.specs.Digits.{byte_of, IsPair, ArePairs};
ghost use Rattle.script.specs.Laid.{Spells};

use crate::word;

// Bytes as a word spells them.
#[derive(Clone, Copy)]
pub enum Bytes<'a> {
    // One byte so many times, as `BBxCOUNT` spells it.
    Run { byte: u8, count: usize },
    // The two digits of each byte.
    Digits(&'a [u8]),
}

// A word that is one byte.
pub fn one(word: &[u8]) -> Option<u8>
    ensures { SomeIff result (IsPair word.now) (byte_of word.now) }
{
    let [high, low] = word else {
        return None;
    };
    let high = char::from(*high).to_digit(16)?;
    let low = char::from(*low).to_digit(16)?;
    Some((high * 16 + low) as u8)
}

// Whether a word is pairs of hex digits and nothing else.
fn are_pairs(word: &[u8]) -> bool
    ensures { IsTrue result ↔ ArePairs word.now }
{
    word.len() % 2 == 0 && word.iter().all(|digit| digit.is_ascii_hexdigit())
}

// The bytes that a word spells, if it spells bytes.
pub fn bytes_of<'a>(word: &'a [u8]) -> Option<Bytes<'a>>
    ensures value { IfSome result (Spells word.now) }
    ensures none { IfNone result ((bytes : Bytes) → ¬ Spells word.now bytes) }
{
    match word {
        b"-" => Some(Bytes::Digits(b"")),
        [high, low, b'x', count @ ..] => Some(Bytes::Run {
            byte: one(&[*high, *low])?,
            count: word::number(count)?,
        }),
        [] => None,
        _ => are_pairs(word).then_some(Bytes::Digits(word)),
    }
}

impl<'a> Bytes<'a> {
    ghost use Rattle.std.specs.Prelude.{◌≡◌};
    ghost use Rattle.script.specs.Laid.{count_of, Lays};

    // How many bytes they are.
    pub fn count(&self) -> usize
        ensures { result ≡ count_of self.now }
    {
        match self {
            Bytes::Run { count, .. } => *count,
            Bytes::Digits(digits) => digits.len() / 2,
        }
    }

    // Puts them into a slice of so many.
    pub fn lay(&self, out: &mut [u8])
        ensures { Lays self.now out.old out.new }
    {
        match self {
            Bytes::Run { byte, .. } => out.fill(*byte),
            Bytes::Digits(digits) => {
                // By place and not by `zip`, of which no promise says what was written.
                for place in 0..out.len().min(digits.len() / 2) {
                    let pair = &digits[place * 2..place * 2 + 2];
                    out[place] = one(pair).unwrap_or(0);
                }
            }
        }
    }
}

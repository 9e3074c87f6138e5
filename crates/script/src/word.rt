// Words of a line, which is split at each space, and the numbers that they are.
ghost use Rattle.std.specs.Prelude.{◌≡◌, ◌≢◌, ℕ, ◌+◌, ◌≤◌, ◌<◌, ◌^◌, length, slice_index, [], map, All, ◌⊎◌, IfSome, IfNone, SomeIff};
ghost use Rattle.std.specs.List.{slice_split, Contains};
ghost use Rattle.script.specs.Spaces.{is_space};
ghost use Rattle.script.specs.Within.{Within};
ghost use Rattle.script.specs.Digits.{spelled, IsNumber};

use arrayvec::ArrayVec;

// The most words that a command has.
pub const MOST: usize = 7;

// Where the word ends that starts at a place: at the next space, or at the line's end.
fn end_of(line: &[u8], from: usize) -> usize
    requires { from ≤ length line.now }
    ensures within { (from ≤ result) × (result ≤ length line.now) }
    ensures at_space { result < length line.now → slice_index line.now result ≡ 32 }
    ensures first { (k : ℕ) → from + k < result → slice_index line.now (from + k) ≢ 32 }
{
    match line[from..].iter().position(|byte| *byte == b' ') {
        Some(at) => from + at,
        None => line.len(),
    }
}

// The words of a line, if there is room for so many, and none of them is empty.
pub fn words_of<'a, const ROOM: usize>(line: &'a [u8]) -> Option<ArrayVec<&'a [u8], ROOM>>
    ensures split { IfSome result (λ words. map (λ word. word.now) words.items ≡ slice_split is_space line.now) }
    ensures none { IfNone result (Contains (slice_split is_space line.now) [] ⊎ (ROOM < length (slice_split is_space line.now))) }
    ensures not_empty { IfSome result (λ words. All (λ word. 0 < length word.now) words.items) }
{
    let mut words = ArrayVec::new();
    let mut from = 0;
    // By hand and not by `split`, since what `end_of` promises stays.
    while from <= line.len() {
        let to = end_of(line, from);
        if to == from {
            return None;
        }
        words.try_push(&line[from..to]).ok()?;
        from = to + 1;
    }
    Some(words)
}

// A decimal number of at most so much.
pub fn number_of(word: &[u8], most: u64) -> Option<u64>
    ensures within { Within most result }
    ensures value { SomeIff result (IsNumber word.now × (spelled word.now ≤ most)) (spelled word.now) }
{
    if word.is_empty() {
        return None;
    }
    let mut value: u64 = 0;
    for byte in word {
        let next = u64::from(char::from(*byte).to_digit(10)?);
        if most < next {
            return None;
        }
        if (most - next) / 10 < value {
            return None;
        }
        value = value * 10 + next;
    }
    Some(value)
}

// The number of that type that a word is, if it is one.
pub fn number<T: TryFrom<u64>>(word: &[u8]) -> Option<T>
where
    T::Error: Drop,
    ensures value { IfSome result (λ value. IsNumber word.now × T.try_from_gives (spelled word.now) (Ok value)) }
    ensures none { IfNone result (IsNumber word.now → spelled word.now < 2 ^ 64 → (error : T.Error) × T.try_from_gives (spelled word.now) (Err error)) }
{
    T::try_from(number_of(word, u64::MAX)?).ok()
}

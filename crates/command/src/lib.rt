// Commands of a script: what a line asks for. A command is told by its words.
#![tactic(auto)]

use script::bytes::Bytes;
use script::{bytes, word};

// A write's arguments.
#[derive(Clone, Copy)]
pub struct WriteCall<'a> {
    pub node: u32,
    pub handle: u32,
    pub offset: u32,
    pub bytes: Bytes<'a>,
}

// A fill's arguments. The bytes stand at the buffer's front, and are at most as many as it has.
#[derive(Clone, Copy)]
pub struct FillCall<'a> {
    pub pin: u64,
    pub node: u32,
    pub offset: u32,
    pub length: usize,
    pub fetched: usize,
    pub bytes: Bytes<'a>,
}

// A call of the library.
#[derive(Clone, Copy)]
pub enum Call<'a> {
    Make { length: usize },
    Reopen,
    Write(WriteCall<'a>),
    Pin { node: u32 },
    Unpin { number: u64 },
    Fill(FillCall<'a>),
    End { node: u32 },
    Flush { node: u32, length: usize },
    Report { number: u64, good: bool },
    Ticket,
    Ask { number: u64, node: u32 },
    Turn,
}

// The bytes that a look is at.
#[derive(Clone, Copy)]
pub enum Store {
    Ring,
    Buffer,
}

// A look at what the script works on.
#[derive(Clone, Copy)]
pub enum Look {
    Part { of: Store, from: usize, to: usize },
    Sum { of: Store },
    State,
    Show,
}

// A number of the state, set to a value.
#[derive(Clone, Copy)]
pub enum Setting {
    Next(u64),
    Flush(u64),
    Count(usize),
    Number {
        place: usize,
        value: u64,
    },
    Phase {
        place: usize,
        value: u8,
    },
    Pin {
        place: usize,
        number: u64,
        mark: u64,
        node: u32,
    },
}

#[derive(Clone, Copy)]
pub enum Command<'a> {
    Call(Call<'a>),
    Look(Look),
    Poke { place: usize, byte: u8 },
    Set(Setting),
}

// The words behind `write`.
fn write_of<'a>(words: &[&'a [u8]]) -> Option<WriteCall<'a>> {
    let [node, handle, offset, bytes] = words else {
        return None;
    };
    Some(WriteCall {
        node: word::number(node)?,
        handle: word::number(handle)?,
        offset: word::number(offset)?,
        bytes: bytes::bytes_of(bytes)?,
    })
}

// The words behind `fill`.
fn fill_of<'a>(words: &[&'a [u8]]) -> Option<FillCall<'a>> {
    let [pin, node, offset, length, fetched, bytes] = words else {
        return None;
    };
    let length = word::number(length)?;
    let bytes = bytes::bytes_of(bytes)?;
    if length < bytes.count() {
        return None;
    }
    Some(FillCall {
        pin: word::number(pin)?,
        node: word::number(node)?,
        offset: word::number(offset)?,
        length,
        fetched: word::number(fetched)?,
        bytes,
    })
}

// The words behind `report`.
fn report_of<'a>(words: &[&'a [u8]]) -> Option<Call<'a>> {
    let (number, good) = match words {
        [number, b"good"] => (number, true),
        [number, b"bad"] => (number, false),
        _ => return None,
    };
    Some(Call::Report {
        number: word::number(number)?,
        good,
    })
}

fn call_of<'a>(words: &[&'a [u8]]) -> Option<Call<'a>> {
    let call = match words {
        [b"make", length] => Call::Make {
            length: word::number(length)?,
        },
        [b"reopen"] => Call::Reopen,
        [b"write", rest @ ..] => Call::Write(write_of(rest)?),
        [b"pin", node] => Call::Pin {
            node: word::number(node)?,
        },
        [b"unpin", number] => Call::Unpin {
            number: word::number(number)?,
        },
        [b"fill", rest @ ..] => Call::Fill(fill_of(rest)?),
        [b"end", node] => Call::End {
            node: word::number(node)?,
        },
        [b"flush", node, length] => Call::Flush {
            node: word::number(node)?,
            length: word::number(length)?,
        },
        [b"report", rest @ ..] => report_of(rest)?,
        [b"ticket"] => Call::Ticket,
        [b"ask", number, node] => Call::Ask {
            number: word::number(number)?,
            node: word::number(node)?,
        },
        [b"turn"] => Call::Turn,
        _ => return None,
    };
    Some(call)
}

fn store_of(word: &[u8]) -> Option<Store> {
    match word {
        b"ring" => Some(Store::Ring),
        b"buffer" => Some(Store::Buffer),
        _ => None,
    }
}

fn look_of(words: &[&[u8]]) -> Option<Look> {
    let look = match words {
        [b"state"] => Look::State,
        [b"show"] => Look::Show,
        [b"sum", of] => Look::Sum { of: store_of(of)? },
        [of, from, to] => Look::Part {
            of: store_of(of)?,
            from: word::number(from)?,
            to: word::number(to)?,
        },
        _ => return None,
    };
    Some(look)
}

// The words behind `set`.
fn setting_of(words: &[&[u8]]) -> Option<Setting> {
    let setting = match words {
        [b"next", value] => Setting::Next(word::number(value)?),
        [b"flush", value] => Setting::Flush(word::number(value)?),
        [b"count", value] => Setting::Count(word::number(value)?),
        [b"number", place, value] => Setting::Number {
            place: word::number(place)?,
            value: word::number(value)?,
        },
        [b"phase", place, value] => Setting::Phase {
            place: word::number(place)?,
            value: word::number(value)?,
        },
        [b"pin", place, number, mark, node] => Setting::Pin {
            place: word::number(place)?,
            number: word::number(number)?,
            mark: word::number(mark)?,
            node: word::number(node)?,
        },
        _ => return None,
    };
    Some(setting)
}

// What a line asks for, if it is a command.
pub fn command_of<'a>(line: &'a [u8]) -> Option<Command<'a>> {
    let words = word::words_of::<{ word::MOST }>(line)?;
    let command = match words.as_slice() {
        [b"poke", place, byte] => Command::Poke {
            place: word::number(place)?,
            byte: bytes::one(byte)?,
        },
        [b"set", rest @ ..] => Command::Set(setting_of(rest)?),
        words => match look_of(words) {
            Some(look) => Command::Look(look),
            None => Command::Call(call_of(words)?),
        },
    };
    Some(command)
}

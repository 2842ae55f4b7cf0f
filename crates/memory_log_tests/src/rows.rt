// Tables of rows, one for each line: a call or a question, in words separated by one space, then ` => ` and the expected answer, mostly as
// its `Debug` text. The elements of a list are separated by commas, lists of lists by semicolons, and `-` is an empty list.
use std::fmt::Debug;

fn numbers_of(rt: &HostRuntime, word: &str) -> Option<Vec<u64>> {
    let mut numbers = Vec::new(rt.alloc());
    if word == "-" {
        return Some(numbers);
    }
    for number in word.split(',') {
        numbers.push(number.parse::<u64>().ok()?).ok()?;
    }
    Some(numbers)
}

fn bytes_of(rt: &HostRuntime, word: &str) -> Option<Vec<u8>> {
    let mut bytes = Vec::new(rt.alloc());
    if word == "-" {
        return Some(bytes);
    }
    for byte in word.split(',') {
        bytes.push(byte.parse::<u8>().ok()?).ok()?;
    }
    Some(bytes)
}

fn all_bytes_of(rt: &HostRuntime, words: &str) -> Option<Vec<Vec<u8>>> {
    let mut all = Vec::new(rt.alloc());
    if words == "-" {
        return Some(all);
    }
    for word in words.split(';') {
        all.push(bytes_of(rt, word)?).ok()?;
    }
    Some(all)
}

// The unread part of a row, and its expected answer. A row with a word that cannot be read is wrong, for any answer.
#[derive(Clone, Copy)]
pub(crate) struct Row<'a> {
    rest: &'a str,
    answer: &'a str,
    is_bad: bool,
}

impl<'a> Row<'a> {
    pub(crate) fn new(line: &'a str) -> Row<'a> {
        let parts = line.split_once(" => ");
        let (rest, answer) = parts.unwrap_or(("", ""));
        Row {
            rest,
            answer,
            is_bad: parts.is_none(),
        }
    }

    pub(crate) fn is_bad(&self) -> bool {
        self.is_bad
    }

    // Returns the whole unread part before the answer.
    pub(crate) fn rest(&self) -> &'a str {
        self.rest
    }

    pub(crate) fn answer(&self) -> &'a str {
        self.answer
    }

    pub(crate) fn word(&mut self) -> &'a str {
        let (word, rest) = self.rest.split_once(' ').unwrap_or((self.rest, ""));
        self.rest = rest;
        word
    }

    // Returns the value, if the word was read. Otherwise the row is marked as bad.
    fn read<T: Drop>(&mut self, read: Option<T>, other: T) -> T {
        self.is_bad = self.is_bad || read.is_none();
        read.unwrap_or(other)
    }

    pub(crate) fn number(&mut self) -> u64 {
        let number = self.word().parse::<u64>().ok();
        self.read(number, 0)
    }

    pub(crate) fn short(&mut self) -> u16 {
        let number = self.word().parse::<u16>().ok();
        self.read(number, 0)
    }

    pub(crate) fn numbers(&mut self, rt: &HostRuntime) -> Vec<u64> {
        let numbers = numbers_of(rt, self.word());
        self.read(numbers, Vec::new(rt.alloc()))
    }

    pub(crate) fn bytes(&mut self, rt: &HostRuntime) -> Vec<u8> {
        let bytes = bytes_of(rt, self.word());
        self.read(bytes, Vec::new(rt.alloc()))
    }

    pub(crate) fn byte_strings(&mut self, rt: &HostRuntime) -> Vec<Vec<u8>> {
        let all = all_bytes_of(rt, self.word());
        self.read(all, Vec::new(rt.alloc()))
    }

    // Reports whether this is the row's answer.
    pub(crate) fn says<T: Debug>(&self, rt: &HostRuntime, answer: &T) -> bool {
        match format!(in rt.alloc(); "{answer:?}") {
            Ok(text) => !self.is_bad && text.as_str() == self.answer,
            Err(_) => false,
        }
    }
}

// Answers rows.
pub(crate) trait Shown {
    // Reports whether the answer is as the row says.
    fn is_right(&mut self, rt: &HostRuntime, row: Row<'_>) -> bool;
}

// Returns how many rows are right, before the first that is not.
pub(crate) fn right_rows<T: Shown>(rt: &HostRuntime, shown: &mut T, rows: &str) -> u32 {
    let mut count = 0u32;
    for line in rows.lines() {
        if !shown.is_right(rt, Row::new(line)) {
            return count;
        }
        count = count.saturating_add(1);
    }
    count
}

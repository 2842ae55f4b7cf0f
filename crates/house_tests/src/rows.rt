// Rows of text, one for each line: a call, ` -> `, and its expected result. A row that cannot be read, or that has a word too few or too
// many, is wrong, so its test fails.
use ct_codec::{Refusal, Submission, identity};
use ct_core::{Query, Reply, ShownEntry};
use ct_tree::Head;
use std::alloc::Global;
use std::process::Abort;

// The result of a call: a ticket, a count or a size, or the refusal.
pub(crate) type Answer = Result<u64, Refusal>;

// The words of a text, separated by one space each.
#[derive(Drop)]
pub(crate) struct Words<'a> {
    rest: &'a str,
    // Whether a word was missing, or could not be read as the expected kind.
    is_bad: bool,
}

impl<'a> Words<'a> {
    pub(crate) fn of(text: &'a str) -> Words<'a> {
        Words {
            rest: text,
            is_bad: false,
        }
    }

    // Returns the next word, or the empty word after the last one.
    pub(crate) fn word(&mut self) -> &'a str {
        let (word, rest) = self.rest.split_once(' ').unwrap_or((self.rest, ""));
        self.rest = rest;
        word
    }

    pub(crate) fn number(&mut self) -> u64 {
        let number = self.word().parse::<u64>();
        self.is_bad = self.is_bad || number.is_err();
        number.unwrap_or(0)
    }

    // Reads the number of one of two fronts.
    pub(crate) fn front(&mut self) -> u16 {
        let word = self.word();
        self.is_bad = self.is_bad || (word != "0" && word != "1");
        u16::from(word == "1")
    }

    // Reads two hexadecimal digits.
    pub(crate) fn byte(&mut self) -> u8 {
        let byte = match self.word().as_bytes() {
            [high, low] => byte_of(*high, *low),
            _ => None,
        };
        self.is_bad = self.is_bad || byte.is_none();
        byte.unwrap_or(0)
    }

    // Reads 64 hexadecimal digits.
    pub(crate) fn hash(&mut self) -> [u8; 32] {
        let mut hash = [0; 32];
        let mut digits = self.word().as_bytes();
        for byte in &mut hash {
            let (value, rest) = first_byte(digits);
            self.is_bad = self.is_bad || value.is_none();
            *byte = value.unwrap_or(0);
            digits = rest;
        }
        self.is_bad = self.is_bad || !digits.is_empty();
        hash
    }

    pub(crate) fn head(&mut self) -> Head {
        let tree_size = self.number();
        let timestamp = self.number();
        let root = self.hash();
        Head {
            tree_size,
            timestamp,
            root,
        }
    }

    pub(crate) fn query(&mut self) -> Query {
        match self.word() {
            "consistency" => Query::Consistency {
                first: self.number(),
                second: self.number(),
            },
            "proof-by-hash" => Query::ProofByHash {
                hash: self.hash(),
                tree_size: self.number(),
            },
            "entries" => Query::Entries {
                start: self.number(),
                end: self.number(),
            },
            word => {
                self.is_bad = self.is_bad || word != "sth";
                Query::GetSth
            }
        }
    }

    // Reports whether all words were read, each as the expected kind.
    pub(crate) fn are_read(&self) -> bool {
        self.rest.is_empty() && !self.is_bad
    }

    // Reports whether these hashes come next.
    fn have_path(&mut self, path: &[[u8; 32]]) -> bool {
        for hash in path {
            if self.hash() != *hash {
                return false;
            }
        }
        true
    }

    // Reports whether the number of the entries comes next and, if there is another word, the leaf of the last one.
    fn have_entries(&mut self, entries: &[ShownEntry]) -> bool {
        let count = self.number();
        if self.rest.is_empty() {
            return count == entries.len() as u64;
        }
        match entries.last() {
            Some(entry) => count == entries.len() as u64 && is_hex(self.word(), &entry.leaf_input),
            None => false,
        }
    }
}

// Returns the byte of two hexadecimal digits.
fn byte_of(high: u8, low: u8) -> Option<u8> {
    let high = char::from(high).to_digit(16)?;
    let low = char::from(low).to_digit(16)?;
    u8::try_from(16 * high + low).ok()
}

// Returns the byte of the first two digits, and the other digits.
fn first_byte(digits: &[u8]) -> (Option<u8>, &[u8]) {
    match digits {
        [high, low, rest @ ..] => (byte_of(*high, *low), rest),
        _ => (None, digits),
    }
}

// Reports whether the word is the hexadecimal text of the bytes.
pub(crate) fn is_hex(word: &str, bytes: &[u8]) -> bool {
    let mut digits = word.as_bytes();
    for byte in bytes {
        let (value, rest) = first_byte(digits);
        if value != Some(*byte) {
            return false;
        }
        digits = rest;
    }
    digits.is_empty()
}

// Returns the refusal with this name.
fn refusal_of(name: &str) -> Option<Refusal> {
    match name {
        "Full" => Some(Refusal::Full),
        "Shutdown" => Some(Refusal::Shutdown),
        "ClockBack" => Some(Refusal::ClockBack),
        "UnknownSize" => Some(Refusal::UnknownSize),
        "BadRange" => Some(Refusal::BadRange),
        "UnknownLeaf" => Some(Refusal::UnknownLeaf),
        "MissingFront" => Some(Refusal::MissingFront),
        _ => None,
    }
}

fn is_refusal(refusal: Refusal, wanted: &str) -> bool {
    refusal_of(wanted) == Some(refusal)
}

// Reports whether the result is this number or this refusal.
pub(crate) fn is_answer(answer: Answer, wanted: &str) -> bool {
    match answer {
        Ok(number) => wanted.parse::<u64>().ok() == Some(number),
        Err(refusal) => is_refusal(refusal, wanted),
    }
}

// Reports whether this is the reply: a head's size, timestamp and root; the hashes of a proof; a leaf's index and its path; the number of
// entries; an index and a timestamp; or a refusal.
pub(crate) fn is_reply(reply: &Result<Reply, Refusal>, wanted: &str) -> bool {
    let mut words = Words::of(wanted);
    let is_right = match reply {
        Ok(Reply::Sth(head)) => words.head() == *head,
        Ok(Reply::Consistency(path)) => words.have_path(path),
        Ok(
            Reply::ProofByHash {
                leaf_index,
                audit_path,
            },
        ) => words.number() == *leaf_index && words.have_path(audit_path),
        Ok(Reply::Entries(entries)) => words.have_entries(entries),
        Ok(
            Reply::Receipt {
                leaf_index,
                timestamp,
            },
        ) => words.number() == *leaf_index && words.number() == *timestamp,
        Ok(_) => false,
        Err(refusal) => is_refusal(*refusal, words.word()),
    };
    is_right && words.are_read()
}

// Reports whether this is the submission with this identity.
pub(crate) fn is_submission(alloc: Global, submission: &Submission, wanted: &str) -> bool {
    match identity(alloc, submission) {
        Ok(bytes) => is_hex(wanted, &bytes),
        Err(_) => false,
    }
}

// Reports whether the submission is refused and comes back, given the name of the refusal and the submission's identity.
pub(crate) fn is_handed_back(
    alloc: Global,
    sent: Result<u64, (Refusal, Submission)>,
    wanted: &str,
) -> bool {
    let mut words = Words::of(wanted);
    match sent {
        Ok(_) => false,
        Err((refusal, back)) => {
            is_refusal(refusal, words.word())
                && is_submission(alloc, &back, words.word())
                && words.are_read()
        }
    }
}

// Fails the test if the row is wrong.
pub(crate) fn expect_right<R: Abort>(rt: &R, is_right: bool, row: &str) {
    assert!(rt; is_right, "{row}");
}

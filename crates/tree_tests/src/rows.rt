// Tables of rows. Each row is a line of words with one blank between them, and ends with the `Debug` text of the expected result. Hashes
// are names of the table below. Bytes are in hex, lists have commas between their elements, and `-` is an empty one.
use crate::evidence::one_byte_leaves;
use ct_tree::Head;
use std::alloc::Global;
use std::fmt::Debug;

// Hashes under SHA-256.
//
// - `L0` to `L7` are the hashes of the leaves of the Certificate Transparency reference tree (the tests of Google's reference
//   implementation): none, 00, 10, 20 21, 30 31, 40 to 43, 50 to 57, 60 to 6f.
// - `N01` is the node over leaves 0 and 1, and so on. `MTH_3` is the root of the first three leaves, and `MTH_0` that of none. The roots
//   are the published ones. Another program (Python's hashlib) computed all of these values again.
// - `A`, `AB`, `ABC`, `ABCD` and `ABCDE` are the roots of the first leaves of the tree of the leaves 41 to 45, and `B` and `C` are the
//   hashes of two of them. Python's hashlib computed these too.
// - `ALL_1100` and `ALL_3000` are the roots of the 1,100 and 3,000 leaves that are the numbers from 0 on, in four bytes each, also by
//   Python's hashlib.
// - `SESSION` is the root of the two leaves of README.md's first session, and `SESSION_0` the hash of its first leaf.
// - `STEP_01` is the node over the first two of seven leaves that are MerkleTreeLeaf structures, `STEP_2` the hash of the third one, and so
//   on. `STEP_7` is the root of all seven, `STEP_TWO` that of the first and the sixth one, and `STEP_BAD` that of the first one and the
//   byte 00. Python's hashlib computed these too.
// - The others are not hashes of anything.
const NAMED: &str = "\
L0 6e340b9cffb37a989ca544e6bb780a2c78901d3fb33738768511a30617afa01d
L1 96a296d224f285c67bee93c30f8a309157f0daa35dc5b87e410b78630a09cfc7
L2 0298d122906dcfc10892cb53a73992fc5b9f493ea4c9badb27b791b4127a7fe7
L3 07506a85fd9dd2f120eb694f86011e5bb4662e5c415a62917033d4a9624487e7
L4 bc1a0643b12e4d2d7c77918f44e0f4f79a838b6cf9ec5b5c283e1f4d88599e6b
L5 4271a26be0d8a84f0bd54c8c302e7cb3a3b5d1fa6780a40bcce2873477dab658
L6 b08693ec2e721597130641e8211e7eedccb4c26413963eee6c1e2ed16ffb1a5f
L7 46f6ffadd3d06a09ff3c5860d2755c8b9819db7df44251788c7d8e3180de8eb1
N01 fac54203e7cc696cf0dfcb42c92a1d9dbaf70ad9e621f4bd8d98662f00e3c125
N23 5f083f0a1a33ca076a95279832580db3e0ef4584bdff1f54c8a360f50de3031e
N45 0ebc5d3437fbe2db158b9f126a1d118e308181031d0a949f8dededebc558ef6a
N0123 d37ee418976dd95753c1c73862b9398fa2a2cf9b4ff0fdfe8b30cd95209614b7
N456 837dbb152e9b079010717e84e865da4ebc0fa198a806d59d31bf15accef22d0e
MTH_0 e3b0c44298fc1c149afbf4c8996fb92427ae41e4649b934ca495991b7852b855
MTH_3 aeb6bcfe274b70a14fb067a5e5578264db0fa9b51af5e0ba159158f329e06e77
MTH_5 4e3bbb1f7b478dcfe71fb631631519a3bca12c9aefca1612bfce4c13a86264d4
MTH_6 76e67dadbcdf1e10e1b74ddc608abd2f98dfb16fbce75277b5232a127f2087ef
MTH_7 ddb89be403809e325750d3d263cd78929c2942b7942a34b77e122c9594a74c8c
MTH_8 5dc9da79a70659a9ad559cb701ded9a2ab9d823aad2f4960cfe370eff4604328
A c00b4d3c929cb5cc316691ed4636f634576f2c9b2954767234c5274e9dde185d
AB ed692f01f7f6c46930d7ad8f9adad3f9f38b7379cf6a8d2f399a0ba1e914fe25
ABC 961d2e2be20f538ffdf56962a86d1bd165498f222684ee4c5e02c1e9f852adc5
ABCD 5c8dc617d287a4297eb2bcb81b37644b5138e57ad461c657db152109e3fc9fca
ABCDE 2bdbcd79bf92b8dad52ba685f01bef520f0cda04468a13a6bd27bfbeebff64d7
B 87afe6086fe4571e37657e76281301f189c75ebae1d2eaafb56d578067a1d95e
C b563a5e69628743929eddec0ccfeb0745c39577e12a72e84915edd6633cb97f2
ALL_1100 0042f3cbb00b374fbbdc5a18bafb7fb39539bdfc70fdb05e7bdaf9c0829ac7ec
ALL_3000 f9fc8dfe4d2f23f05c67608f610ba557dc4480a72be92b9c96aafbe1a74896ef
SESSION 636c30e76abe557dc6702502dff6f66dcb8e8c7a7d9466ae3d58ae204605cb29
SESSION_0 e706867067a42ed483cf26ccd4dcc35463bb635f1afee23db546b72f19f280e6
STEP_01 f18dfec2c35534060100b127afd5dc823acced4072223abd3a08572317584b5d
STEP_0123 73e735a65af593123d6b9d5d45af4e7e12bb023bd6a12c03096468d36ab13cc9
STEP_2 84b650f18448f7b546479d7a543d8a086d3c36937f6e18692b1785e95ba6236f
STEP_45 eeccb40546e029b9fc043271857b9e87bc96f52feb9e711c6619b678b9d4eff8
STEP_7 1de2d36cbbb257be5796ed7f25f3dd19053c2a7e5bfc644c6ada5b8507907be1
STEP_TWO 489cac24804a14efe5fbb883ed83a5368fc43ee5c4e34e7d516a596e85fe1831
STEP_BAD e2fc1f3153b23f873248470b972e8015b847fd2909416dd11361b09dc73b5cd8
ZEROS 0000000000000000000000000000000000000000000000000000000000000000
ONES 0101010101010101010101010101010101010101010101010101010101010101
SEVENS 0707070707070707070707070707070707070707070707070707070707070707";

fn digit(sign: u8) -> Option<u8> {
    match sign {
        b'0'..=b'9' => Some(sign - b'0'),
        b'a'..=b'f' => Some(sign - b'a' + 10),
        _ => None,
    }
}

// The byte that two digits encode.
fn byte(high: u8, low: u8) -> Option<u8> {
    let high = digit(high)?;
    Some(high.wrapping_mul(16).wrapping_add(digit(low)?))
}

// The bytes that digits encode, two for each byte.
fn bytes_of(alloc: Global, word: &str) -> Option<Vec<u8>> {
    let digits = word.as_bytes();
    let mut bytes = Vec::new(alloc);
    let mut is_read = digits.len() % 2 == 0 || word == "-";
    for place in 0..digits.len() / 2 {
        match byte(digits[2 * place], digits[2 * place + 1]) {
            Some(byte) => is_read = bytes.push(byte).is_ok() && is_read,
            None => is_read = false,
        }
    }
    if is_read { Some(bytes) } else { None }
}

// The hash that 64 digits encode.
fn hash_of(word: &str) -> Option<[u8; 32]> {
    let digits = word.as_bytes();
    if digits.len() != 64 {
        return None;
    }
    let mut hash = [0; 32];
    for place in 0..32 {
        hash[place] = byte(digits[2 * place], digits[2 * place + 1])?;
    }
    Some(hash)
}

// The hash with this name.
fn named(name: &str) -> Option<[u8; 32]> {
    for line in NAMED.lines() {
        if let Some((word, digits)) = line.split_once(' ')
            && word == name
        {
            return hash_of(digits);
        }
    }
    None
}

// The hashes with these names.
fn all_named(alloc: Global, names: &str) -> Option<Vec<[u8; 32]>> {
    let mut hashes = Vec::new(alloc);
    let mut is_read = true;
    if names == "-" {
        return Some(hashes);
    }
    for name in names.split(',') {
        match named(name) {
            Some(hash) => is_read = hashes.push(hash).is_ok() && is_read,
            None => is_read = false,
        }
    }
    if is_read { Some(hashes) } else { None }
}

// The strings that are encoded with two digits per byte, with commas between them.
fn all_bytes(alloc: Global, words: &str) -> Option<Vec<Vec<u8>>> {
    let mut all = Vec::new(alloc);
    let mut is_read = true;
    if words == "-" {
        return Some(all);
    }
    for word in words.split(',') {
        match bytes_of(alloc, word) {
            Some(bytes) => is_read = all.push(bytes).is_ok() && is_read,
            None => is_read = false,
        }
    }
    if is_read { Some(all) } else { None }
}

// The remaining words of a row. If a word of a row cannot be read, the row is wrong, whatever the result is.
#[derive(Clone, Copy)]
pub(crate) struct Row<'a> {
    rest: &'a str,
    is_bad: bool,
}

impl<'a> Row<'a> {
    pub(crate) fn new(line: &'a str) -> Row<'a> {
        Row {
            rest: line,
            is_bad: false,
        }
    }

    pub(crate) fn word(&mut self) -> &'a str {
        let (word, rest) = self.rest.split_once(' ').unwrap_or((self.rest, ""));
        self.rest = rest;
        word
    }

    // The bytes of the word itself.
    pub(crate) fn text(&mut self) -> &'a [u8] {
        match self.word() {
            "-" => b"",
            word => word.as_bytes(),
        }
    }

    // The value, if the word was read.
    fn read<T: Drop>(&mut self, read: Option<T>, other: T) -> T {
        self.is_bad = self.is_bad || read.is_none();
        read.unwrap_or(other)
    }

    pub(crate) fn number(&mut self) -> u64 {
        let number = self.word().parse::<u64>().ok();
        self.read(number, 0)
    }

    pub(crate) fn bytes(&mut self, alloc: Global) -> Vec<u8> {
        let bytes = bytes_of(alloc, self.word());
        self.read(bytes, Vec::new(alloc))
    }

    pub(crate) fn byte_strings(&mut self, alloc: Global) -> Vec<Vec<u8>> {
        let all = all_bytes(alloc, self.word());
        self.read(all, Vec::new(alloc))
    }

    pub(crate) fn hash(&mut self) -> [u8; 32] {
        let hash = named(self.word());
        self.read(hash, [0; 32])
    }

    pub(crate) fn hashes(&mut self, alloc: Global) -> Vec<[u8; 32]> {
        let hashes = all_named(alloc, self.word());
        self.read(hashes, Vec::new(alloc))
    }

    // A size, a timestamp and a root.
    pub(crate) fn head(&mut self) -> Head {
        Head {
            tree_size: self.number(),
            timestamp: self.number(),
            root: self.hash(),
        }
    }

    // A leaf of one byte for each byte of the word.
    pub(crate) fn leaves(&mut self, alloc: Global) -> Vec<Vec<u8>> {
        let leaves = one_byte_leaves(alloc, self.text()).ok();
        self.read(leaves, Vec::new(alloc))
    }

    // Reports whether the row ends with this result.
    pub(crate) fn ends_in<T: Debug>(&self, alloc: Global, answer: &T) -> bool {
        match format!(in alloc; "{answer:?}") {
            Ok(text) => !self.is_bad && text.as_str() == self.rest,
            Err(_) => false,
        }
    }
}

// An object to which rows are shown.
pub(crate) trait Shown {
    // Reports whether its result is the one that the row expects.
    fn is_right(&mut self, alloc: Global, row: Row<'_>) -> bool;
}

// The number of rows that are right, before the first that is not.
pub(crate) fn right_rows<T: Shown>(alloc: Global, shown: &mut T, rows: &str) -> u32 {
    let mut count = 0u32;
    for line in rows.lines() {
        if !shown.is_right(alloc, Row::new(line)) {
            return count;
        }
        count = count.saturating_add(1);
    }
    count
}

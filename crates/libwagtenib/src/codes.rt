//! Codes of the library's own. include/wagtenib.h has the same.

/// The call did what it is for.
pub const OK: u32 = 0;
/// The index of the leaf is not below the size of the tree.
pub const INDEX_OUT_OF_RANGE: u32 = 1;
/// The hashes lead to another root.
pub const ROOT_MISMATCH: u32 = 4;
/// Not 0 < first < second.
pub const SIZES_OUT_OF_RANGE: u32 = 7;
/// An allocation was refused. Nothing was written.
pub const OUT_OF_MEMORY: u32 = 8;
/// The caller's memory is too small for the output. Only the output's length was written.
pub const NO_ROOM: u32 = 9;
/// The origin isn't UTF-8, or has a line end. Nothing was written.
pub const BAD_ORIGIN: u32 = 10;
/// No entry has this type.
pub const BAD_ENTRY_TYPE: u32 = 20;
/// The head has fewer leaves than the last one.
pub const SIZE_FALLS: u32 = 32;
/// The head is another than the last one, and its timestamp is not later.
pub const TIMESTAMP_NOT_LATER: u32 = 33;
/// The head or the checkpoint has the size of the last one, and another root.
pub const FORK: u32 = 34;
/// The head's timestamp is too far beyond the last one's.
pub const TIMESTAMP_TOO_FAR: u32 = 35;
/// A state is not the bytes that were signed last: no TreeHeadSignature, or not the message of a cosignature.
pub const BAD_STATE: u32 = 36;
/// The state is before one that was seen.
pub const STATE_ROLLED_BACK: u32 = 37;
/// The leaf's timestamp is later than the last head's.
pub const LATER_LEAF: u32 = 38;
/// The leaf has extensions that are not only its index.
pub const OTHER_INDEX: u32 = 39;
/// The head is neither that of the empty tree nor the one that was named.
pub const NOT_FIRST: u32 = 40;
/// The partial tiles are not those of the state, or the edge is no list of contents.
pub const EDGE: u32 = 48;
/// The partial data tile is not that of the state.
pub const ENTRIES: u32 = 49;
/// The timestamp of a step is not later than that of the state.
pub const CLOCK_BACK: u32 = 50;
/// The log would have more than 2^40 leaves.
pub const LOG_FULL: u32 = 51;
/// A data tile would have 2^32 bytes or more.
pub const DATA_TILE_TOO_LONG: u32 = 52;
/// The bundle is not that of the state.
pub const BUNDLE: u32 = 53;
/// The audit path does not lead from the claimed entry to the root of the state.
pub const CLAIM: u32 = 54;
/// The bytes are no list of submissions, or not one submission.
pub const BAD_BATCH: u32 = 55;
/// The batch has more than 4,096 submissions.
pub const TOO_MANY: u32 = 56;
/// A tree without leaves has no tiles.
pub const EMPTY_TREE: u32 = 64;
/// More tiles were handed in than are needed.
pub const TOO_MANY_TILES: u32 = 65;
/// Fewer tiles were handed in than are needed.
pub const MISSING_TILE: u32 = 66;
/// A tile has not 32 bytes for each of its hashes.
pub const BAD_TILE: u32 = 67;
/// The bytes end before an element of DER is whole.
pub const DER_TRUNCATED: u32 = 80;
/// The tag of an element of DER has more than one byte.
pub const DER_LONG_TAG: u32 = 81;
/// The length of an element is indefinite, which DER does not allow.
pub const DER_INDEFINITE_LENGTH: u32 = 82;
/// The length of an element of DER has more than four bytes after the first.
pub const DER_LONG_LENGTH: u32 = 83;
/// The length of an element has more bytes than it needs, which DER does not allow.
pub const DER_PADDED_LENGTH: u32 = 84;
/// An element of DER has another tag than the field must have.
pub const DER_OTHER_TAG: u32 = 85;
/// Bytes follow the last element of DER.
pub const DER_TRAILING: u32 = 86;
/// The certificate does not have the extension.
pub const NO_EXTENSION: u32 = 87;
/// The certificate has the extension twice.
pub const SECOND_EXTENSION: u32 = 88;
/// The poison is not critical, or its value is not NULL.
pub const BAD_POISON: u32 = 89;
/// The TBSCertificate has 2^24 bytes or more.
pub const TBS_TOO_LONG: u32 = 90;
/// The extensions of a timestamp have 2^16 bytes or more.
pub const EXTENSIONS_TOO_LONG: u32 = 91;
/// The text is the checkpoint of no tree.
pub const NO_CHECKPOINT: u32 = 96;
/// The checkpoint is of another log than the state.
pub const OTHER_ORIGIN: u32 = 97;
/// The old size is above the checkpoint's.
pub const OLD_ABOVE: u32 = 98;
/// The old size is not that of the tree that was cosigned last.
pub const NOT_LAST: u32 = 99;
/// There is a proof, although both trees are the same or the last one has no leaves.
pub const PROOF_NOT_EMPTY: u32 = 100;
/// The time of a cosignature is 0, or earlier than that of the last one.
pub const TIME_FALLS: u32 = 101;
/// The number of a command is none.
pub const BAD_COMMAND: u32 = 112;
/// The number of an outcome is none.
pub const BAD_OUTCOME: u32 = 113;
/// The bytes are no lock's text.
pub const BAD_LOCK_TEXT: u32 = 114;
/// The bytes are no name of a staged batch.
pub const BAD_BATCH_NAME: u32 = 115;
/// The node must create the lock of a new log.
pub const CREATES_LOCK: u32 = 116;
/// There is no lock, and the node must not create one, or the store has objects of a log.
pub const LOCK_GONE: u32 = 117;
/// This machine saw a later head, or another one with this size and timestamp.
pub const BEHIND_SEEN: u32 = 118;
/// A later head was signed.
pub const BEHIND_SIGNED: u32 = 119;
/// Another head with this size and timestamp was signed.
pub const TWO_ROOTS: u32 = 120;
/// The store lists a head that is later than the last one that was signed.
pub const SIGNED_BEHIND_LISTED: u32 = 121;
/// The store lists a later head, or another one with this size and timestamp.
pub const BEHIND_LISTED: u32 = 122;
/// A later head is published, or another one with this size and timestamp.
pub const BEHIND_PUBLISHED: u32 = 123;
/// The verdict of a monitor: the waiting head is that of all leaves that were read.
pub const ACCEPTED: u32 = 128;
/// The waiting head has more leaves than were read.
pub const PENDING: u32 = 129;
/// The size and the root of a known head again.
pub const AGAIN: u32 = 130;
/// Fewer leaves than a known head has, and an earlier timestamp.
pub const OLDER: u32 = 131;
/// Fewer leaves than a known head has, and not an earlier timestamp.
pub const SHRUNK: u32 = 132;
/// The known head with this size has another root.
pub const FORKED: u32 = 133;
/// More leaves than a known head has, and not a later timestamp.
pub const HEAD_NOT_LATER: u32 = 134;
/// The root of the waiting head is not that of the leaves that were read.
pub const OTHER_ROOT: u32 = 135;
/// The entries do not begin where those that were read end, or no head waits, or there are no two heads that a proof could join.
pub const GAP: u32 = 136;
/// The proof leads from the accepted head to the waiting one, or from an older head to a known one.
pub const CONSISTENT: u32 = 137;
/// The proof does not lead there.
pub const INCONSISTENT: u32 = 138;
/// The length of an entry's fingerprints is no multiple of 32.
pub const PARTIAL_FINGERPRINT: u32 = 139;
/// There are not as many subtrees as a tree of the head's size has.
pub const OTHER_COUNT: u32 = 140;
/// The lengths of the entries do not add up to the length of their bytes.
pub const OTHER_LENGTHS: u32 = 141;
/// The entry is later than the head.
pub const LATER_ENTRY: u32 = 142;
/// The bytes are no list of watched names.
pub const BAD_WATCHED: u32 = 144;
/// The text is not UTF-8.
pub const NOT_UTF8: u32 = 145;
/// The name is not that of a data tile.
pub const NO_DATA_TILE: u32 = 146;
/// The data tile begins after the next entry.
pub const TILE_AFTER: u32 = 147;
/// The data tile ends before the next entry.
pub const TILE_BEFORE: u32 = 148;
/// The data tile has another number of entries than its name says.
pub const OTHER_ENTRIES: u32 = 149;
/// An entry of the data tile does not name its own index in its extensions.
pub const WRONG_INDEX: u32 = 150;
/// The range of leaves is not a subtree.
pub const NOT_A_SUBTREE: u32 = 160;
/// The subtree ends beyond the tree.
pub const BEYOND_TREE: u32 = 161;
/// The range has no leaves.
pub const EMPTY_RANGE: u32 = 162;

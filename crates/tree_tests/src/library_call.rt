// The call of the library that README.md shows.
use crate::rows::{Row, Shown, right_rows};
use ct_monitor::Auditor;
use ct_tree::{Head, Sha256Hash};
use std::alloc::Global;
use std::io;
use std::io::Write;

fn tell<W: Write>(
    output: &mut W,
    root: [u8; 32],
    leaf: &[u8],
    path: &[[u8; 32]],
) -> io::Result<()> {
    let head = Head {
        tree_size: 2,
        timestamp: 7,
        root,
    };
    match Auditor::new(Sha256Hash).check(&head, leaf, 1, path) {
        Ok(()) => writeln!(output, "the path leads from this leaf to the head's root"),
        Err(fault) => writeln!(output, "refused: {fault}"),
    }
}

#[derive(Clone, Copy)]
struct Told;

impl Shown for Told {
    // Checks a row of a root, a leaf and its path, and the text that is written about them.
    fn is_right(&mut self, alloc: Global, mut row: Row<'_>) -> bool {
        let root = row.hash();
        let leaf = row.bytes(alloc);
        let path = row.hashes(alloc);
        let mut text: Vec<u8> = Vec::new(alloc);
        let is_written = tell(&mut text, root, &leaf, &path).is_ok();
        is_written && row.ends_in(alloc, &str::from_utf8(&text))
    }
}

// The root, the second leaf and its path are those of the first session in README.md.
#[test]
fn the_call_that_the_readme_shows(rt: HostRuntime) {
    let rows = "\
SESSION 000000000000000000030000000001420000 SESSION_0 Ok(\"the path leads from this leaf to the head's root\\n\")
SESSION 000000000000000000030000000001430000 SESSION_0 Ok(\"refused: the path leads to another root than the tree head's\\n\")";
    assert!(rt; right_rows(rt.alloc(), &mut Told, rows) == 2);
}

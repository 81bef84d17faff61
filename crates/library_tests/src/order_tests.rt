//! What is printed for command lines that give no command, and their status if memory ran out.

use command_line::{Misuse, order};
use std::alloc::AllocError;
use std::test::Fail;

#[test]
fn running_out_of_memory_has_its_status(rt: HostRuntime) {
    assert!(rt; Misuse::from(AllocError).status() == 7);
}

/// The text that is printed for a command line that gives no command.
fn shown(rt: &HostRuntime, words: &[&str]) -> Result<String, Fail> {
    let misuse = order(rt.alloc(), words).err().ok_or("no order")?;
    misuse.print(rt).ok().ok_or("not printed")?;
    Ok(misuse.to_string(rt.alloc())?)
}

/// Whether a text has each of these parts.
fn has_all(text: &str, parts: &[&str]) -> bool {
    parts.iter().all(|part| text.contains(*part))
}

/// Command lines that give no command, and what is printed for each: the missing word, or each word of a command. The
/// help of `run` shows a spatial query.
const SHOWN: [(&[&str], &[&str]); 4] = [
    (&["sfq", "run", "a", "b"], &["<QUERY>"]),
    (
        &["sfq", "run", "--help"],
        &[
            "<SCHEMA> <DIR> <QUERY>",
            "t.csv for table t",
            "\n  SELECT name FROM parcel WHERE ST_Touches(geom, ST_GeomFromText('POINT(4 4)'))\n",
        ],
    ),
    (&["sfq", "check", "a"], &["<DIR>"]),
    (
        &["sfq", "check", "--help"],
        &["<SCHEMA> <DIR>\n", "how many rows each has"],
    ),
];

#[test]
fn texts_say_what_each_word_is(rt: HostRuntime) -> Result<(), Fail> {
    for (words, parts) in &SHOWN {
        assert!(rt; has_all(shown(&rt, words)?.as_str(), parts));
    }
    Ok(())
}

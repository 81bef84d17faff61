//! The words of a command line.

use command_line::{read_words, texts_of};
use std::test::Fail;

#[test]
fn words_are_read_as_texts(rt: HostRuntime) -> Result<(), Fail> {
    let words = read_words(&rt)?;
    let texts = texts_of(rt.alloc(), &words)?;
    assert!(rt; texts.len() == words.len());
    let is_same = words
        .iter()
        .zip(texts.iter())
        .all(|(word, text)| word.as_str() == *text);
    assert!(rt; is_same);
    Ok(())
}

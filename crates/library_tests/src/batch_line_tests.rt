//! Runs over pairs of geometries, pages of faults, and texts that words give.

use failures::Failure;
use std::alloc::{AllocError, Global};
use std::test::Fail;
use streams::MemorySink;
use table_model::faults::{LoadFault, QueryFault};
use text_commands::{File, Pairs, geometry_text, page_of, query_text, relate_pairs};

const SQUARE: &str = "POLYGON((0 0,4 0,4 4,0 4,0 0))";

#[test]
fn each_pair_has_a_line(rt: HostRuntime) -> Result<(), Fail> {
    let text = b"\"POLYGON((0 0,4 0,4 4,0 4,0 0))\",POINT(1 1)\nPOINT(1 1),POINT(1 1)\n".as_slice();
    let mut out = MemorySink::new(rt.alloc());
    let ended = relate_pairs(rt.alloc(), text, &mut out);
    assert!(rt; matches!(ended, Ok(Pairs::AllRelated)));
    assert!(rt; out.bytes() == b"0F2FF1FF2\n0FFFFFFF2\n".as_slice());
    Ok(())
}

/// A refused pair has its line, and the run continues. A record without two fields ends the run.
#[test]
fn refusals_are_lines(rt: HostRuntime) -> Result<(), Fail> {
    let text = b"POINT(1 1),\"LINESTRING(3 3,3 3)\"\nPOINT(1,POINT(1 1)\nPOINT(1 1)\n".as_slice();
    let mut out = MemorySink::new(rt.alloc());
    let ended = relate_pairs(rt.alloc(), text, &mut out);
    assert!(rt;
        matches!(
            ended,
            Err(Failure::Load("pairs", LoadFault::UnequalRecord(3)))
        )
    );
    assert!(rt; out.bytes() == b"second V1 0\nfirst W1 at 7\n".as_slice());
    Ok(())
}

/// Copies words.
fn words_of(alloc: Global, words: &[&str]) -> Result<Vec<String>, AllocError> {
    let mut texts = Vec::new(alloc);
    for word in words {
        texts.push(String::from_str(alloc, word)?)?;
    }
    Ok(texts)
}

/// Whether words have a page with this beginning.
fn has_page(alloc: Global, words: &[&str], begin: &str) -> Result<bool, AllocError> {
    let words = words_of(alloc, words)?;
    let page = page_of(alloc, words.as_slice())?;
    Ok(matches!(page, Some(page) if page.starts_with(begin)))
}

#[test]
fn each_code_has_its_page(rt: HostRuntime) -> Result<(), Fail> {
    assert!(rt; has_page(rt.alloc(), &["q12"], "Q12: ")?);
    assert!(rt; has_page(rt.alloc(), &["V3 0"], "V3: ")?);
    assert!(rt; has_page(rt.alloc(), &["first", "W4"], "W4: ")?);
    assert!(rt; has_page(rt.alloc(), &["sfq: parcel row 3: V3 0"], "V3: ")?);
    assert!(rt; has_page(rt.alloc(), &["t L6 record 2 V3 0"], "V3: ")?);
    assert!(rt; has_page(rt.alloc(), &["V3", "V4", ""], "V4: ")?);
    let words = words_of(rt.alloc(), &["Q13", "", "V3:"])?;
    assert!(rt; page_of(rt.alloc(), words.as_slice())?.is_none());
    Ok(())
}

#[test]
fn words_give_texts(rt: HostRuntime) -> Result<(), Fail> {
    let mut opener = |file: File<'_>| -> Option<&[u8]> {
        if file == File::Geometry("square.wkt") {
            Some(SQUARE.as_bytes())
        } else {
            None
        }
    };
    assert!(rt; geometry_text(rt.alloc(), "POINT(1 2)", "first", &mut opener).is_ok());
    assert!(rt; geometry_text(rt.alloc(), "@square.wkt", "first", &mut opener).is_ok());
    let lost = geometry_text(rt.alloc(), "@nowhere", "second", &mut opener);
    assert!(rt; matches!(lost, Err(Failure::Unreadable("second"))));
    Ok(())
}

/// The text of each query's file.
fn text_of<'t>(file: File<'_>, text: &'t [u8]) -> Option<&'t [u8]> {
    match file {
        File::Query(_) => Some(text),
        _ => None,
    }
}

#[test]
fn a_word_gives_a_query_of_the_greatest_length(rt: HostRuntime) -> Result<(), Fail> {
    let text = vec![in rt.alloc(); b' '; 65_536]?;
    let mut opener = |file: File<'_>| text_of(file, text.as_slice());
    let mut more = MemorySink::new(rt.alloc());
    assert!(rt; query_text(rt.alloc(), true, "@at.sql", &mut opener, &mut more).is_ok());
    assert!(rt; more.bytes().is_empty());
    Ok(())
}

#[test]
fn a_longer_query_is_refused(rt: HostRuntime) -> Result<(), Fail> {
    let text = vec![in rt.alloc(); b' '; 65_537]?;
    let mut opener = |file: File<'_>| text_of(file, text.as_slice());
    let mut more = MemorySink::new(rt.alloc());
    let refused = query_text(rt.alloc(), true, "@past.sql", &mut opener, &mut more);
    assert!(rt; matches!(refused, Err(Failure::Query(QueryFault::TooLong))));
    Ok(())
}

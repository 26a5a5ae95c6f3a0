//! Questions about the program, and words that aren't one.
use super::*;
use std::alloc::Global;
use std::test::Fail;

/// The words.
fn words_of(alloc: Global, words: &[&str]) -> Result<Vec<String>, Fail> {
    let mut texts = Vec::new(alloc);
    for word in words {
        texts.push(String::from_str(alloc, word)?)?;
    }
    Ok(texts)
}

#[test]
fn calls(rt: HostRuntime) -> Result<(), Fail> {
    let cases: [(&[&str], Option<Call>); 12] = [
        (&["memory"], Some(Call::Script)),
        (&["memory", "make", "1"], Some(Call::Make(1))),
        (&["memory", "make", "2000"], Some(Call::Make(2000))),
        (
            &["memory", "make", "00000000000000000007"],
            Some(Call::Make(7)),
        ),
        (&["memory", "make", "0"], None),
        (&["memory", "make", "2001"], None),
        (&["memory", "make", "000000000000000000007"], None),
        (&["memory", "make", "+7"], None),
        (&["memory", "make"], None),
        (&["memory", "made", "7"], None),
        (&["make", "7"], None),
        (&["memory", "make", "7", "7"], None),
    ];
    for (words, expected) in cases {
        let texts = words_of(rt.alloc(), words)?;
        assert_eq!(rt; call_of(&texts), expected, "{words:?}");
    }
    Ok(())
}

/// What words ask.
fn question(alloc: Global, words: &[&str]) -> Result<Option<Question>, Fail> {
    let texts = words_of(alloc, words)?;
    Ok(asked(&texts))
}

#[test]
fn questions(rt: HostRuntime) -> Result<(), Fail> {
    let cases: [(&[&str], Option<Question>); 9] = [
        (&["--help"], Some(Question::Help)),
        (&["--version"], Some(Question::Version)),
        (&[], None),
        (&["memory"], None),
        (&["--Help"], None),
        (&["-help"], None),
        (&["--help "], None),
        (&["--help", "--version"], None),
        (&["memory", "--help"], None),
    ];
    for (words, expected) in cases {
        assert_eq!(rt; question(rt.alloc(), words)?, expected, "{words:?}");
    }
    Ok(())
}

//! Samples of answers that are told by names.
use drawing::{AnswerRefusal, Fault, MOST_ANSWER_BYTES, read_answer};
use std::alloc::Global;
use std::test::Fail;

/// No place.
const NONE: u32 = u32::MAX;

// The names of some places.
fn names(heap: Global, places: &[&str]) -> Result<Vec<String>, Fail> {
    let mut names = Vec::new(heap);
    for place in places {
        names.push(String::from_str(heap, place)?)?;
    }
    Ok(names)
}

// The words that the text tells to a game with places of these names.
fn words(heap: Global, text: &str, places: &[&str]) -> Result<Vec<u32>, Fail> {
    let names = names(heap, places)?;
    Ok(read_answer(heap, text, names.as_slice())?)
}

// Why the text tells none.
fn refusal(heap: Global, text: &str, places: &[&str]) -> Result<AnswerRefusal, Fail> {
    let names = names(heap, places)?;
    match read_answer(heap, text, names.as_slice()) {
        Ok(_) => Err(Fail::new("read")),
        Err(why) => Ok(why),
    }
}

// What is said of it.
fn said(heap: Global, text: &str, places: &[&str]) -> Result<String, Fail> {
    Ok(refusal(heap, text, places)?.to_string(heap)?)
}

#[test]
fn lines_come_in_any_order(rt: HostRuntime) -> Result<(), Fail> {
    let heap = rt.alloc();
    let places = ["p0", "p1", "p2"];
    let told = words(heap, "p0 0 p1\np1 0 -\np2 1 p2\n", &places)?;
    assert_eq!(rt; told.as_slice(), [0, 1, 0, NONE, 1, 2].as_slice());
    let told = words(heap, "p2 1 p2\np1 0 -\np0 0 p1", &places)?;
    assert_eq!(rt; told.as_slice(), [0, 1, 0, NONE, 1, 2].as_slice());
    Ok(())
}

#[test]
fn lines_are_as_in_a_drawing(rt: HostRuntime) -> Result<(), Fail> {
    let heap = rt.alloc();
    let told = words(
        heap,
        "# an answer\r\n\r\n \"-\"\t1  \"a b\" # to a b\r\n\"a b\" 0 -#none\r\nup 1 \"up\"",
        &["a b", "-", "up"],
    )?;
    assert_eq!(rt; told.as_slice(), [0, NONE, 1, 0, 1, 2].as_slice());
    let told = words(heap, "", &[])?;
    assert!(rt; told.is_empty());
    Ok(())
}

#[test]
fn lines_are_of_the_form(rt: HostRuntime) -> Result<(), Fail> {
    let heap = rt.alloc();
    let faults = [
        ("a 0", Fault::Form),
        ("a", Fault::Form),
        (": 0 a", Fault::Form),
        ("a: 0 a", Fault::Form),
        ("a 0 a a", Fault::Form),
        ("a 0 - a", Fault::Form),
        ("a 2 a", Fault::Side),
        ("a \"0\" a", Fault::Side),
        ("- 0 a", Fault::Dash),
        ("a - a", Fault::Dash),
        ("a 0 -\"", Fault::Quote),
        ("a 0 \"", Fault::Quote),
        ("a 0 - \"", Fault::Quote),
        ("\"\" 0 a", Fault::EmptyName),
        ("a\u{85} 0 a", Fault::Control),
    ];
    for (text, want) in faults {
        match refusal(heap, text, &["a"])? {
            AnswerRefusal::Fault { line: 1, fault } => assert_eq!(rt; fault, want),
            _ => return Err(Fail::new("another refusal")),
        }
    }
    Ok(())
}

#[test]
fn refusals_are_told_with_their_lines(rt: HostRuntime) -> Result<(), Fail> {
    let heap = rt.alloc();
    for (text, want) in [
        (
            "a 0 b\r\nb 1\r\n",
            "line 2: not an answer's line; write NAME SIDE MOVE, and - for MOVE where there is none",
        ),
        (
            "\na 7 b",
            "line 2: the side is neither 0 nor 1; write NAME SIDE MOVE, and - for MOVE where there is none",
        ),
        (
            "a 0 \"b",
            "line 1: a quote or a backslash stands wrong; write \"NAME\", and in it \\\" and \\\\",
        ),
        (
            "a 0 b\nc 0 -\n",
            "line 2: there is no place named \"c\"; an answer names places of the game",
        ),
        (
            "# one\na 0 c\n",
            "line 2: there is no place named \"c\"; an answer names places of the game",
        ),
        (
            "a 0 b\nb 0 -\na 0 b",
            "line 3: there is a line of the place \"a\" already; each place has one line",
        ),
        (
            "a 0 b\n",
            "there is no line of the place \"b\"; each place has one line, NAME SIDE MOVE",
        ),
        (
            "",
            "there is no line of the place \"a\"; each place has one line, NAME SIDE MOVE",
        ),
    ] {
        assert_eq!(rt; said(heap, text, &["a", "b"])?.as_str(), want);
    }
    Ok(())
}

#[test]
fn names_are_those_of_a_game(rt: HostRuntime) -> Result<(), Fail> {
    let heap = rt.alloc();
    assert_eq!(rt;
        said(heap, "a 0 -\nb 0 -\n", &["a", "b", "a"])?.as_str(),
        "two places are named \"a\"; each place has a name of its own"
    );
    let mut many = Vec::new(heap);
    for i in 0..16385 {
        many.push(format!(in heap; "p{i}")?)?;
    }
    let Err(why) = read_answer(heap, "", many.as_slice()) else {
        return Err(Fail::new("read"));
    };
    assert_eq!(rt;
        why.to_string(heap)?.as_str(),
        "the game has more than 16384 places"
    );
    assert!(rt; why.line().is_none());
    Ok(())
}

#[test]
fn answers_are_short_enough(rt: HostRuntime) -> Result<(), Fail> {
    let heap = rt.alloc();
    let mut text = String::from_str(heap, "a 1 a #")?;
    for _ in 7..MOST_ANSWER_BYTES {
        text.push('#')?;
    }
    let told = words(heap, text.as_str(), &["a"])?;
    assert_eq!(rt; told.as_slice(), [1, 0].as_slice());
    text.push('#')?;
    assert_eq!(rt;
        said(heap, text.as_str(), &["a"])?.as_str(),
        "the answer is longer than 2162688 bytes"
    );
    Ok(())
}

//! Samples of solutions.
use pgsolver::{Fault, MOST_BYTES, Named, SolutionRefusal, read, read_solution};
use std::alloc::Global;
use std::test::Fail;

/// No node.
const NONE: u32 = u32::MAX;

// Nodes with these ids.
fn nodes(heap: Global, ids: &[u32]) -> Result<Vec<Named>, Fail> {
    let mut nodes = Vec::new(heap);
    for id in ids {
        nodes.push(Named {
            id: *id,
            name: Vec::new(heap),
        })?;
    }
    Ok(nodes)
}

// The words that the text tells to a game with nodes of these ids.
fn words(heap: Global, text: &[u8], ids: &[u32]) -> Result<Vec<u32>, Fail> {
    let nodes = nodes(heap, ids)?;
    match read_solution(heap, text, nodes.as_slice()) {
        Ok(words) => Ok(words),
        Err(_) => Err(Fail::new("refused")),
    }
}

// Why the text tells none.
fn refusal(heap: Global, text: &[u8], ids: &[u32]) -> Result<SolutionRefusal, Fail> {
    let nodes = nodes(heap, ids)?;
    match read_solution(heap, text, nodes.as_slice()) {
        Ok(_) => Err(Fail::new("read")),
        Err(why) => Ok(why),
    }
}

#[test]
fn nodes_come_in_any_order(rt: HostRuntime) -> Result<(), Fail> {
    let heap = rt.alloc();
    let ids = [0, 1, 2];
    let told = words(heap, b"paritysol 2;\n0 0 1;\n1 0;\n2 1 2;\n", &ids)?;
    assert_eq!(rt; told.as_slice(), [0, 1, 0, NONE, 1, 2].as_slice());
    let told = words(heap, b"2 1 2;\r\n0 0 1;\r\n1 0;", &ids)?;
    assert_eq!(rt; told.as_slice(), [0, 1, 0, NONE, 1, 2].as_slice());
    Ok(())
}

#[test]
fn blanks_and_names_are_free(rt: HostRuntime) -> Result<(), Fail> {
    let heap = rt.alloc();
    let told = words(
        heap,
        b" paritysol\t7 ; 70 1\n \"a; b\"; 4294967295\r\n0 70\"\" ; 8 0 4294967295;",
        &[4294967295, 8, 70],
    )?;
    assert_eq!(rt; told.as_slice(), [0, 2, 0, 0, 1, NONE].as_slice());
    assert!(rt; words(heap, b"", &[])?.is_empty());
    assert!(rt; words(heap, b"paritysol 0;", &[])?.is_empty());
    Ok(())
}

#[test]
fn ids_are_those_of_a_game_that_is_read(rt: HostRuntime) -> Result<(), Fail> {
    let heap = rt.alloc();
    let Ok(game) = read(heap, b"parity 7; 5 1 0 7,9 \"a\"; 7 2 1 5; 9 3 1 5,9;") else {
        return Err(Fail::new("no game"));
    };
    let Ok(told) = read_solution(
        heap,
        b"paritysol 9;\n9 1 9;\n5 0 7;\n7 0;\n",
        game.places.as_slice(),
    ) else {
        return Err(Fail::new("no solution"));
    };
    assert_eq!(rt; told.as_slice(), [0, 1, 0, NONE, 1, 2].as_slice());
    Ok(())
}

#[test]
fn solutions_are_of_the_form(rt: HostRuntime) -> Result<(), Fail> {
    let heap = rt.alloc();
    for (text, line, fault) in [
        (b"paritysol ;".as_slice(), 1, Fault::Number),
        (b"paritysol 3\n0 0;".as_slice(), 2, Fault::End),
        (b"\n0 ;".as_slice(), 2, Fault::Number),
        (b"0 2;".as_slice(), 1, Fault::Owner),
        (b"0 0 0".as_slice(), 1, Fault::End),
        (b"0 0 0,0;".as_slice(), 1, Fault::End),
        (b"0 0 -;".as_slice(), 1, Fault::End),
        (b"0 0 0 \"a;".as_slice(), 1, Fault::Quote),
        (b"0 0 4294967296;".as_slice(), 1, Fault::Large),
        (b"0 0;\r\na".as_slice(), 2, Fault::Number),
    ] {
        assert_eq!(rt;
            refusal(heap, text, &[0])?,
            SolutionRefusal::Fault { line, fault }
        );
    }
    Ok(())
}

#[test]
fn refusals_are_told_with_their_lines(rt: HostRuntime) -> Result<(), Fail> {
    let heap = rt.alloc();
    for (text, want) in [
        (
            b"paritysol 1;\n4 0 6;\n5 0;".as_slice(),
            "line 3: there is no node 5; a solution names nodes of the game",
        ),
        (
            b"4 0\n5;".as_slice(),
            "line 1: there is no node 5; a solution names nodes of the game",
        ),
        (
            b"4 0;\r\n\r\n6 0;\r\n4 1 4;\r\n".as_slice(),
            "line 4: node 4 has a winner already; each node has one",
        ),
        (
            b"4 0 4;".as_slice(),
            "node 6 has no winner; write ID WINNER MOVE; or ID WINNER; for each node",
        ),
        (
            b"".as_slice(),
            "node 4 has no winner; write ID WINNER MOVE; or ID WINNER; for each node",
        ),
        (
            b"4 ".as_slice(),
            "line 1: a number is missing; write ID WINNER MOVE; or ID WINNER;",
        ),
        (
            b"4 6;".as_slice(),
            "line 1: the winner is neither 0 nor 1; write ID WINNER MOVE; or ID WINNER;",
        ),
        (
            b"4 1 6\n6 0;".as_slice(),
            "line 2: a semicolon is missing; write ID WINNER MOVE; or ID WINNER;",
        ),
        (b"4 1 \"".as_slice(), "line 1: a name has no closing quote"),
    ] {
        let why = refusal(heap, text, &[4, 6])?;
        assert_eq!(rt; why.to_string(heap)?.as_str(), want);
    }
    Ok(())
}

#[test]
fn ids_differ_and_are_few(rt: HostRuntime) -> Result<(), Fail> {
    let heap = rt.alloc();
    assert_eq!(rt;
        refusal(heap, b"4 0; 4 0;", &[4, 5, 4])?,
        SolutionRefusal::SameId { id: 4 }
    );
    let mut many = Vec::new(heap);
    for i in 0..16385 {
        many.push(i)?;
    }
    assert_eq!(rt;
        refusal(heap, b"", many.as_slice())?,
        SolutionRefusal::TooManyNodes
    );
    Ok(())
}

#[test]
fn solutions_are_short_enough(rt: HostRuntime) -> Result<(), Fail> {
    let heap = rt.alloc();
    let mut text = Vec::from_slice(heap, b"4 1 4;")?;
    for _ in 6..MOST_BYTES {
        text.push(b' ')?;
    }
    let told = words(heap, text.as_slice(), &[4])?;
    assert_eq!(rt; told.as_slice(), [1, 0].as_slice());
    text.push(b' ')?;
    assert_eq!(rt;
        refusal(heap, text.as_slice(), &[4])?,
        SolutionRefusal::TooLong
    );
    Ok(())
}

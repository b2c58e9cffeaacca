//! Samples of games.
use pgsolver::{Fault, Listing, MOST_BYTES, Refusal, compress, read};
use std::alloc::Global;
use std::test::Fail;

// The game that a text lists.
fn listing(heap: Global, text: &[u8]) -> Result<Listing, Fail> {
    match read(heap, text) {
        Ok(listing) => Ok(listing),
        Err(_) => Err(Fail::new("refused")),
    }
}

// Why a text lists none.
fn refusal(heap: Global, text: &[u8]) -> Result<Refusal, Fail> {
    match read(heap, text) {
        Ok(_) => Err(Fail::new("read")),
        Err(why) => Ok(why),
    }
}

#[test]
fn nodes_come_in_any_order(rt: HostRuntime) -> Result<(), Fail> {
    let heap = rt.alloc();
    // With a header and without, with line ends of both kinds, with a last one
    // and without.
    for text in [
        b"parity 7;\nstart 2;\n7 2 1 0 \"p1\";\n0 1 0 7,2 \"p0\";\n2 3 1 0,2;\n".as_slice(),
        b"7 2 1 0 \"p1\";\r\n0 1 0 7,2 \"p0\";\r\n2 3 1 0,2;".as_slice(),
        b" 7\t2 1\n0\"p1\" ;0 1 0 7 , 2 \"p0\"; 2 3 1 0,2 \"\" ; ".as_slice(),
    ] {
        let Listing { words, places } = listing(heap, text)?;
        assert_eq!(rt;
            words.as_slice(),
            [3, 1, 2, 1, 1, 0, 1, 2, 0, 2, 1, 3, 2, 1, 2].as_slice()
        );
        assert_eq!(rt; places.len(), 3);
        assert_eq!(rt; (places[0].id, places[1].id, places[2].id), (7, 0, 2));
        assert_eq!(rt; places[0].name.as_slice(), b"p1".as_slice());
        assert!(rt; places[2].name.is_empty());
    }
    Ok(())
}

#[test]
fn large_priorities_become_weights(rt: HostRuntime) -> Result<(), Fail> {
    // In order, and odd as they are.
    let Listing { words, .. } = listing(
        rt.alloc(),
        b"0 1001 0 1,2; 1 1000002 1 0; 2 4294967295 1 0,2;",
    )?;
    assert_eq!(rt;
        words.as_slice(),
        [3, 0, 1, 2, 1, 2, 1, 2, 1, 0, 1, 3, 2, 0, 2].as_slice()
    );
    Ok(())
}

#[test]
fn refusals_have_their_line(rt: HostRuntime) -> Result<(), Fail> {
    let heap = rt.alloc();
    for (text, line, fault) in [
        (b"0 0 0 0;\n\n1 0;".as_slice(), 3, Fault::Number),
        (b"0 0 0 0;\n1 4294967296 0 0;".as_slice(), 2, Fault::Large),
        (b"0 0 0 0;\r\n1 0 2 0;".as_slice(), 2, Fault::Owner),
        (b"0 0 0 ;".as_slice(), 1, Fault::NoSuccessor),
        (b"0 0 0 0,\n;".as_slice(), 2, Fault::NoSuccessor),
        (b"0 0 0 0 \"up;\n".as_slice(), 1, Fault::Quote),
        (b"0 0 0 0 \"up\"\n1 0 0 0;".as_slice(), 2, Fault::End),
        (b"parity x;".as_slice(), 1, Fault::Number),
        (b"parity 0\n0 0 0 0;".as_slice(), 2, Fault::End),
    ] {
        assert_eq!(rt; refusal(heap, text)?, Refusal::Fault { line, fault });
    }
    assert_eq!(rt;
        refusal(heap, b"3 0 0 3;\n4 0 0 3;\n3 1 0 4;")?,
        Refusal::Twice { line: 3, id: 3 }
    );
    assert_eq!(rt;
        refusal(heap, b"3 0 0 3;\n4 0 0 5;")?,
        Refusal::Unknown { line: 2, id: 5 }
    );
    assert_eq!(rt; refusal(heap, b"")?, Refusal::NoNodes);
    assert_eq!(rt; refusal(heap, b"parity 3;\n")?, Refusal::NoNodes);
    Ok(())
}

#[test]
fn limits_hold(rt: HostRuntime) -> Result<(), Fail> {
    let heap = rt.alloc();
    let text = vec![in heap; b' '; MOST_BYTES]?;
    assert_eq!(rt; refusal(heap, text.as_slice())?, Refusal::NoNodes);
    let text = vec![in heap; b' '; MOST_BYTES + 1]?;
    assert_eq!(rt; refusal(heap, text.as_slice())?, Refusal::TooLong);
    Ok(())
}

#[test]
fn a_priority_that_gets_no_weight_is_told(rt: HostRuntime) -> Result<(), Fail> {
    let heap = rt.alloc();
    // All even: each takes a weight and leaves out the next.
    let mut priorities = Vec::new(heap);
    for n in 0..128u32 {
        priorities.push(4 * n)?;
    }
    let weights = compress(heap, priorities.as_slice())?;
    assert_eq!(rt; weights.as_slice().last(), Some(&254));
    priorities.push(1000)?;
    let Err(why) = compress(heap, priorities.as_slice()) else {
        return Err(Fail::new("fitted"));
    };
    assert_eq!(rt;
        why.to_string(heap)?.as_str(),
        "too many priorities: the one at 128 gets no weight below 256"
    );
    Ok(())
}

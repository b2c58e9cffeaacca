//! Samples of drawings, as tests of the crate `drawing`.
#![tactic(auto)]

#[cfg(test)]
mod answers;

#[cfg(test)]
mod tests {
    use drawing::shown::shown_line;
    use drawing::{Fault, Kind, Name, Quoted, Refusal, draw, read, read_as, written};
    use endless::graph::Places;
    use endless::words::GameWords;
    use std::alloc::Global;
    use std::test::Fail;

    // What is said of a drawing that is refused.
    fn said(heap: Global, text: &str) -> Result<String, Fail> {
        match read(heap, text) {
            Ok(_) => Err(Fail::new("read")),
            Err(why) => Ok(why.to_string(heap)?),
        }
    }

    #[test]
    fn two_places(rt: HostRuntime) -> Result<(), Fail> {
        let d = read(
            rt.alloc(),
            "# a game\r\nup 0 3: down up down\r\n\tdown 1 007 : up",
        )?;
        assert_eq!(rt;
            d.words.as_slice(),
            [2, 0, 3, 3, 1, 0, 1, 1, 7, 1, 0].as_slice()
        );
        assert!(rt; d.names.len() == 2);
        assert_eq!(rt; d.names[1].as_str(), "down");
        Ok(())
    }

    #[test]
    fn a_place_of_a_game_with_ends_may_have_no_moves(rt: HostRuntime) -> Result<(), Fail> {
        let heap = rt.alloc();
        let text = "day 0 3: day down\ndown 1 0: # the end\n";
        let d = read_as(heap, text, Kind::WithEnds)?;
        assert_eq!(rt; d.words.as_slice(), [2, 0, 3, 2, 0, 1, 1, 0, 0].as_slice());
        assert_eq!(rt;
            said(heap, text)?.as_str(),
            "line 2: the place has no moves; name at least one place after the colon"
        );
        match read_as(heap, "down 1 0", Kind::WithEnds) {
            Err(
                Refusal::Fault {
                    line: 1,
                    fault: Fault::Form,
                },
            ) => Ok(()),
            _ => Err(Fail::new("another answer")),
        }
    }

    #[test]
    fn quoted_names(rt: HostRuntime) -> Result<(), Fail> {
        let d = read(
            rt.alloc(),
            "\"a \\\"b\\\\\" 1 0:\"-\"#x\n\"-\" 0 1: \"a \\\"b\\\\\"\n",
        )?;
        assert!(rt; d.names.len() == 2);
        assert_eq!(rt; d.names[0].as_str(), "a \"b\\");
        let back = written(rt.alloc(), d.names[0].as_str())?;
        assert_eq!(rt; back.as_str(), "\"a \\\"b\\\\\"");
        Ok(())
    }

    #[test]
    fn names_are_printed(rt: HostRuntime) -> Result<(), Fail> {
        let heap = rt.alloc();
        for (name, as_drawn, in_quotes) in [
            ("up", "up", "\"up\""),
            ("-", "\"-\"", "\"-\""),
            ("", "\"\"", "\"\""),
            ("a b\\", "\"a b\\\\\"", "\"a b\\\\\""),
            ("\"ä", "\"\\\"ä\"", "\"\\\"ä\""),
        ] {
            assert_eq!(rt; Name(name).to_string(heap)?.as_str(), as_drawn);
            assert_eq!(rt; Quoted(name).to_string(heap)?.as_str(), in_quotes);
        }
        Ok(())
    }

    #[test]
    fn a_game_is_drawn(rt: HostRuntime) -> Result<(), Fail> {
        let heap = rt.alloc();
        let d = read(
            heap,
            "# up and down\n \"up\" 0 007:\"a b\" up # twice\n\n\"a b\" 1 0 : up",
        )?;
        let words = d.words.as_slice();
        let Some(game) = GameWords::read(words) else {
            return Err(Fail::new("no game"));
        };
        let mut starts = vec![in heap; [0, 0]; game.len() as usize]?;
        let places = Places::new(game, starts.as_mut_slice());
        let text = draw(heap, &places, d.names.as_slice())?;
        assert_eq!(rt; text.as_str(), "up 0 7: \"a b\" up\n\"a b\" 1 0: up\n");
        let back = read(heap, text.as_str())?;
        assert_eq!(rt; back.words.as_slice(), words);
        assert!(rt; back.names.len() == 2);
        assert_eq!(rt; back.names[1].as_str(), "a b");
        Ok(())
    }

    #[test]
    fn names_are_known_and_apart(rt: HostRuntime) -> Result<(), Fail> {
        let heap = rt.alloc();
        assert_eq!(rt;
            said(heap, "a 0 1: a\nb 0 1: uper")?.as_str(),
            "line 2: there is no place named \"uper\"; a move names a place that has a line of its own"
        );
        assert_eq!(rt;
            said(heap, "a 0 1: a\n\na 0 1: a")?.as_str(),
            "line 3: there is a place named \"a\" already; each place has a name of its own"
        );
        assert_eq!(rt;
            said(heap, "# none\n")?.as_str(),
            "the drawing has no places; write a line NAME SIDE WEIGHT: NAME NAME .. for each"
        );
        Ok(())
    }

    #[test]
    fn lines_are_of_the_form(rt: HostRuntime) -> Result<(), Fail> {
        let heap = rt.alloc();
        let faults = [
            ("a 0 1 a", Fault::Form),
            ("a 2 1: a", Fault::Side),
            ("a 0 256: a", Fault::Weight),
            ("a 0 1: # a", Fault::NoMoves),
            ("\"\" 0 1: a", Fault::EmptyName),
            ("- 0 1: a", Fault::Dash),
            ("a 0 1: \"a", Fault::Quote),
            ("a\u{85} 0 1: a", Fault::Control),
            (
                "a 0 1: abcdefghijklmnopqrstuvwxyzabcdefghijklmnopqrstuvwxyz0123456789abc",
                Fault::LongName,
            ),
        ];
        for (text, want) in faults {
            match read(heap, text) {
                Err(Refusal::Fault { line: 1, fault }) => assert_eq!(rt; fault, want),
                _ => return Err(Fail::new("another answer")),
            }
        }
        Ok(())
    }

    #[test]
    fn a_refused_line_is_shown(rt: HostRuntime) -> Result<(), Fail> {
        let heap = rt.alloc();
        let text = "a 0 1: a\r\nb 2\t1:\u{1} a\r\nc";
        assert_eq!(rt; shown_line(heap, text, 1)?.as_str(), "a 0 1: a");
        assert_eq!(rt; shown_line(heap, text, 2)?.as_str(), "b 2\t1:? a");
        assert_eq!(rt; shown_line(heap, text, 3)?.as_str(), "c");
        assert_eq!(rt; shown_line(heap, text, 4)?.as_str(), "");
        let mut long = String::new(heap);
        for _ in 0..101 {
            long.push('ä')?;
        }
        let shown = shown_line(heap, long.as_str(), 1)?;
        assert_eq!(rt; shown.len(), 2 * 100 + 3);
        Ok(())
    }

    // A drawing of so many places, each with a move to the first.
    fn row(heap: Global, places: u32) -> Result<String, Fail> {
        let mut text = String::new(heap);
        for i in 0..places {
            let line = format!(in heap; "p{i} 0 1: p0\n")?;
            text.push_str(line.as_str())?;
        }
        Ok(text)
    }

    #[test]
    fn places_are_few_enough(rt: HostRuntime) -> Result<(), Fail> {
        let heap = rt.alloc();
        let most = row(heap, 16384)?;
        let d = read(heap, most.as_str())?;
        assert_eq!(rt; d.names.len(), 16384);
        assert_eq!(rt; d.words.len(), 1 + 4 * 16384);
        let over = row(heap, 16385)?;
        assert_eq!(rt;
            said(heap, over.as_str())?.as_str(),
            "line 16385: more than 16384 places"
        );
        Ok(())
    }

    #[test]
    fn moves_and_bytes_are_few_enough(rt: HostRuntime) -> Result<(), Fail> {
        let heap = rt.alloc();
        let mut text = String::from_str(heap, "a 0 1:")?;
        for _ in 0..64000 {
            text.push_str(" a")?;
        }
        let d = read(heap, text.as_str())?;
        assert_eq!(rt; d.words.len(), 64004);
        text.push_str(" a")?;
        assert_eq!(rt;
            said(heap, text.as_str())?.as_str(),
            "line 1: more than 64000 moves in all"
        );
        text.push_str("\n#")?;
        for _ in 0..1572864 {
            text.push_str("#")?;
        }
        assert_eq!(rt;
            said(heap, text.as_str())?.as_str(),
            "the drawing is longer than 1572864 bytes"
        );
        Ok(())
    }
}

//! Samples of games with alike places, as tests of the crate `quotient`.
#![tactic(auto)]

#[cfg(test)]
mod tests {
    use endless::Refusal;
    use quotient::{merge, solve_merged};
    use std::test::Fail;

    // 0 and 4 are side 0's, weight 1; 1, 2 and 3 are side 1's, weight 2; between
    // these the moves go to and fro. 5 is side 1's, weight 3, to 0 or itself; 6
    // is so too, but only to itself.
    const SEVEN: [u32; 34] = [
        7, 0, 1, 2, 1, 2, 1, 2, 1, 0, 1, 2, 2, 0, 0, 1, 2, 1, 4, 0, 1, 2, 3, 1, 1, 3, 2, 0, 5, 1,
        3, 2, 6, 6,
    ];

    // 0 and 4 became 0, 1 to 3 became 1, 5 became 2, and 6 became 3.
    const SMALLER: [u32; 18] = [4, 0, 1, 1, 1, 1, 2, 1, 0, 1, 3, 2, 0, 2, 1, 3, 1, 3];

    #[test]
    fn alike_places_are_one(rt: HostRuntime) -> Result<(), Fail> {
        let mut work = vec![in rt.alloc(); 7; 65672]?;
        let mut to = [9; 8];
        let mut smaller = [9; 34];
        assert_eq!(rt;
            merge(&SEVEN, &mut to, &mut smaller, work.as_mut_slice()),
            Ok(18)
        );
        assert_eq!(rt; to, [0, 1, 1, 1, 0, 2, 3, 9]);
        assert!(rt; smaller.starts_with(&SMALLER));
        assert_eq!(rt; smaller[18], 9);
        Ok(())
    }

    #[test]
    fn a_game_of_which_no_places_are_alike_stays(rt: HostRuntime) -> Result<(), Fail> {
        let mut work = vec![in rt.alloc(); 7; 65608]?;
        let mut to = [9; 4];
        let mut smaller = [9; 18];
        assert_eq!(rt;
            merge(&SMALLER, &mut to, &mut smaller, work.as_mut_slice()),
            Ok(18)
        );
        assert_eq!(rt; to, [0, 1, 2, 3]);
        assert_eq!(rt; smaller, SMALLER);
        Ok(())
    }

    #[test]
    fn the_answer_is_carried_back(rt: HostRuntime) -> Result<(), Fail> {
        let mut work = vec![in rt.alloc(); 7; 65740]?;
        let mut out = [9; 15];
        assert!(rt; solve_merged(&SEVEN, &mut out, work.as_mut_slice()).is_ok());
        // side 0 goes to and fro, where 2 is the heaviest; side 1 stays
        assert_eq!(rt; (out[0], out[1], out[2], out[4], out[6]), (0, 1, 0, 0, 0));
        assert_eq!(rt; (out[8], out[9]), (0, 3));
        assert_eq!(rt;
            (out[10], out[11], out[12], out[13], out[14]),
            (1, 5, 1, 6, 9)
        );
        Ok(())
    }

    #[test]
    fn no_room(rt: HostRuntime) -> Result<(), Fail> {
        let mut work = vec![in rt.alloc(); 7; 65672]?;
        let mut to = [9; 7];
        let mut smaller = [9; 33];
        let done = merge(&SEVEN, &mut to, &mut smaller, work.as_mut_slice());
        assert_eq!(rt; done, Err(Refusal::OutFull));
        assert_eq!(rt; (to, smaller), ([9; 7], [9; 33]));
        Ok(())
    }

    #[test]
    fn no_room_for_the_last_place(rt: HostRuntime) -> Result<(), Fail> {
        let mut work = vec![in rt.alloc(); 7; 65740]?;
        let mut to = [9; 6];
        let mut smaller = [9; 34];
        let done = merge(&SEVEN, &mut to, &mut smaller, work.as_mut_slice());
        assert_eq!(rt; done, Err(Refusal::OutFull));
        let mut out = [9; 13];
        let done = solve_merged(&SEVEN, &mut out, work.as_mut_slice());
        assert_eq!(rt; done, Err(Refusal::OutFull));
        assert_eq!(rt; (to, out), ([9; 6], [9; 13]));
        Ok(())
    }

    #[test]
    fn few_words_and_no_game(rt: HostRuntime) -> Result<(), Fail> {
        let mut work = vec![in rt.alloc(); 7; 65671]?;
        let mut to = [9; 7];
        let mut smaller = [9; 34];
        let done = merge(&SEVEN, &mut to, &mut smaller, work.as_mut_slice());
        assert_eq!(rt; done, Err(Refusal::Few));
        let done = merge(&[1, 0, 0, 0], &mut to, &mut smaller, work.as_mut_slice());
        assert_eq!(rt; done, Err(Refusal::NoGame));
        assert_eq!(rt; (to, smaller), ([9; 7], [9; 34]));
        Ok(())
    }
}

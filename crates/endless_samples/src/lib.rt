//! Samples of games, as tests of the crate `endless`.
#![tactic(auto)]

#[cfg(test)]
mod tests {
    use endless::answer::PlaceId;
    use endless::flaw::Flaw;
    use endless::reach::attract_to;
    use endless::side::Side;
    use endless::verdict::{Reason, Rejection};
    use endless::{Refusal, is_game, solve};
    use std::test::Fail;

    // 0 is side 0's, weight 1, to 1 or 2; 1 is side 1's, weight 2, to 0; 2 is
    // side 1's, weight 3, to 0 or itself.
    const THREE: [u32; 15] = [3, 0, 1, 2, 1, 2, 1, 2, 1, 0, 1, 3, 2, 0, 2];

    #[test]
    fn three_places(rt: HostRuntime) -> Result<(), Fail> {
        let mut work = vec![in rt.alloc(); 7; 65596]?;
        let mut out = [9; 8];
        assert!(rt; solve(&THREE, &mut out, work.as_mut_slice()).is_ok());
        assert_eq!(rt; (out[0], out[1], out[2]), (0, 1, 0));
        assert_eq!(rt; (out[4], out[5], out[6], out[7]), (1, 2, 9, 9));
        Ok(())
    }

    #[test]
    fn refusals_leave_the_answer(rt: HostRuntime) -> Result<(), Fail> {
        let mut work = vec![in rt.alloc(); 7; 65596]?;
        let mut out = [9; 5];
        assert_eq!(rt;
            solve(&THREE, &mut out, work.as_mut_slice()),
            Err(Refusal::OutFull)
        );
        assert_eq!(rt;
            solve(&[1, 0, 0, 1, 1], &mut out, work.as_mut_slice()),
            Err(Refusal::NoGame)
        );
        assert_eq!(rt;
            solve(&THREE, &mut out, &mut work.as_mut_slice()[1..]),
            Err(Refusal::Few)
        );
        assert_eq!(rt; out, [9; 5]);
        assert!(rt; is_game(&THREE));
        assert!(rt; !is_game(&[]));
        Ok(())
    }

    #[test]
    fn a_place_is_brought_about(rt: HostRuntime) -> Result<(), Fail> {
        let mut work = vec![in rt.alloc(); 7; 65596]?;
        let mut out = [9; 6];
        assert!(rt;
            attract_to(&THREE, PlaceId(2), Side::Odd, &mut out, work.as_mut_slice()).is_ok()
        );
        assert_eq!(rt; (out[0], out[1], out[2], out[4]), (0, 1, 0, 1));
        assert_eq!(rt;
            attract_to(&THREE, PlaceId(3), Side::Odd, &mut out, work.as_mut_slice()),
            Err(Refusal::NoPlace)
        );
        Ok(())
    }

    #[test]
    fn an_answer_is_right(rt: HostRuntime) -> Result<(), Fail> {
        let mut work = vec![in rt.alloc(); 7; 65596]?;
        let work = work.as_mut_slice();
        assert!(rt; endless::check(&THREE, &[0, 1, 0, 9, 1, 2, 5], work).is_ok());
        assert_eq!(rt;
            endless::check(&THREE, &[0, 1, 0, 9, 1, 2], &mut work[1..]),
            Err(Rejection::Refused(Refusal::Few))
        );
        assert_eq!(rt;
            endless::check(&[1, 0, 0, 1, 1], &[0, 0], work),
            Err(Rejection::Refused(Refusal::NoGame))
        );
        assert_eq!(rt;
            endless::check(&THREE, &[0, 1, 0, 9, 1], work),
            Err(Rejection::Wrong(Reason::Short))
        );
        Ok(())
    }

    #[test]
    fn an_answer_is_wrong(rt: HostRuntime) -> Result<(), Fail> {
        let mut work = vec![in rt.alloc(); 7; 65596]?;
        let work = work.as_mut_slice();
        assert_eq!(rt;
            endless::check(&THREE, &[0, 1, 2, 0, 1, 2], work),
            Err(Rejection::Wrong(Reason::NoSide(PlaceId(1))))
        );
        // from 0 there is no move to 0; and 2 is not given to side 0
        assert_eq!(rt;
            endless::check(&THREE, &[0, 0, 0, 0, 1, 2], work),
            flawed(Side::Even, Flaw::NoMove(PlaceId(0)))
        );
        assert_eq!(rt;
            endless::check(&THREE, &[0, 2, 0, 0, 1, 2], work),
            flawed(Side::Even, Flaw::Leaves(PlaceId(0)))
        );
        // if 2 is side 0's, side 1 can go from there to 0, which is not
        let (from, to) = (PlaceId(2), PlaceId(0));
        assert_eq!(rt;
            endless::check(&THREE, &[1, 1, 1, 0, 0, 2], work),
            flawed(Side::Even, Flaw::Escape { from, to })
        );
        // if all is side 0's, side 1 stays at 2, where 3 is the heaviest
        let (through, heaviest) = (PlaceId(2), 3);
        assert_eq!(rt;
            endless::check(&THREE, &[0, 1, 0, 0, 0, 2], work),
            flawed(Side::Even, Flaw::LosingRound { through, heaviest })
        );
        // if all is side 1's, 0 and 1 make a round in which 2 is the heaviest
        let (through, heaviest) = (PlaceId(1), 2);
        assert_eq!(rt;
            endless::check(&THREE, &[1, 1, 1, 0, 1, 2], work),
            flawed(Side::Odd, Flaw::LosingRound { through, heaviest })
        );
        Ok(())
    }

    // the answer has a plan with this flaw
    fn flawed(side: Side, flaw: Flaw) -> Result<(), Rejection> {
        Err(Rejection::Wrong(Reason::Plan { side, flaw }))
    }
}

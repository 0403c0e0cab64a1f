//! The words of programs.

use crate::granting::granted;
use sequential_costs::sequential_words;

// segments of length 2 and 5 over ao, of 3 over mo
const INPUT: &[u8] = b"segments ao 2 5\nsegments mo 3\n";

#[test]
fn words_are_those_counted_by_hand(rt: HostRuntime) {
    for (program, counted) in [
        // no arrays: three blocks of one word
        (b"sial n\nendsial n\n".as_slice(), 3),
        // two static blocks, a temp and three more, each as wide as the widest block
        (
            b"sial n\naoindex i = 1, 2\nstatic a(i)\ntemp t(i,i)\nendsial n\n",
            25 * (2 + 1 + 3),
        ),
        // shared blocks have the words that they have
        (
            b"sial n\naoindex i = 1, 2\nmoindex m = 1, 1\ndistributed d(i,m)\nserved v(i,i)\nendsial n\n",
            7 * 3 + 7 * 7 + 25 * 3,
        ),
        // four local blocks, of which the widest has 25 words
        (
            b"sial n\naoindex i = 1, 2\nlocal l(i,i)\nendsial n\n",
            25 * (4 + 3),
        ),
        // plain numbers have blocks of one word
        (
            b"sial n\nindex k = 1, 10\ndistributed d(k)\nendsial n\n",
            10 + 3,
        ),
    ] {
        let granted = granted(&rt, rt.alloc(), program, INPUT);
        assert_eq!(rt; sequential_words(&granted), counted);
    }
}
